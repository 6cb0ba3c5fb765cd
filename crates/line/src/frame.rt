// Settings that a start accepted, with the packets in a super-frame and how many of one begun were accepted.
ghost use Rattle.std.specs.Prelude.{◌≡◌, ◌+◌, ◌%◌, ◌<◌, ◌≤◌};
ghost use Rattle.settings.specs.SuperFrame.{super_frame_packets};

use settings::Settings;

#[derive(Clone, Copy)]
pub struct Frame {
    pub settings: Settings,
    // Worked out once, and not for each packet.
    pub packets: u32,
    // A count of all packets would overflow one day.
    pub begun: u32,
    ghost whole: { packets ≡ super_frame_packets settings },
    ghost within: { begun < packets },
}

impl Frame {
    // No packet was accepted yet.
    pub(crate) fn new(settings: Settings) -> Frame
        requires { 1 ≤ super_frame_packets settings }
        ensures settings { result.settings ≡ settings }
        ensures begun { result.begun ≡ 0 }
    {
        let packets = settings.packets();
        Frame {
            settings,
            packets,
            begun: 0,
        }
    }

    // One packet more.
    pub(crate) fn counted(self) -> Frame
        ensures settings { result.settings ≡ self.settings }
        ensures begun { result.begun ≡ (self.begun + 1) % super_frame_packets self.settings }
    {
        Frame {
            settings: self.settings,
            packets: self.packets,
            begun: (self.begun + 1) % self.packets,
        }
    }
}
