// Packets that come back are held to those that were sent, which are made a second time.
ghost use Rattle.std.specs.Prelude.{◌≡◌};
ghost use Rattle.std.specs.Str.{bytes_eq};
ghost use Rattle.samples.specs.Generator.{after, packet_from};
ghost use Rattle.samples.specs.Returns.{beginning, held};

use super::generator::Generator;

#[derive(Clone, Copy)]
pub struct Returns {
    // How many were sent, and how many of them are back as they were.
    pub sent: u32,
    pub back: u32,
    // What makes the next one, until one has differed.
    pub next: Option<Generator>,
}

// Is it the next packet?
fn is_next(generator: &mut Generator, packet: &[u8]) -> bool
    ensures same { result ≡ bytes_eq packet.now (packet_from generator.old.state) }
    ensures onward { generator.new.state ≡ after 187 generator.old.state }
{
    let made = generator.packet();
    packet == made.as_slice()
}

impl Returns {
    pub fn new(seed: u32, sent: u32) -> Returns
        ensures { result ≡ beginning seed sent }
    {
        Returns {
            sent,
            back: 0,
            next: Some(Generator::new(seed)),
        }
    }

    // Those that come back after the ones sent are null packets of the closing super-frame.
    pub fn put(&mut self, packet: &[u8])
        ensures { self.new ≡ held self.old packet.now }
    {
        let Some(mut generator) = self.next else {
            return;
        };
        if self.back < self.sent {
            if is_next(&mut generator, packet) {
                self.back += 1;
                self.next = Some(generator);
            } else {
                self.next = None;
            }
        }
    }
}
