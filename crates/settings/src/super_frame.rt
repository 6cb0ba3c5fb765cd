// What a super-frame carries (EN 300 744, clauses 4.4 and 4.7): packets of 204 bytes, and cells.
ghost use Rattle.std.specs.Prelude.{◌≡◌};
ghost use Rattle.settings.specs.SuperFrame.{super_frame_packets, super_frame_cells, PacketsExact, PacketsPublished};

use super::Settings;

impl Settings {
    pub fn packets(&self) -> u32
        ensures value { result ≡ super_frame_packets self.now }
        ensures exact { PacketsExact }
        ensures published { PacketsPublished }
    {
        let bits = self.mode.symbol_cells() * self.constellation.word_bits();
        bits * self.rate.numerator() / (6 * self.rate.denominator())
    }

    pub fn cells(&self) -> u32
        ensures { result ≡ super_frame_cells self.now }
    {
        272 * self.mode.symbol_cells()
    }
}
