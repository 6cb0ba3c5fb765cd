// The hold of the standard coder: how many bytes at most are not back yet while the last m cells are unheard.
// Each stage, from the cells up, says how much of its input the missing output holds back: symbol interleaver,
// bit interleaver, inner coder, serializer, outer interleaver, outer coder, dispersal.
// `settings` stands below the stages and has no pile to ask, so their formulas stand here again; `standard` shows the two equal.
ghost use Rattle.std.specs.Prelude.{◌≡◌};
ghost use Rattle.settings.specs.Hold.{standard_hold};

use super::Settings;
use holds::stopped;

impl Settings {
    pub fn hold(&self, m: u32) -> u32
        ensures { result ≡ standard_hold self.now m }
    {
        let cells = u64::from(self.mode.symbol_cells());
        let width = u64::from(self.constellation.word_bits());
        let words = stopped(m, u64::from(m) + 2 * cells - 2);
        let sent_bits = stopped(words, width * u64::from(words) + 251 * width - 1);
        let bits = stopped(sent_bits, u64::from(sent_bits));
        let sent_bytes = stopped(bits, (u64::from(bits) + 7) / 8);
        let coded_bytes = stopped(sent_bytes, u64::from(sent_bytes) + 2244);
        let bytes = stopped(coded_bytes, u64::from(coded_bytes) + 187);
        stopped(bytes, u64::from(bytes))
    }
}
