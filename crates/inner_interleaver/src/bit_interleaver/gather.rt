// Many bits at once for the block begun: what a pass hands to the bit interleaver.
ghost use Rattle.std.specs.Prelude.{◌≡◌, ◌<◌, ◌≤◌, [], ◌++◌, length, take, drop};
ghost use Rattle.stage.specs.Model.{fed};
ghost use Rattle.stage.specs.Piled.{fitting};
ghost use Rattle.stage.specs.Rule.{Under};
ghost use Rattle.inner_interleaver.specs.BitInterleaver.{sending_of, receiving_of};

use super::super::words::block;
use super::BitInterleaver;

// Copies bits into the room, until it is full or the next unit is no bit. Answers how many.
fn copy_bits(input: &[u8], room: &mut [u8]) -> usize
    ensures input_has { result ≤ length input.now }
    ensures room_has { result ≤ length room.old }
    ensures fits { Under 2 (take result input.now) }
    ensures copied { room.new ≡ take result input.now ++ drop result room.old }
    ensures used_up { result < length room.old → fitting 2 (drop result input.now) ≡ [] }
{
    for (count, &unit) in input.iter().enumerate() {
        if room.len() <= count || unit >= 2 {
            return count;
        }
        room[count] = unit;
    }
    input.len()
}

impl BitInterleaver {
    // Gathers bits of the input, where nothing waits, until the block is whole, so that its words wait. Answers how many.
    pub(crate) fn gather(&mut self, input: &[u8]) -> usize
        requires { 126 ≤ self.old.at }
        ensures fixed { self.new.constellation ≡ self.old.constellation }
        ensures other { receiving_of self.new ≡ receiving_of self.old }
        ensures input_has { result ≤ length input.now }
        ensures fits { Under 2 (take result input.now) }
        ensures side { sending_of self.new ≡ fed (sending_of self.old) (take result input.now) }
        ensures some_used { self.new.at < 126 → 0 < result }
        ensures used_up { 126 ≤ self.new.at → fitting 2 (drop result input.now) ≡ [] }
    {
        let block = block(self.constellation);
        let count = copy_bits(input, &mut self.bits[self.have..block]);
        if self.have + count < block {
            self.have += count;
        } else {
            self.have = 0;
            self.at = 0;
        }
        count
    }
}
