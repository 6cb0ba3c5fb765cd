// The chart of the symbol interleaver (EN 300 744, clause 4.3.4.2): where each word of a symbol goes.
// In: codes of the mode and the parity, and a buffer. Out: its first N marks, by the place after the interleaver.

#![tactic(auto)]

ghost use Rattle.std.specs.Prelude.{◌≡◌, ℕ, ◌<◌, ◌≤◌, length, Ok};
ghost use Rattle.refusal.specs.Numbers.{refused_by};
ghost use Rattle.chart.specs.Chart.{mark, mark_at, unmoved, checked, buffer_after};
ghost use Rattle.settings.specs.Mode.{mode_read};
ghost use Rattle.permute.specs.Parity.{parity_read};

use address::Addresses;
use permute::{Parity, permute};
use refusal::Refusal;
use settings::Mode;
use std::array;

pub mod laws;
pub mod mark;
#[cfg(test)]
mod tests;

pub use mark::Mark;

// The marks of words that stay where they are, for the longest symbol.
fn in_place() -> [Mark; 6048]
    ensures { result ≡ unmoved 6048 }
{
    array::from_fn(|q| Mark {
        before: q as u16,
        after: q as u16,
    })
}

// Writes into each mark where it stands.
fn land(marks: &mut [Mark])
    requires { length marks.old ≤ 6048 }
    ensures { (k : ℕ) → k < length marks.old → mark_at marks.new k ≡ mark (mark_at marks.old k).before k }
{
    for (place, mark) in marks.iter_mut().enumerate() {
        mark.after = place as u16;
    }
}

// The chart at the front of a buffer that has room for it.
fn write(mode: Mode, parity: Parity, marks: &mut [Mark]) -> Result<(), Refusal>
    ensures answer { refused_by result ≡ checked (Ok mode) (Ok parity) (length marks.old) }
    ensures buffer { marks.new ≡ buffer_after (Ok mode) (Ok parity) marks.old }
{
    let addresses = Addresses::new(mode);
    permute(&addresses, parity, &in_place(), marks)?;
    land(&mut marks[..addresses.list().len()]);
    Ok(())
}

// Codes and not values: the call is known outside by its numbers.
pub fn chart(mode: u8, parity: u8, marks: &mut [Mark]) -> Result<(), Refusal>
    ensures answer { refused_by result ≡ checked (mode_read mode) (parity_read parity) (length marks.old) }
    ensures buffer { marks.new ≡ buffer_after (mode_read mode) (parity_read parity) marks.old }
{
    let mode = Mode::try_from(mode)?;
    let parity = Parity::try_from(parity)?;
    write(mode, parity, marks)
}
