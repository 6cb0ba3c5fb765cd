// The permuting rule of the symbol interleaver (EN 300 744, clause 4.3.4.2), between two lent slices, for elements of every kind.
// In: the words of a symbol and its parity. Out: an even symbol has word q at H(q), and an odd one word H(q) at q.

#![tactic(auto)]

ghost use Rattle.std.specs.Prelude.{◌≡◌};
ghost use Rattle.address.specs.Address.{addresses_of};
ghost use Rattle.refusal.specs.Numbers.{refused_by};
ghost use Rattle.permute.specs.Permuted.{refusal_of, buffer_after};

use address::Addresses;
use moves::{gather, scatter};
use refusal::Refusal;

pub mod laws;
mod moves;
pub mod parity;

pub use parity::Parity;

// The first N elements of `from` go to the first N places of `to`, whose other places stay.
pub fn permute<T: Copy>(
    addresses: &Addresses,
    parity: Parity,
    from: &[T],
    to: &mut [T],
) -> Result<(), Refusal>
    ensures answer { refused_by result ≡ refusal_of (addresses_of addresses.now.mode) from.now to.old }
    ensures buffer { (d : T) → to.new ≡ buffer_after parity (addresses_of addresses.now.mode) d from.now to.old }
{
    let table = addresses.list();
    if from.len() < table.len() || to.len() < table.len() {
        return Err(Refusal::BufferShort);
    }
    match parity {
        Parity::Even => scatter(table, from, to),
        Parity::Odd => gather(table, from, to),
    }
    Ok(())
}
