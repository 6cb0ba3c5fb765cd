// One side of the symbol interleaver: it gathers the words of a symbol, and gives them in their new order.
ghost use Rattle.std.specs.Prelude.{◌≡◌, ℕ, ◌+◌, ◌^◌, ◌<◌, ◌++◌, drop, length, nat_lt, slice_index};
ghost use Rattle.address.specs.Address.{addresses_of};
ghost use Rattle.permute.specs.Permuted.{permuted};
ghost use Rattle.settings.specs.Constellation.{word_bits};
ghost use Rattle.settings.specs.Mode.{symbol_cells};
ghost use Rattle.stage.specs.Model.{answer, offered, some, first, sent, BelowSome};

use super::limits::limit;
use address::Addresses;
use arrayvec::ArrayVec;
use permute::{Parity, permute};
use refusal::Refusal;
use settings::{Constellation, Mode};

#[derive(Drop)]
pub struct Side {
    mode: Mode,
    constellation: Constellation,
    // Words of a symbol are gathered, or the moved words of a whole one wait from the place `at` on.
    words: ArrayVec<u8, 6048>,
    moved: [u8; 6048],
    at: usize,
    // How the symbol will be moved: an even symbol that is heard moves as an odd one that is sent.
    parity: Parity,
    ghost short: { length words.items < symbol_cells mode },
    // All that is held are words of v bits.
    ghost gathered: { (k : ℕ) → slice_index words.items k < 2 ^ word_bits constellation },
    ghost waiting: { (k : ℕ) → slice_index moved k < 2 ^ word_bits constellation },
}

fn reorder(addresses: &Addresses, parity: Parity, words: &[u8], moved: &mut [u8; 6048])
    requires { length words.now ≡ symbol_cells addresses.now.mode }
    ensures { moved.new ≡ permuted parity (addresses_of addresses.now.mode) 0 words.now ++ drop (symbol_cells addresses.now.mode) moved.old }
{
    // Both are long enough for the symbol.
    let _ = permute(addresses, parity, words, moved);
}

impl Side {
    ghost use Rattle.inner_interleaver.specs.SymbolInterleaver.{idle, side_of};

    pub(crate) fn new(mode: Mode, constellation: Constellation, parity: Parity) -> Side
        ensures mode { result.mode ≡ mode }
        ensures constellation { result.constellation ≡ constellation }
        ensures side { side_of result ≡ idle mode parity }
    {
        Side {
            mode,
            constellation,
            words: ArrayVec::new(),
            moved: [0; 6048],
            at: 6048,
            parity,
        }
    }

    pub(crate) fn renew(&mut self, parity: Parity)
        ensures mode { self.new.mode ≡ self.old.mode }
        ensures constellation { self.new.constellation ≡ self.old.constellation }
        ensures side { side_of self.new ≡ idle self.old.mode parity }
    {
        self.words.clear();
        self.at = 6048;
        self.parity = parity;
    }

    // How many words of v bits there are.
    pub(crate) fn limit(&self) -> u16
        ensures { result ≡ 2 ^ word_bits self.now.constellation }
    {
        limit(self.constellation)
    }

    // N: the words of a symbol.
    pub(crate) fn symbol(&self) -> usize
        ensures { result ≡ symbol_cells self.now.mode }
    {
        self.mode.symbol_cells() as usize
    }

    // Does a word of the last symbol wait?
    pub(crate) fn waits(&self) -> bool
        ensures place { result ≡ nat_lt self.now.at (symbol_cells self.now.mode) }
        ensures answers { result ≡ some (side_of self.now).waits }
    {
        self.at < self.symbol()
    }

    pub(crate) fn offer(&mut self, addresses: &Addresses, unit: u8) -> Result<(), Refusal>
        requires { addresses.now.mode ≡ self.old.mode }
        ensures mode { self.new.mode ≡ self.old.mode }
        ensures constellation { self.new.constellation ≡ self.old.constellation }
        ensures answers { result ≡ answer (nat_lt unit (2 ^ word_bits self.old.constellation)) (some (side_of self.old).waits) }
        ensures side { side_of self.new ≡ offered (nat_lt unit (2 ^ word_bits self.old.constellation)) (some (side_of self.old).waits) (side_of self.old) unit }
    {
        if u16::from(unit) >= self.limit() {
            return Err(Refusal::UnitTooLarge);
        }
        if self.waits() {
            return Err(Refusal::SomethingWaits);
        }
        let symbol = self.symbol();
        self.words.push(unit);
        // A whole symbol's moved words wait, and the next one has the other parity.
        if self.words.len() == symbol {
            let words = self.words.as_slice();
            reorder(addresses, self.parity, words, &mut self.moved);
            self.words.clear();
            self.at = 0;
            self.parity = self.parity.other();
        }
        Ok(())
    }

    pub(crate) fn take(&mut self) -> Option<u8>
        ensures mode { self.new.mode ≡ self.old.mode }
        ensures constellation { self.new.constellation ≡ self.old.constellation }
        ensures answers { result ≡ first (side_of self.old).waits }
        ensures below { BelowSome (2 ^ word_bits self.old.constellation) result }
        ensures side { side_of self.new ≡ sent (side_of self.old) }
    {
        if !self.waits() {
            return None;
        }
        let unit = self.moved[self.at];
        self.at += 1;
        Some(unit)
    }
}
