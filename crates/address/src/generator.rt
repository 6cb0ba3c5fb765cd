// The generator of H (EN 300 744, clause 4.3.4.2, figures 8a and 8b): a shift register R', its bits rewired to R, and a toggling bit above them.
// In: the mode. Out: the addresses below N, in the order in which they come; an address that is N or more is passed over.
ghost use Rattle.std.specs.Prelude.{◌≡◌, ◌^◌, ◌<◌};
ghost use Rattle.address.specs.Address.{row_of, fed_back, stepped, following, wired, address, addresses_of};
ghost use Rattle.address.specs.Generator.{addresses_left};
ghost use Rattle.std.specs.Iterator.{YieldsFirst, item_count};

use crate::row::Row;
use settings::Mode;

#[derive(Drop)]
pub(crate) struct Generator {
    mode: Mode,
    // R', and its index.
    register: u16,
    index: u16,
    ghost fits: { register < 2 ^ (row_of mode).bits },
}

impl Generator {
    pub(crate) fn new(mode: Mode) -> Generator
        ensures { addresses_left result.mode result.index result.register ≡ addresses_of mode }
    {
        Generator {
            mode,
            register: 0,
            index: 0,
        }
    }

    fn feedback(&self) -> u16
        ensures { result ≡ fed_back (row_of self.now.mode).taps self.now.register }
    {
        let mut sum = 0;
        for tap in Row::of(self.mode).taps {
            sum ^= self.register >> *tap;
        }
        sum & 1
    }

    // R' one step on.
    fn step(&self) -> u16
        ensures is { result ≡ stepped (row_of self.now.mode) self.now.register }
        ensures fits { result < 2 ^ (row_of self.now.mode).bits }
    {
        (self.register >> 1) + (self.feedback() << (Row::of(self.mode).bits - 1))
    }

    // R' with the next index.
    fn following(&self) -> u16
        ensures is { result ≡ following (row_of self.now.mode) self.now.index self.now.register }
        ensures fits { result < 2 ^ (row_of self.now.mode).bits }
    {
        match self.index {
            0 => 0,
            1 => 1,
            _ => self.step(),
        }
    }

    // R from R'.
    fn rewired(&self) -> u16
        ensures { result ≡ wired (row_of self.now.mode).wires self.now.register }
    {
        let mut left = self.register;
        let mut all = 0;
        for place in Row::of(self.mode).wires {
            all += (left & 1) << *place;
            left >>= 1;
        }
        all
    }

    // R, and the toggling bit above it.
    fn address(&self) -> u16
        ensures { result ≡ address (row_of self.now.mode) self.now.index self.now.register }
    {
        ((self.index & 1) << Row::of(self.mode).bits) + self.rewired()
    }
}

impl Iterator for Generator {
    type Item = u16;

    ghost next_gives = { YieldsFirst (λ g. addresses_left g.mode g.index g.register) };

    ghost remaining = { item_count (λ g. addresses_left g.mode g.index g.register) };

    fn next(&mut self) -> Option<u16> {
        while self.index < 2 << Row::of(self.mode).bits {
            let at = self.address();
            self.register = self.following();
            self.index += 1;
            if u32::from(at) < self.mode.symbol_cells() {
                return Some(at);
            }
        }
        None
    }
}
