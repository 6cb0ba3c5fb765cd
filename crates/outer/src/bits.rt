// The bits of a byte on their way out, highest first.
ghost use Rattle.std.specs.Prelude.{◌≡◌, []};
ghost use Rattle.outer.specs.Bits.{last_bits};
ghost use Rattle.stage.specs.Model.{some, first, others, BelowSome};

use std::marker::Model;

// Like `Due` but for how the next one is worked out: one type for both would need a trait for that alone.
#[derive(Drop)]
pub struct Bits {
    byte: u8,
    left: u8,
}

// Clauses see the bits that are left, the next one first.
impl Model for Bits {
    ghost use Rattle.std.specs.Prelude.{ℕ, List, ◌≤◌};
    ghost use Rattle.outer.specs.Bits.{last_bits};

    ghost Value = { List ℕ };

    ghost view = { λ b. last_bits b.left b.byte };

    ghost invariant = { λ b. b.left ≤ 8 };
}

impl Bits {
    pub(crate) fn nothing() -> Bits
        ensures { result ≡ [] }
    {
        Bits { byte: 0, left: 0 }
    }

    pub(crate) fn of(byte: u8) -> Bits
        ensures { result ≡ last_bits 8 byte }
    {
        Bits { byte, left: 8 }
    }

    pub(crate) fn waits(&self) -> bool
        ensures { result ≡ some self.now }
    {
        self.left > 0
    }

    pub(crate) fn take(&mut self) -> Option<u8>
        ensures answers { result ≡ first self.old }
        ensures below { BelowSome 2 result }
        ensures left { self.new ≡ others self.old }
    {
        if self.left == 0 {
            return None;
        }
        self.left -= 1;
        Some((self.byte >> self.left) % 2)
    }
}
