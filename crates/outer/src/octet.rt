// The bits of a byte as they come in, highest first.
ghost use Rattle.std.specs.Prelude.{◌≡◌, ◌<◌, [], ◌∷◌, ◌++◌, length, Some, None};
ghost use Rattle.outer.specs.Bits.{value_after};

use std::marker::Model;

// One number and how many bits it has: a vector of bits would have to be summed up at the eighth.
#[derive(Drop)]
pub struct Octet {
    bits: u8,
    have: u8,
}

// Clauses see the bits that have come, the first one first.
impl Model for Octet {
    ghost use Rattle.std.specs.Prelude.{ℕ, List, ◌<◌, ◌^◌};
    ghost use Rattle.outer.specs.Bits.{last_bits};

    ghost Value = { List ℕ };

    ghost view = { λ o. last_bits o.have o.bits };

    ghost invariant = { λ o. (o.have < 8) × (o.bits < 2 ^ o.have) };
}

impl Octet {
    pub(crate) fn new() -> Octet
        ensures { result ≡ [] }
    {
        Octet { bits: 0, have: 0 }
    }

    // One more bit: the eighth makes the byte, and another byte begins.
    pub(crate) fn push(&mut self, bit: u8) -> Option<u8>
        requires { bit < 2 }
        ensures short { length self.old < 8 }
        ensures more { length self.old < 7 → (result ≡ None) × (self.new ≡ self.old ++ bit ∷ []) }
        ensures whole { length self.old ≡ 7 → (result ≡ Some (value_after 0 (self.old ++ bit ∷ []))) × (self.new ≡ []) }
    {
        let bits = self.bits * 2 + bit;
        if self.have < 7 {
            self.bits = bits;
            self.have += 1;
            return None;
        }
        *self = Octet::new();
        Some(bits)
    }
}
