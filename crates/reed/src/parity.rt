// The parity of a message that comes byte by byte (EN 300 744, clause 4.3.2): the remainder of message(x) x^16 by g(x) so far.
// Input: the message's bytes, first one highest. Output: sixteen bytes, first one highest.
ghost use Rattle.std.specs.Prelude.{◌≡◌, [], ◌∷◌, ◌++◌, length, drop, slice_index};
ghost use Rattle.reed.specs.Code.{remainder, stepped, Bytes};

use crate::rows::row;
use std::marker::Model;

#[derive(Clone, Copy)]
pub struct Parity {
    // The sixteen bytes in their places, the first one highest.
    register: u128,
}

impl Model for Parity {
    ghost use Rattle.std.specs.Prelude.{ℕ, ◌^◌, ◌<◌, List};
    ghost use Rattle.std.specs.Coded.{coded_list, coded_ℕ};
    ghost use Rattle.reed.specs.Registers.{sixteen, register_of, register_of_sixteen};

    ghost Value = { List ℕ };

    ghost coded = { coded_list coded_ℕ };

    ghost view = { λ p. sixteen p.register };

    ghost invariant = { λ p. p.register < 2 ^ 128 };

    ghost inverse = { λ bytes. record { register = register_of bytes } };

    ghost inverse_ok = { λ p h i. record { register = register_of_sixteen p.register h i } };
}

impl Parity {
    // No byte has come.
    pub fn new() -> Parity
        ensures { result ≡ remainder [] }
    {
        Parity { register: 0 }
    }

    // All bytes of a message have come.
    pub fn of(message: &[u8]) -> Parity
        ensures { result ≡ remainder message.now }
    {
        let mut parity = Parity::new();
        for byte in message {
            parity.push(*byte);
        }
        parity
    }

    fn first(&self) -> u8
        ensures { result ≡ slice_index self.now 0 }
    {
        (self.register >> 120) as u8
    }

    // One more byte of the message.
    pub fn push(&mut self, byte: u8)
        ensures parity { self.new ≡ stepped self.old byte }
        ensures sixteen { (length self.old ≡ 16) × (length self.new ≡ 16) }
        ensures bytes { Bytes self.old × Bytes self.new }
    {
        let factor = byte ^ self.first();
        self.register = (self.register << 8) ^ row(factor);
    }

    // The first of the sixteen; the others move up by one place, and 0 follows.
    pub fn shift(&mut self) -> u8
        ensures first { result ≡ slice_index self.old 0 }
        ensures rest { self.new ≡ drop 1 self.old ++ 0 ∷ [] }
        ensures sixteen { (length self.old ≡ 16) × (length self.new ≡ 16) }
        ensures bytes { Bytes self.old × Bytes self.new }
    {
        let byte = self.first();
        self.register <<= 8;
        byte
    }

    pub fn bytes(&self) -> [u8; 16]
        ensures { result ≡ self.now }
    {
        self.register.to_be_bytes()
    }
}
