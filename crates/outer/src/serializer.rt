// The serializer as a stage: each byte becomes eight bits, highest first.
// Input: bytes. Output: bits.
ghost use Rattle.std.specs.Prelude.{◌≡◌, ◌<◌, ◌≤◌, [], length, All};

use crate::bits::Bits;
use crate::octet::Octet;
use holds::stopped;
use refusal::Refusal;
use stage::{Fault, Stage};

#[derive(Drop)]
pub struct Serializer {
    // The bits that wait, the bits that have come of a byte, and a byte that waits.
    leaving: Bits,
    arriving: Octet,
    back: Option<u8>,
    ghost within: { length leaving ≤ 8 },
    ghost short: { length arriving < 8 },
    ghost small: { All (λ bit. bit < 2) leaving × All (λ bit. bit < 2) arriving },
}

impl Serializer {
    ghost use Rattle.stage.specs.Model.{new_sending, new_receiving};
    ghost use Rattle.outer.specs.Serializer.{serializer as serializer_model, serial_sending, serial_receiving};

    pub fn new() -> Serializer
        ensures sends { serial_sending result ≡ new_sending serializer_model }
        ensures hears { serial_receiving result ≡ new_receiving serializer_model }
    {
        Serializer {
            leaving: Bits::nothing(),
            arriving: Octet::new(),
            back: None,
        }
    }
}

impl Stage for Serializer {
    ghost use Rattle.outer.specs.Serializer.{serializer as serializer_model, serial_sending, serial_receiving, bits_of, same, byte_of};
    ghost use Rattle.outer.specs.Serializing.{serializer_rule};
    ghost use Rattle.stage.proofs.Blocks.{blocks_sends, blocks_hears};

    ghost model = { λ _. serializer_model };

    ghost sending = { serial_sending };

    ghost receiving = { serial_receiving };

    ghost rule = { λ s. serializer_rule };

    ghost sends = { λ s. blocks_sends same bits_of 1 tt [] };

    ghost hears = { λ s. blocks_hears same byte_of 8 tt s.arriving };

    fn taken(&self) -> u16 {
        256
    }

    fn given(&self) -> u16 {
        2
    }

    fn size(&self) -> u32 {
        1
    }

    fn hold(&self, m: u32) -> u32 {
        stopped(m, (u64::from(m) + 7) / 8)
    }

    fn send_waits(&mut self) -> bool {
        self.leaving.waits()
    }

    fn receive_waits(&mut self) -> bool {
        self.back.is_some()
    }

    fn renew(&mut self) {
        *self = Serializer::new();
    }

    fn send_offer(&mut self, unit: u8) -> Result<(), Refusal> {
        if self.leaving.waits() {
            return Err(Refusal::SomethingWaits);
        }
        self.leaving = Bits::of(unit);
        Ok(())
    }

    fn send_take(&mut self) -> Option<u8> {
        self.leaving.take()
    }

    fn receive_offer(&mut self, unit: u8) -> Result<(), Refusal> {
        if unit >= 2 {
            return Err(Refusal::UnitTooLarge);
        }
        if self.back.is_some() {
            return Err(Refusal::SomethingWaits);
        }
        self.back = self.arriving.push(unit);
        Ok(())
    }

    fn receive_take(&mut self) -> Result<Option<u8>, Fault> {
        Ok(self.back.take())
    }
}
