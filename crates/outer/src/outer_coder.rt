// The outer coder as a stage (EN 300 744, clause 4.3.2): after every 188 bytes come the sixteen of their parity.
// Input: bytes. Output: bytes, 204 for 188; receiving gives 188 for 204, or cause 2.
ghost use Rattle.std.specs.Prelude.{◌≡◌, ℕ, ◌<◌, ◌≤◌, length, Some, None, Ok};
ghost use Rattle.std.specs.Result.{ForErr};
ghost use Rattle.outer.specs.Faults.{failed_root};

use crate::due::Due;
use arrayvec::ArrayVec;
use reed::{Parity, is_codeword};
use refusal::Refusal;
use stage::{Fault, Stage};

// A block was not zero at some root.
const FAILED_ROOT: Fault = Fault { stage: 1, cause: 2 };

#[derive(Drop)]
pub struct OuterCoder {
    // Sending: the parity of the `sent` bytes of the packet so far, the byte that waits, and the bytes of a parity that wait after it.
    parity: Parity,
    sent: u8,
    out: Option<u8>,
    due: Due,
    // Receiving: the bytes of a block so far, or those of a packet, which wait from a place on, or the fault.
    block: ArrayVec<u8, 204>,
    arrived: Result<Option<usize>, Fault>,
    ghost begun: { sent < 188 },
    ghost room: { length due ≤ 16 },
    ghost short: { arrived ≡ Ok None → length block.items < 204 },
    ghost within: { (at : ℕ) → arrived ≡ Ok (Some at) → at < length block.items },
    ghost cause: { ForErr arrived (λ fault. fault ≡ failed_root) },
}

impl OuterCoder {
    ghost use Rattle.stage.specs.Model.{new_sending, new_receiving};
    ghost use Rattle.outer.specs.OuterCoder.{outer_coder, coder_sending, coder_receiving};

    pub fn new() -> OuterCoder
        ensures sends { coder_sending result ≡ new_sending outer_coder }
        ensures hears { coder_receiving result ≡ new_receiving outer_coder }
    {
        OuterCoder {
            parity: Parity::new(),
            sent: 0,
            out: None,
            due: Due::nothing(),
            block: ArrayVec::new(),
            arrived: Ok(None),
        }
    }
}

impl Stage for OuterCoder {
    ghost use Rattle.outer.specs.OuterCoder.{outer_coder, coder_sending, coder_receiving, passes, progressed, hears_block, gathered};
    ghost use Rattle.outer.specs.Protecting.{coder_rule};
    ghost use Rattle.stage.proofs.Machine.{gives_sends, hears_from_hears};
    ghost use Rattle.stage.proofs.Hearing.{hushed_hears};

    ghost model = { λ _. outer_coder };

    ghost sending = { coder_sending };

    ghost receiving = { coder_receiving };

    ghost rule = { λ s. coder_rule };

    ghost sends = { λ s. gives_sends passes progressed _ };

    ghost hears = { λ s. hushed_hears _ (hears_from_hears hears_block gathered _) };

    fn taken(&self) -> u16 {
        256
    }

    fn given(&self) -> u16 {
        256
    }

    fn size(&self) -> u32 {
        1
    }

    fn hold(&self, m: u32) -> u32 {
        m.saturating_add(187)
    }

    fn send_waits(&mut self) -> bool {
        self.out.is_some() || self.due.waits()
    }

    fn receive_waits(&mut self) -> bool {
        !matches!(self.arrived, Ok(None))
    }

    fn renew(&mut self) {
        *self = OuterCoder::new();
    }

    fn send_offer(&mut self, unit: u8) -> Result<(), Refusal> {
        if self.out.is_some() || self.due.waits() {
            return Err(Refusal::SomethingWaits);
        }
        self.out = Some(unit);
        self.parity.push(unit);
        self.sent += 1;
        if self.sent == 188 {
            self.due = Due::of(self.parity);
            self.parity = Parity::new();
            self.sent = 0;
        }
        Ok(())
    }

    fn send_take(&mut self) -> Option<u8> {
        if let Some(byte) = self.out.take() {
            return Some(byte);
        }
        self.due.take()
    }

    fn receive_offer(&mut self, unit: u8) -> Result<(), Refusal> {
        if !matches!(self.arrived, Ok(None)) {
            return Err(Refusal::SomethingWaits);
        }
        self.block.push(unit);
        if !self.block.is_full() {
            return Ok(());
        }
        if is_codeword(self.block.as_slice()) {
            self.block.truncate(188);
            self.arrived = Ok(Some(0));
        } else {
            self.arrived = Err(FAILED_ROOT);
        }
        Ok(())
    }

    fn receive_take(&mut self) -> Result<Option<u8>, Fault> {
        let Some(place) = self.arrived? else {
            return Ok(None);
        };
        let byte = self.block.as_slice()[place];
        if place + 1 < self.block.len() {
            self.arrived = Ok(Some(place + 1));
        } else {
            self.block.clear();
            self.arrived = Ok(None);
        }
        Ok(Some(byte))
    }
}
