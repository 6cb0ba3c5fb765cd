// The outer interleaver as a stage (EN 300 744, clause 4.3.2): twelve branches with delays of 0, 204, .. 2244 bytes.
// Input: bytes. Output: bytes, one for each; receiving drops the first 2244.
ghost use Rattle.std.specs.Prelude.{◌≡◌, ◌≤◌};
ghost use Rattle.std.specs.Result.{ForErr};
ghost use Rattle.outer.specs.Branches.{unreached};

use crate::bank::Bank;
use refusal::Refusal;
use stage::{Fault, Stage};

// How many of its own bytes each branch delays by: branch j 17 × j where bytes are sent, and 17 × (11 − j) where they come back.
const SENDING: [usize; 12] = [0, 17, 34, 51, 68, 85, 102, 119, 136, 153, 170, 187];

const HEARING: [usize; 12] = [187, 170, 153, 136, 119, 102, 85, 68, 51, 34, 17, 0];

// A byte other than 0 came where none can be yet.
const UNREACHED: Fault = Fault { stage: 1, cause: 3 };

#[derive(Drop)]
pub struct OuterInterleaver {
    // The byte that waits stands here: a side shared with energy dispersal would need a trait for what a byte passes.
    leaving: Bank,
    out: Option<u8>,
    arriving: Bank,
    // How many bytes have arrived, up to 2244.
    count: usize,
    // The byte that waits, or the fault.
    arrived: Result<Option<u8>, Fault>,
    ghost counted: { count ≤ 2244 },
    ghost cause: { ForErr arrived (λ fault. fault ≡ unreached) },
}

impl OuterInterleaver {
    ghost use Rattle.stage.specs.Model.{new_sending, new_receiving};
    ghost use Rattle.outer.specs.OuterInterleaver.{outer_interleaver, interleaver_sending, interleaver_receiving};

    pub fn new() -> OuterInterleaver
        ensures sends { interleaver_sending result ≡ new_sending outer_interleaver }
        ensures hears { interleaver_receiving result ≡ new_receiving outer_interleaver }
    {
        OuterInterleaver {
            leaving: Bank::new(SENDING),
            out: None,
            arriving: Bank::new(HEARING),
            count: 0,
            arrived: Ok(None),
        }
    }
}

impl Stage for OuterInterleaver {
    ghost use Rattle.outer.specs.OuterInterleaver.{outer_interleaver, interleaver_sending, interleaver_receiving};
    ghost use Rattle.outer.specs.Interleaving.{interleaver_rule};
    ghost use Rattle.outer.specs.Branches.{sends_one, passing, hears_one, arriving_after};
    ghost use Rattle.stage.proofs.Machine.{gives_sends, hears_from_hears};
    ghost use Rattle.stage.proofs.Hearing.{hushed_hears};

    ghost model = { λ _. outer_interleaver };

    ghost sending = { interleaver_sending };

    ghost receiving = { interleaver_receiving };

    ghost rule = { λ s. interleaver_rule };

    ghost sends = { λ s. gives_sends sends_one passing _ };

    ghost hears = { λ s. hushed_hears _ (hears_from_hears hears_one arriving_after _) };

    fn taken(&self) -> u16 {
        256
    }

    fn given(&self) -> u16 {
        256
    }

    fn size(&self) -> u32 {
        1
    }

    fn hold(&self, m: u32) -> u32 {
        m.saturating_add(2244)
    }

    fn send_waits(&mut self) -> bool {
        self.out.is_some()
    }

    fn receive_waits(&mut self) -> bool {
        !matches!(self.arrived, Ok(None))
    }

    fn renew(&mut self) {
        *self = OuterInterleaver::new();
    }

    fn send_offer(&mut self, unit: u8) -> Result<(), Refusal> {
        if self.out.is_some() {
            return Err(Refusal::SomethingWaits);
        }
        self.out = Some(self.leaving.pass(unit));
        Ok(())
    }

    fn send_take(&mut self) -> Option<u8> {
        self.out.take()
    }

    fn receive_offer(&mut self, unit: u8) -> Result<(), Refusal> {
        if !matches!(self.arrived, Ok(None)) {
            return Err(Refusal::SomethingWaits);
        }
        if unit != 0 && self.count < 204 * self.arriving.turn() {
            self.arrived = Err(UNREACHED);
            return Ok(());
        }
        let byte = self.arriving.pass(unit);
        if self.count < 2244 {
            self.count += 1;
        } else {
            self.arrived = Ok(Some(byte));
        }
        Ok(())
    }

    fn receive_take(&mut self) -> Result<Option<u8>, Fault> {
        let byte = self.arrived?;
        self.arrived = Ok(None);
        Ok(byte)
    }
}
