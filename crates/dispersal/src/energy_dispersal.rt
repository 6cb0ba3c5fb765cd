// Energy dispersal as a stage (EN 300 744, clause 4.3.1). Receiving does what sending does.
// Input: bytes. Output: bytes, one for each.
ghost use Rattle.std.specs.Prelude.{◌≡◌};
ghost use Rattle.stage.specs.Model.{new_sending, new_receiving};
ghost use Rattle.dispersal.specs.EnergyDispersal.{energy_dispersal, sending_of, receiving_of, combined, onward};
ghost use Rattle.dispersal.specs.Restoring.{dispersal_rule};
ghost use Rattle.stage.proofs.Machine.{gives_sends};
ghost use Rattle.stage.specs.Faultless.{clean_hears};

use crate::side::Side;
use refusal::Refusal;
use stage::{Fault, Stage};

#[derive(Drop)]
pub struct EnergyDispersal {
    leaving: Side,
    arriving: Side,
}

impl EnergyDispersal {
    pub fn new() -> EnergyDispersal
        ensures sends { sending_of result ≡ new_sending energy_dispersal }
        ensures hears { receiving_of result ≡ new_receiving energy_dispersal }
    {
        EnergyDispersal {
            leaving: Side::new(),
            arriving: Side::new(),
        }
    }
}

impl Stage for EnergyDispersal {
    ghost model = { λ _. energy_dispersal };

    ghost sending = { sending_of };

    ghost receiving = { receiving_of };

    ghost rule = { λ s. dispersal_rule };

    ghost sends = { λ s. gives_sends combined onward _ };

    ghost hears = { λ s. clean_hears (gives_sends combined onward s.arriving.noise.place) };

    fn taken(&self) -> u16 {
        256
    }

    fn given(&self) -> u16 {
        256
    }

    fn size(&self) -> u32 {
        1
    }

    fn hold(&self, m: u32) -> u32 {
        m
    }

    fn send_waits(&mut self) -> bool {
        self.leaving.waits()
    }

    fn receive_waits(&mut self) -> bool {
        self.arriving.waits()
    }

    fn renew(&mut self) {
        *self = EnergyDispersal::new();
    }

    fn send_offer(&mut self, unit: u8) -> Result<(), Refusal> {
        self.leaving.offer(unit)
    }

    fn send_take(&mut self) -> Option<u8> {
        self.leaving.take()
    }

    fn receive_offer(&mut self, unit: u8) -> Result<(), Refusal> {
        self.arriving.offer(unit)
    }

    fn receive_take(&mut self) -> Result<Option<u8>, Fault> {
        Ok(self.arriving.take())
    }
}
