// A side of energy dispersal (EN 300 744, clause 4.3.1): each byte that comes is combined, and waits until it is taken.
// Input: bytes. Output: bytes, one for each.
ghost use Rattle.std.specs.Prelude.{◌≡◌, nat_lt};
ghost use Rattle.stage.specs.Model.{answer, offered, some, first, sent, new_sending};
ghost use Rattle.dispersal.specs.EnergyDispersal.{energy_dispersal, side_of};

use crate::noise::Noise;
use refusal::Refusal;

#[derive(Drop)]
pub struct Side {
    pub(crate) noise: Noise,
    pub(crate) waits: Option<u8>,
}

impl Side {
    pub(crate) fn new() -> Side
        ensures { side_of result ≡ new_sending energy_dispersal }
    {
        Side {
            noise: Noise::new(),
            waits: None,
        }
    }

    pub(crate) fn waits(&self) -> bool
        ensures { result ≡ some (side_of self.now).waits }
    {
        self.waits.is_some()
    }

    pub(crate) fn offer(&mut self, unit: u8) -> Result<(), Refusal>
        ensures answers { result ≡ answer (nat_lt unit 256) (some (side_of self.old).waits) }
        ensures side { side_of self.new ≡ offered (nat_lt unit 256) (some (side_of self.old).waits) (side_of self.old) unit }
    {
        if self.waits.is_some() {
            return Err(Refusal::SomethingWaits);
        }
        self.waits = Some(self.noise.pass(unit));
        Ok(())
    }

    pub(crate) fn take(&mut self) -> Option<u8>
        ensures answers { result ≡ first (side_of self.old).waits }
        ensures side { side_of self.new ≡ sent (side_of self.old) }
    {
        self.waits.take()
    }
}
