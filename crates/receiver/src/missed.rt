// Why no packet was collected: a refusal, or a fault that waits.
ghost use Rattle.std.specs.Prelude.{◌≡◌};
ghost use Rattle.receiver.specs.declared.missed.Missed.TheVariants.{Refused, Failed};

use refusal::Refusal;
use stage::Fault;

#[derive(Clone, Copy, PartialEq, Eq, Debug)]
pub enum Missed {
    Refused(Refusal),
    Failed(Fault),
}

// A derived From would state no contract, and the proofs of each `?` need one.
impl From<Refusal> for Missed {
    ghost from_gives = { λ e r. r ≡ Refused e };

    fn from(refusal: Refusal) -> Missed {
        Missed::Refused(refusal)
    }
}

impl From<Fault> for Missed {
    ghost from_gives = { λ e r. r ≡ Failed e };

    fn from(fault: Fault) -> Missed {
        Missed::Failed(fault)
    }
}
