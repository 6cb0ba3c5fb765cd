// Why a program ends before its end.
ghost use Rattle.std.specs.Prelude.{◌≡◌, alloc_error};
ghost use Rattle.relay.specs.declared.stop.Stop.TheVariants.{Refused, Failed, Memory};

use refusal::Refusal;
use std::alloc::{AllocError, AllocFailed};
use std::io;
use thiserror::Error;

#[derive(Debug, Drop, Error)]
pub enum Stop {
    #[error("{0}")]
    Refused(Refusal),
    // A text that says what is wrong and what to do.
    #[error("{0}")]
    Wrong(String),
    #[error(transparent)]
    Failed(io::Error),
    #[error("out of memory")]
    Memory(AllocError),
}

// A derived From would state no contract, and the proofs of each `?` need one.
impl From<Refusal> for Stop {
    ghost from_gives = { λ e r. r ≡ Refused e };

    fn from(refusal: Refusal) -> Stop {
        Stop::Refused(refusal)
    }
}

impl From<io::Error> for Stop {
    ghost from_gives = { λ e r. r ≡ Failed e };

    fn from(error: io::Error) -> Stop {
        Stop::Failed(error)
    }
}

impl From<AllocError> for Stop {
    ghost from_gives = { λ e r. r ≡ Memory e };

    fn from(error: AllocError) -> Stop {
        Stop::Memory(error)
    }
}

impl<T: Drop> From<AllocFailed<T>> for Stop {
    ghost from_gives = { λ _ r. r ≡ Memory alloc_error };

    fn from(failed: AllocFailed<T>) -> Stop {
        Stop::Memory(AllocError::from(failed))
    }
}
