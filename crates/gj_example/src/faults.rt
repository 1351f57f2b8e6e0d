//! Why there is no proof text.
ghost use Rattle.std.specs.Prelude.{◌≡◌};

use gj_check::CheckFault;
use gj_extreme::DecideFault;
use std::alloc::AllocError;
use thiserror::Error;

/// Why there is no proof text.
#[derive(Debug, Drop, Error)]
pub enum UseFault {
    /// The function is not decided.
    #[error("the function is not decided")]
    Undecided(DecideFault),
    /// The checker does not accept the proof.
    #[error("the proof is not accepted")]
    Unaccepted(CheckFault),
    /// There was no memory.
    #[error("out of memory")]
    Memory(AllocError),
}

impl From<DecideFault> for UseFault {
    ghost use Rattle.gj_example.specs.declared.faults.UseFault.TheVariants.{Undecided};

    ghost from_gives = { λ given fault. fault ≡ Undecided given };

    fn from(fault: DecideFault) -> UseFault {
        UseFault::Undecided(fault)
    }
}

impl From<CheckFault> for UseFault {
    ghost use Rattle.gj_example.specs.declared.faults.UseFault.TheVariants.{Unaccepted};

    ghost from_gives = { λ given fault. fault ≡ Unaccepted given };

    fn from(fault: CheckFault) -> UseFault {
        UseFault::Unaccepted(fault)
    }
}

impl From<AllocError> for UseFault {
    ghost use Rattle.gj_example.specs.declared.faults.UseFault.TheVariants.{Memory};

    ghost from_gives = { λ given fault. fault ≡ Memory given };

    fn from(error: AllocError) -> UseFault {
        UseFault::Memory(error)
    }
}
