//! Why a row or a cut is not made.
ghost use Rattle.std.specs.Prelude.{◌≡◌, alloc_error};

use gj_frac::Wide;
use std::alloc::{AllocError, AllocFailed};
use thiserror::Error;

/// Why a row or a cut is not made.
#[derive(Debug, Drop, Error)]
pub enum Fault {
    /// A number does not fit 128 bits.
    #[error("a number does not fit 128 bits")]
    Wide,
    /// There was no memory.
    #[error("out of memory")]
    Memory(AllocError),
}

impl From<Wide> for Fault {
    ghost use Rattle.gj_problem.specs.declared.faults.Fault.TheVariants.{Wide as wide};

    ghost from_gives = { λ _ fault. fault ≡ wide };

    fn from(_wide: Wide) -> Fault {
        Fault::Wide
    }
}

impl From<AllocError> for Fault {
    ghost use Rattle.gj_problem.specs.declared.faults.Fault.TheVariants.{Memory};

    ghost from_gives = { λ error fault. fault ≡ Memory error };

    fn from(error: AllocError) -> Fault {
        Fault::Memory(error)
    }
}

impl<T: Drop> From<AllocFailed<T>> for Fault {
    ghost use Rattle.gj_problem.specs.declared.faults.Fault.TheVariants.{Memory};

    ghost from_gives = { λ _ fault. fault ≡ Memory alloc_error };

    fn from(_error: AllocFailed<T>) -> Fault {
        Fault::Memory(AllocError)
    }
}
