//! Why there are no halves.
ghost use Rattle.std.specs.Prelude.{◌≡◌};

use std::alloc::{AllocError, AllocFailed};
use thiserror::Error;

/// Why there is no perturbation of these slopes, or why there are no halves.
#[derive(Debug, Drop, Error)]
pub enum SplitFault {
    /// A sum of slopes passes 2^127 - 1 in absolute value, or the scale of the halves passes 2^124.
    #[error("a number of the halves is too wide")]
    Wide,
    /// There was no memory.
    #[error("out of memory")]
    Memory(AllocError),
}

impl From<AllocError> for SplitFault {
    ghost use Rattle.gj_perturb.specs.declared.faults.SplitFault.TheVariants.{Memory};

    ghost from_gives = { λ error fault. fault ≡ Memory error };

    fn from(error: AllocError) -> SplitFault {
        SplitFault::Memory(error)
    }
}

impl<T: Drop> From<AllocFailed<T>> for SplitFault {
    ghost use Rattle.std.specs.Prelude.{alloc_error};
    ghost use Rattle.gj_perturb.specs.declared.faults.SplitFault.TheVariants.{Memory};

    ghost from_gives = { λ _ fault. fault ≡ Memory alloc_error };

    fn from(_error: AllocFailed<T>) -> SplitFault {
        SplitFault::Memory(AllocError)
    }
}
