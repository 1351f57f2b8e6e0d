//! Why a function has no fill-in.
ghost use Rattle.std.specs.Prelude.{◌≡◌};
ghost use Rattle.gj_fill.specs.declared.faults.FillFault.TheVariants.{Memory};

use std::alloc::{AllocError, AllocFailed};
use thiserror::Error;

/// Why a function has no fill-in.
#[derive(Clone, Copy, Debug, PartialEq, Eq, Error)]
pub enum FillFault {
    /// The values at a/q and b/q add up to less than that at (a + b)/q, first for these a and b, a
    /// ascending, inside it b.
    #[error("the function is not subadditive at {0}/q and {1}/q")]
    NotSubadditive(u32, u32),
    /// There was no memory.
    #[error("out of memory")]
    Memory(AllocError),
}

impl From<AllocError> for FillFault {
    ghost from_gives = { λ e f. f ≡ Memory e };

    fn from(error: AllocError) -> FillFault {
        FillFault::Memory(error)
    }
}

impl<T: Drop> From<AllocFailed<T>> for FillFault {
    ghost use Rattle.std.specs.Prelude.{alloc_error};

    ghost from_gives = { λ _ f. f ≡ Memory alloc_error };

    fn from(_error: AllocFailed<T>) -> FillFault {
        FillFault::Memory(AllocError)
    }
}
