//! Why a function has no transform.
ghost use Rattle.std.specs.Prelude.{◌≡◌};
ghost use Rattle.gj_transform.specs.declared.faults.TransformFault.TheVariants.{Memory};

use std::alloc::AllocError;
use thiserror::Error;

/// Why a function has no transform.
#[derive(Clone, Copy, Debug, PartialEq, Eq, Error)]
pub enum TransformFault {
    /// The order of the function of n x passes 1,000.
    #[error("the order passes 1000")]
    OrderLimit,
    /// There is no restriction of this order that has the place of the function.
    #[error("the function has no restriction of this order")]
    BadOrder,
    /// There was no memory.
    #[error("out of memory")]
    Memory(AllocError),
}

impl From<AllocError> for TransformFault {
    ghost from_gives = { λ e f. f ≡ Memory e };

    fn from(error: AllocError) -> TransformFault {
        TransformFault::Memory(error)
    }
}
