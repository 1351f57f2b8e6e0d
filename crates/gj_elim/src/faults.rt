//! Why an elimination gives no answer.
ghost use Rattle.std.specs.Prelude.{◌≡◌};

use gj_frac::Wide;
use std::alloc::AllocError;
use thiserror::Error;

/// Why a row is not inserted, or the kept rows are not solved.
#[derive(Debug, Drop, Error)]
pub enum ElimFault {
    /// A number on the way passes 2^127 - 1 in absolute value.
    #[error("a number passes 127 bits")]
    Wide,
    /// There was no memory.
    #[error("out of memory")]
    Memory(AllocError),
}

impl From<Wide> for ElimFault {
    ghost use Rattle.gj_elim.specs.declared.faults.ElimFault.TheVariants.{Wide as wide};

    ghost from_gives = { λ _ fault. fault ≡ wide };

    fn from(_wide: Wide) -> ElimFault {
        ElimFault::Wide
    }
}

impl From<AllocError> for ElimFault {
    ghost use Rattle.gj_elim.specs.declared.faults.ElimFault.TheVariants.{Memory};

    ghost from_gives = { λ error fault. fault ≡ Memory error };

    fn from(error: AllocError) -> ElimFault {
        ElimFault::Memory(error)
    }
}
