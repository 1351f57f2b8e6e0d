//! Why a proof is not accepted.
ghost use Rattle.std.specs.Prelude.{◌≡◌};
ghost use Rattle.gj_check.specs.declared.faults.CheckFault.TheVariants.{Memory};

use crate::rules::CheckRule;
use std::alloc::AllocError;
use thiserror::Error;

/// Why `check` does not accept a proof.
#[derive(Clone, Copy, Debug, PartialEq, Eq, Error)]
pub enum CheckFault {
    /// The line at which the first rule fails, counted from 1, and the rule.
    #[error("a rule fails at line {0}")]
    Rejected(u64, CheckRule),
    /// There was no memory.
    #[error("out of memory")]
    Memory(AllocError),
}

impl From<AllocError> for CheckFault {
    ghost from_gives = { λ error fault. fault ≡ Memory error };

    fn from(error: AllocError) -> CheckFault {
        CheckFault::Memory(error)
    }
}
