//! Why a table is not decided.
ghost use Rattle.std.specs.Prelude.{◌≡◌};

use gj_perturb::SplitFault;
use gj_residue::SettleFault;
use std::alloc::AllocError;
use thiserror::Error;

/// Why it is not known whether a minimal table is extreme.
#[derive(Debug, Drop, Error)]
pub enum GroupFault {
    /// A number of the elimination or of its kernel passes 2^127 - 1 in absolute value and residues
    /// do not help, or the scale of the halves passes 2^124.
    #[error("a number of the decision is too wide")]
    Wide,
    /// There was no memory.
    #[error("out of memory")]
    Memory(AllocError),
}

impl From<SettleFault> for GroupFault {
    ghost use Rattle.gj_group.specs.Faults.{of_settling};

    ghost from_gives = { λ given fault. fault ≡ of_settling given };

    fn from(fault: SettleFault) -> GroupFault {
        match fault {
            SettleFault::Wide => GroupFault::Wide,
            SettleFault::Memory(error) => GroupFault::Memory(error),
        }
    }
}

impl From<SplitFault> for GroupFault {
    ghost use Rattle.gj_group.specs.Faults.{of_split};

    ghost from_gives = { λ given fault. fault ≡ of_split given };

    fn from(fault: SplitFault) -> GroupFault {
        match fault {
            SplitFault::Wide => GroupFault::Wide,
            SplitFault::Memory(error) => GroupFault::Memory(error),
        }
    }
}

impl From<AllocError> for GroupFault {
    ghost use Rattle.gj_group.specs.declared.faults.GroupFault.TheVariants.{Memory};

    ghost from_gives = { λ error fault. fault ≡ Memory error };

    fn from(error: AllocError) -> GroupFault {
        GroupFault::Memory(error)
    }
}
