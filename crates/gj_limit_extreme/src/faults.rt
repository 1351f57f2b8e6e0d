//! Why a function is not decided.
ghost use Rattle.std.specs.Prelude.{◌≡◌};

use gj_elim::ElimFault;
use gj_limit_halves::SplitFault;
use gj_residue::SettleFault;
use std::alloc::AllocError;
use thiserror::Error;

/// Why there is no proof that a function is extreme, and none that it is not.
#[derive(Debug, Drop, Error)]
pub enum LimitDecideFault {
    /// A number of the elimination passes 2^127 - 1 in absolute value and residues do not help, or
    /// one of those behind it passes its bound.
    #[error("a number of the decision is too wide")]
    Wide,
    /// There was no memory.
    #[error("out of memory")]
    Memory(AllocError),
}

impl From<ElimFault> for LimitDecideFault {
    ghost use Rattle.gj_limit_extreme.specs.Faults.{of_elimination};

    ghost from_gives = { λ given fault. fault ≡ of_elimination given };

    fn from(fault: ElimFault) -> LimitDecideFault {
        match fault {
            ElimFault::Wide => LimitDecideFault::Wide,
            ElimFault::Memory(error) => LimitDecideFault::Memory(error),
        }
    }
}

impl From<SplitFault> for LimitDecideFault {
    ghost use Rattle.gj_limit_extreme.specs.Faults.{of_split};

    ghost from_gives = { λ given fault. fault ≡ of_split given };

    fn from(fault: SplitFault) -> LimitDecideFault {
        match fault {
            SplitFault::Wide => LimitDecideFault::Wide,
            SplitFault::Memory(error) => LimitDecideFault::Memory(error),
        }
    }
}

impl From<SettleFault> for LimitDecideFault {
    ghost use Rattle.gj_limit_extreme.specs.Faults.{of_settling};

    ghost from_gives = { λ given fault. fault ≡ of_settling given };

    fn from(fault: SettleFault) -> LimitDecideFault {
        match fault {
            SettleFault::Wide => LimitDecideFault::Wide,
            SettleFault::Memory(error) => LimitDecideFault::Memory(error),
        }
    }
}

impl From<AllocError> for LimitDecideFault {
    ghost use Rattle.gj_limit_extreme.specs.declared.faults.LimitDecideFault.TheVariants.{Memory};

    ghost from_gives = { λ error fault. fault ≡ Memory error };

    fn from(error: AllocError) -> LimitDecideFault {
        LimitDecideFault::Memory(error)
    }
}
