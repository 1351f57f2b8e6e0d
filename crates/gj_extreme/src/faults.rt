//! Why a function is not decided.
ghost use Rattle.std.specs.Prelude.{◌≡◌};

use gj_elim::ElimFault;
use gj_perturb::SplitFault;
use gj_residue::SettleFault;
use std::alloc::AllocError;
use thiserror::Error;

/// Why there is no proof that a function is extreme, and none that it is not.
#[derive(Debug, Drop, Error)]
pub enum DecideFault {
    /// The function is minimal and not continuous: it jumps at i/q, and at no multiple of 1/q
    /// before.
    #[error("the function jumps at the index {0}")]
    NotContinuous(u32),
    /// A number of the elimination passes 2^127 - 1 in absolute value and residues do not help, or
    /// one of those behind it passes its bound.
    #[error("a number of the decision is too wide")]
    Wide,
    /// There was no memory.
    #[error("out of memory")]
    Memory(AllocError),
}

impl From<ElimFault> for DecideFault {
    ghost use Rattle.gj_extreme.specs.Faults.{of_elimination};

    ghost from_gives = { λ given fault. fault ≡ of_elimination given };

    fn from(fault: ElimFault) -> DecideFault {
        match fault {
            ElimFault::Wide => DecideFault::Wide,
            ElimFault::Memory(error) => DecideFault::Memory(error),
        }
    }
}

impl From<SplitFault> for DecideFault {
    ghost use Rattle.gj_extreme.specs.Faults.{of_split};

    ghost from_gives = { λ given fault. fault ≡ of_split given };

    fn from(fault: SplitFault) -> DecideFault {
        match fault {
            SplitFault::Wide => DecideFault::Wide,
            SplitFault::Memory(error) => DecideFault::Memory(error),
        }
    }
}

impl From<SettleFault> for DecideFault {
    ghost use Rattle.gj_extreme.specs.Faults.{of_settling};

    ghost from_gives = { λ given fault. fault ≡ of_settling given };

    fn from(fault: SettleFault) -> DecideFault {
        match fault {
            SettleFault::Wide => DecideFault::Wide,
            SettleFault::Memory(error) => DecideFault::Memory(error),
        }
    }
}

impl From<AllocError> for DecideFault {
    ghost use Rattle.gj_extreme.specs.declared.faults.DecideFault.TheVariants.{Memory};

    ghost from_gives = { λ error fault. fault ≡ Memory error };

    fn from(error: AllocError) -> DecideFault {
        DecideFault::Memory(error)
    }
}
