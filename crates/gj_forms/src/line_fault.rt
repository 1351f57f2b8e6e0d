//! Why a line of a text is not read.

ghost use Rattle.std.specs.Prelude.{◌≡◌, alloc_error};
ghost use Rattle.gj_forms.specs.declared.line_fault.LineFault.TheVariants.{Memory};

use gj_lex::Reason;
use std::alloc::{AllocError, AllocFailed};

/// Why a line of a text is not read. A `PartFault` also says where the line stands.
#[derive(Debug, Drop)]
pub enum LineFault {
    /// It is refused for this reason.
    Broken(Reason),
    /// There was no memory.
    Memory(AllocError),
}

impl From<AllocError> for LineFault {
    ghost from_gives = { λ e f. f ≡ Memory e };

    fn from(error: AllocError) -> LineFault {
        LineFault::Memory(error)
    }
}

impl<T: Drop> From<AllocFailed<T>> for LineFault {
    ghost from_gives = { λ _ f. f ≡ Memory alloc_error };

    fn from(_error: AllocFailed<T>) -> LineFault {
        LineFault::Memory(AllocError)
    }
}
