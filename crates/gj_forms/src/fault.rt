//! Why a part of a text is not read.

ghost use Rattle.std.specs.Prelude.{◌≡◌, length, alloc_error};
ghost use Rattle.gj_forms.specs.declared.fault.PartFault.TheVariants.{Memory};

use gj_lex::Reason;
use std::alloc::{AllocError, AllocFailed};

/// Why a part of a text is not read.
#[derive(Debug, Drop)]
pub enum PartFault {
    /// A line is refused: from it on so many bytes of the text are left.
    Refused(usize, Reason),
    /// There was no memory.
    Memory(AllocError),
}

impl PartFault {
    /// The fault of the line with which the text begins.
    pub fn at(text: &[u8], reason: Reason) -> PartFault
        ensures { result ≡ PartFault.Refused (length text.now) reason }
    {
        PartFault::Refused(text.len(), reason)
    }
}

impl From<AllocError> for PartFault {
    ghost from_gives = { λ e f. f ≡ Memory e };

    fn from(error: AllocError) -> PartFault {
        PartFault::Memory(error)
    }
}

impl<T: Drop> From<AllocFailed<T>> for PartFault {
    ghost from_gives = { λ _ f. f ≡ Memory alloc_error };

    fn from(_error: AllocFailed<T>) -> PartFault {
        PartFault::Memory(AllocError)
    }
}
