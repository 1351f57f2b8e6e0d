//! The names that a text has told.
ghost use Rattle.std.specs.Prelude.{◌≡◌, IfOk};

use gj_forms::{LineFault, name_of};
use gj_lex::Name;
use gj_problem_text::Places;
use std::alloc::{AllocError, Global};

/// The names that lines may use, and whether drafts are read.
#[derive(Drop)]
pub(crate) struct Names<'a> {
    /// The names of the columns.
    pub columns: Places<'a>,
    /// The names of the constraints and of the earlier steps.
    pub lines: Places<'a>,
    /// Whether steps may lack claims.
    pub drafts: bool,
}

/// An equal name, made by the one call that makes the names of texts: a second one would keep that
/// from standing in line where names are read.
pub fn copied_name(alloc: Global, name: &Name) -> Result<Name, AllocError>
    ensures { IfOk result (λ copy. copy ≡ name.now) }
{
    match name_of(alloc, name.bytes()) {
        Ok(copy) => Ok(copy),
        Err(LineFault::Memory(error)) => Err(error),
        Err(LineFault::Broken(_)) => unreachable!(),
    }
}
