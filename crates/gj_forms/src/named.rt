//! The name that a word is.

ghost use Rattle.std.specs.Prelude.{◌≡◌, IfOk, IfErr};
ghost use Rattle.gj_forms.specs.LineFaults.{IsRefusedFor};
ghost use Rattle.gj_lex.specs.Name.{IsName};
ghost use Rattle.gj_lex.specs.declared.reason.Reason.TheVariants.{Form};

use crate::line_fault::LineFault;
use gj_lex::{Name, NameFault, Reason};
use std::alloc::Global;

/// The name that a word of a line is.
///
/// `Form` comes exactly if the word is no name, and before any memory is taken.
pub fn name_of(alloc: Global, word: &[u8]) -> Result<Name, LineFault>
    ensures found { IfOk result (λ name. (name ≡ word.now) × IsName word.now) }
    ensures refused { IfErr result (IsRefusedFor (λ e. (e ≡ Form) × ¬ IsName word.now)) }
{
    match Name::new(alloc, word) {
        Ok(name) => Ok(name),
        Err(NameFault::Form) => Err(LineFault::Broken(Reason::Form)),
        Err(NameFault::Memory(error)) => Err(LineFault::Memory(error)),
    }
}
