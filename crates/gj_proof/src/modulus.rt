//! The line of the modulus, read.
ghost use Rattle.std.specs.Prelude.{IfOk, IfErr};
ghost use Rattle.gj_lex.specs.Words.{word_texts};
ghost use Rattle.gj_forms.specs.Parts.{IsPassing};
ghost use Rattle.gj_forms.specs.LineForms.{AreLine, BreaksForm};
ghost use Rattle.gj_proof.specs.ProofGrammar.{modulus_form, form_part, modulus_part};

use crate::fields::whole_of;
use crate::numbers::{MODULUS, Numbers};
use gj_forms::{PartFault, field_of, line_at};
use gj_lex::{Reason, Spelling};

/// What follows the line of the modulus in a text by residues; the text itself in one by whole
/// numbers, which has none. It takes no memory.
pub(crate) fn modulus_at(text: &[u8], numbers: Numbers) -> Result<&[u8], PartFault>
    ensures { IsPassing (modulus_part numbers) text.now result }
{
    match numbers {
        Numbers::Whole => Ok(text),
        Numbers::Residues => behind_modulus(text),
    }
}

/// What follows the line of the modulus, which has to come next. It takes no memory.
pub fn behind_modulus(text: &[u8]) -> Result<&[u8], PartFault>
    ensures { IsPassing (form_part modulus_form) text.now result }
{
    let line = line_at(Spelling::Strict, text)?;
    match test_modulus(line.bytes) {
        Ok(()) => Ok(line.rest),
        Err(reason) => Err(PartFault::at(line.start, reason)),
    }
}

/// Ok if the line tells the modulus.
fn test_modulus(line: &[u8]) -> Result<(), Reason>
    ensures found { IfOk result (λ u. AreLine modulus_form (word_texts line.now) tt) }
    ensures fault { IfErr result (BreaksForm modulus_form (word_texts line.now)) }
{
    let Some(word) = field_of(line, b"modulus") else {
        return Err(Reason::Form);
    };
    match whole_of(word) {
        Some(n) if n == MODULUS => Ok(()),
        _ => Err(Reason::Number),
    }
}
