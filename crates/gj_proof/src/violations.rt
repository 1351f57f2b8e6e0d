//! The line of a violation, read.

ghost use Rattle.std.specs.Prelude.{IfOk, IfErr};
ghost use Rattle.gj_lex.specs.Words.{word_texts};
ghost use Rattle.gj_forms.specs.Parts.{IsReading};
ghost use Rattle.gj_forms.specs.LineForms.{AreLine, BreaksForm};
ghost use Rattle.gj_proof.specs.ProofGrammar.{violation_form, form_part};

use crate::fields::number_of;
use gj_forms::{PartFault, field_of, has_words, line_at, two_fields_of};
use gj_lex::{Reason, Spelling};
use gj_shape::Violation;

/// The violation in the first line of the text, and what follows the line. It takes no memory.
pub(crate) fn violation_at(text: &[u8]) -> Result<(Violation, &[u8]), PartFault>
    ensures { IsReading (form_part violation_form) text.now result }
{
    let line = line_at(Spelling::Strict, text)?;
    line.with_rest(violation_of(line.bytes))
}

/// The violation of the line.
fn violation_of(line: &[u8]) -> Result<Violation, Reason>
    ensures found { IfOk result (AreLine violation_form (word_texts line.now)) }
    ensures fault { IfErr result (BreaksForm violation_form (word_texts line.now)) }
{
    if has_words(line, b"zero") {
        return Ok(Violation::Zero);
    }
    if let Some(word) = field_of(line, b"negative") {
        return Ok(Violation::Negative(number_of(word)?));
    }
    if let Some(word) = field_of(line, b"asymmetric") {
        return Ok(Violation::Asymmetric(number_of(word)?));
    }
    if let Some((first, second)) = two_fields_of(line, b"superadditive") {
        let x = number_of(first)?;
        let y = number_of(second)?;
        return Ok(Violation::Superadditive(x, y));
    }
    Err(Reason::Form)
}
