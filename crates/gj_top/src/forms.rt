//! The forms of input: each is read whole, or refused with the line that says why.
ghost use Rattle.gj_top.specs.Task.{IsReadingOf, IsRefusedWith};
ghost use Rattle.gj_json.specs.JsonFunction.{IsJsonFunction};
ghost use Rattle.gj_top.specs.Lines.{refused_line};
ghost use Rattle.gj_top.specs.Forms.{IsFunctionInput, SpellsFunction, IsProofOf, IsLimitProofOf};
ghost use Rattle.gj_top.specs.Forms.{RefusesFunctionText, RefusesJson, RefusesFunction};
ghost use Rattle.gj_top.specs.Forms.{RefusesProofText, RefusesLimitProofText};

use crate::lines::{refusal, worded_line};
use crate::reply::Unanswered;
use gj_function_text::{TextFault, read_whole_function};
use gj_json::{JsonFault, read_json};
use gj_lex::Reason;
use gj_limit_proof::{LimitProof, read_limit_proof};
use gj_proof::{Proof, ProofFault, read_proof};
use gj_shape::Shape;
use std::alloc::Global;

/// The function that the input spells: a function text, or with `json` a function in JSON.
pub(crate) fn function_of(alloc: Global, input: &[u8], json: bool) -> Result<Shape, Unanswered>
    ensures { IsReadingOf (SpellsFunction json) (RefusesFunction json) input.now result }
{
    if json {
        json_function_of(alloc, input)
    } else {
        function_text_of(alloc, input)
    }
}

/// The function that the input, a function text, spells.
pub(crate) fn function_text_of(alloc: Global, input: &[u8]) -> Result<Shape, Unanswered>
    ensures { IsReadingOf IsFunctionInput RefusesFunctionText input.now result }
{
    match read_whole_function(alloc, input) {
        Ok(shape) => Ok(shape),
        Err(TextFault::Refused(at_line, reason)) => Err(refused(alloc, at_line, reason)),
        Err(TextFault::Memory(error)) => Err(Unanswered::Memory(error)),
    }
}

/// The function that the input, a JSON text, spells.
fn json_function_of(alloc: Global, input: &[u8]) -> Result<Shape, Unanswered>
    ensures { IsReadingOf IsJsonFunction RefusesJson input.now result }
{
    match read_json(alloc, input) {
        Ok(shape) => Ok(shape),
        Err(JsonFault::Refused(reason)) => {
            let line = worded_line(alloc, b"refused json ", reason.word())?;
            Err(Unanswered::Refused(line))
        }
        Err(JsonFault::Memory(error)) => Err(Unanswered::Memory(error)),
    }
}

/// The proof that the input spells.
pub(crate) fn proof_of(alloc: Global, input: &[u8]) -> Result<Proof, Unanswered>
    ensures { IsReadingOf IsProofOf RefusesProofText input.now result }
{
    match read_proof(alloc, input) {
        Ok(proof) => Ok(proof),
        Err(ProofFault::Refused(at_line, reason)) => Err(refused(alloc, at_line, reason)),
        Err(ProofFault::Memory(error)) => Err(Unanswered::Memory(error)),
    }
}

/// The proof about a function that jumps that the input spells.
pub(crate) fn limit_proof_of(alloc: Global, input: &[u8]) -> Result<LimitProof, Unanswered>
    ensures { IsReadingOf IsLimitProofOf RefusesLimitProofText input.now result }
{
    match read_limit_proof(alloc, input) {
        Ok(proof) => Ok(proof),
        Err(ProofFault::Refused(at_line, reason)) => Err(refused(alloc, at_line, reason)),
        Err(ProofFault::Memory(error)) => Err(Unanswered::Memory(error)),
    }
}

/// The answer to an input that is refused for a line of it.
pub(crate) fn refused(alloc: Global, at_line: u64, reason: Reason) -> Unanswered
    ensures { IsRefusedWith (refused_line at_line reason) result }
{
    match refusal(alloc, at_line, reason) {
        Ok(line) => Unanswered::Refused(line),
        Err(error) => Unanswered::Memory(error),
    }
}
