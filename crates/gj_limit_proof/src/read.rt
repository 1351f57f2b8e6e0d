//! Proof texts about functions that jump, read.

ghost use Rattle.std.specs.Prelude.{◌≡◌, [], IfOk, IfErr, MatchResult};
ghost use Rattle.gj_forms.specs.Parts.{IsFaultOf, IsPassing, IsReading};
ghost use Rattle.gj_proof.specs.FirstFault.{IsMemoryFault};
ghost use Rattle.gj_proof.specs.ProofGrammar.{form_part};
ghost use Rattle.gj_limit_proof.specs.FirstFault.{NamesFirstFault};
ghost use Rattle.gj_limit_proof.specs.LimitText.{IsBounded, IsLimitProofText};
ghost use Rattle.gj_limit_proof.specs.LimitGrammar.{title_form, numbers_part, extreme_part};
ghost use Rattle.gj_limit_proof.specs.LimitGrammar.{not_extreme_part, claim_part};
ghost use Rattle.gj_limit_proof.specs.LimitGrammar.{limit_proof_text};
ghost use Rattle.gj_limit_proof.specs.declared.claim.LimitClaim.{LimitClaim};

use crate::claim::{LimitClaim, LimitProof};
use crate::groups::groups_at;
use crate::pairs::limit_halves_at;
use gj_forms::{
    PartFault, begins_with_line, begins_with_word, end_at, has_words, line_at, line_number,
    words_at,
};
use gj_function_lines::function_at;
use gj_lex::{Reason, Spelling};
use gj_proof::{Numbers, ProofFault, behind_modulus, cover_lines_at};
use gj_shape::List;
use std::alloc::Global;

/// The proof that the bytes spell, all of them.
///
/// `Refused` has the line and the reason of the first fault, and comes exactly if the bytes are
/// no proof text about a function that jumps.
pub fn read_limit_proof(alloc: Global, bytes: &[u8]) -> Result<LimitProof, ProofFault>
    // What is read is spelled so.
    ensures found { IfOk result (λ p. IsBounded p × IsLimitProofText p bytes.now) }
    // What is spelled so is read, unless there is no memory.
    ensures only { (c : LimitClaim) → IsBounded c → IsLimitProofText c bytes.now →
        MatchResult result (λ p. p ≡ c) IsMemoryFault }
    // A refusal names the first fault.
    ensures refused { IfErr result (NamesFirstFault bytes.now) }
{
    match proof_at(alloc, bytes) {
        Ok(proof) => Ok(proof),
        Err(PartFault::Refused(left, reason)) => {
            Err(ProofFault::Refused(line_number(bytes, left), reason))
        }
        Err(PartFault::Memory(error)) => Err(ProofFault::Memory(error)),
    }
}

/// The proof that the bytes spell.
fn proof_at(alloc: Global, text: &[u8]) -> Result<LimitProof, PartFault>
    ensures found { IfOk result (λ p. limit_proof_text.Reads text.now p []) }
    ensures fault { IfErr result (IsFaultOf limit_proof_text text.now) }
{
    let rest = behind_title(text)?;
    let (claim, rest) = claim_at(alloc, rest)?;
    let rest = words_at(Spelling::Strict, rest, b"end")?;
    end_at(Spelling::Strict, rest)?;
    Ok(LimitProof::of(claim))
}

/// What follows the first line of the text. It takes no memory.
fn behind_title(text: &[u8]) -> Result<&[u8], PartFault>
    ensures { IsPassing (form_part title_form) text.now result }
{
    let line = line_at(Spelling::Strict, text)?;
    if !has_words(line.bytes, b"gj-proof 3") {
        return Err(PartFault::at(line.start, Reason::Form));
    }
    Ok(line.rest)
}

/// The claim in the line of its word, those of its function and its own, and what follows them.
fn claim_at(alloc: Global, text: &[u8]) -> Result<(LimitClaim, &[u8]), PartFault>
    ensures { IsReading claim_part text.now result }
{
    if begins_with_line(Spelling::Strict, text, b"claim not-extreme") {
        let rest = words_at(Spelling::Strict, text, b"claim not-extreme")?;
        return not_extreme_at(alloc, rest);
    }
    let rest = words_at(Spelling::Strict, text, b"claim extreme")?;
    extreme_at(alloc, rest)
}

/// The claim that the function of the next lines is extreme, as the lines and the groups behind it
/// show, and what follows.
fn extreme_at(alloc: Global, text: &[u8]) -> Result<(LimitClaim, &[u8]), PartFault>
    ensures { IsReading extreme_part text.now result }
{
    let (shape, rest) = function_at(alloc, Spelling::Strict, text)?;
    let order = shape.order();
    let (lines, rest) = cover_lines_at(alloc, rest, order)?;
    let (numbers, rest) = numbers_at(rest)?;
    let (rows, rest) = groups_at(alloc, rest, order)?;
    let claim = LimitClaim::Extreme(numbers, shape, List::of(lines), List::of(rows));
    Ok((claim, rest))
}

/// The numbers of the groups behind it: residues, if the next line tells the modulus, and what
/// follows that line. It takes no memory.
fn numbers_at(text: &[u8]) -> Result<(Numbers, &[u8]), PartFault>
    ensures { IsReading numbers_part text.now result }
{
    if !begins_with_word(Spelling::Strict, text, b"modulus") {
        return Ok((Numbers::Whole, text));
    }
    let rest = behind_modulus(text)?;
    Ok((Numbers::Residues, rest))
}

/// The claim that the function of the next lines is not extreme, as the halves behind it show, and
/// what follows.
fn not_extreme_at(alloc: Global, text: &[u8]) -> Result<(LimitClaim, &[u8]), PartFault>
    ensures { IsReading not_extreme_part text.now result }
{
    let (shape, rest) = function_at(alloc, Spelling::Strict, text)?;
    let (halves, rest) = limit_halves_at(alloc, rest)?;
    Ok((LimitClaim::NotExtreme(shape, halves), rest))
}
