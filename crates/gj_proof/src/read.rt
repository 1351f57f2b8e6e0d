//! Proof texts, read.

ghost use Rattle.std.specs.Prelude.{◌≡◌, [], IfOk, IfErr, MatchResult};
ghost use Rattle.gj_lex.specs.Words.{word_texts};
ghost use Rattle.gj_forms.specs.Parts.{IsFaultOf, IsReading};
ghost use Rattle.gj_forms.specs.LineForms.{AreLine, BreaksForm};
ghost use Rattle.gj_proof.specs.ProofText.{IsBounded, IsProofText, extreme_claim};
ghost use Rattle.gj_proof.specs.ProofGrammar.{title_form, claim_form, form_part, claim_part};
ghost use Rattle.gj_proof.specs.ProofGrammar.{extreme_part, proof_text};
ghost use Rattle.gj_proof.specs.FirstFault.{NamesFirstFault, IsMemoryFault};
ghost use Rattle.gj_proof.specs.declared.claim.Claim.{Claim};
ghost use Rattle.gj_proof.specs.declared.claim.ClaimWord.TheVariants.{Minimal, NotMinimal, Cut};
ghost use Rattle.gj_proof.specs.declared.claim.ClaimWord.TheVariants.{NotExtreme};

use crate::claim::{Claim, ClaimWord, Proof};
use crate::cover_lines::cover_lines_at;
use crate::cut_rows::{rows_at, rule_at};
use crate::faults::ProofFault;
use crate::halves::halves_at;
use crate::modulus::modulus_at;
use crate::numbers::Numbers;
use crate::pivot::PivotRow;
use crate::pivot_rows::groups_at;
use crate::violations::violation_at;
use gj_forms::{PartFault, end_at, field_of, has_words, line_at, line_number, words_at};
use gj_function_lines::function_at;
use gj_lex::{Reason, Spelling};
use gj_shape::{CoverLine, List, Shape};
use std::alloc::Global;

/// The proof that the bytes spell, all of them.
///
/// `Refused` has the line and the reason of the first fault, and comes exactly if the bytes are
/// no proof text.
///
/// ```rust
/// let text = b"gj-proof 1\nclaim minimal\norder 2\nf 1/2\npoint 0\npoint 1\nend\n";
/// let proof = read_proof(alloc, text)?; // proof.claim() is Claim::Minimal(..)
/// let fault = read_proof(alloc, b"gj-proof 1\nclaim maximal\n");
/// // fault is Err(ProofFault::Refused(2, Reason::Form))
/// ```
pub fn read_proof(alloc: Global, bytes: &[u8]) -> Result<Proof, ProofFault>
    // What is read is spelled so.
    ensures found { IfOk result (λ p. IsBounded p × IsProofText p bytes.now) }
    // What is spelled so is read, unless there is no memory.
    ensures only { (c : Claim) → IsBounded c → IsProofText c bytes.now →
        MatchResult result (λ p. p ≡ c) IsMemoryFault }
    // A refusal names the first fault.
    ensures refused { IfErr result (NamesFirstFault bytes.now) }
{
    match proof_at(alloc, bytes) {
        Ok(proof) => Ok(proof),
        Err(PartFault::Refused(left, reason)) => {
            Err(ProofFault::Refused(line_number(bytes, left), reason))
        }
        Err(PartFault::Memory(error)) => Err(ProofFault::Memory(error)),
    }
}

/// The proof that the bytes spell.
fn proof_at(alloc: Global, text: &[u8]) -> Result<Proof, PartFault>
    ensures found { IfOk result (λ p. proof_text.Reads text.now p []) }
    ensures fault { IfErr result (IsFaultOf proof_text text.now) }
{
    let (numbers, rest) = numbers_at(text)?;
    let (word, rest) = claim_word_at(rest, numbers)?;
    let (claim, rest) = claim_at(alloc, rest, word)?;
    let rest = words_at(Spelling::Strict, rest, b"end")?;
    end_at(Spelling::Strict, rest)?;
    Ok(Proof::of(claim))
}

/// The numbers that the first line of the text tells, and what follows the line.
fn numbers_at(text: &[u8]) -> Result<(Numbers, &[u8]), PartFault>
    ensures { IsReading (form_part title_form) text.now result }
{
    let line = line_at(Spelling::Strict, text)?;
    line.with_rest(numbers_in(line.bytes))
}

/// The numbers that the line tells.
fn numbers_in(line: &[u8]) -> Result<Numbers, Reason>
    ensures found { IfOk result (AreLine title_form (word_texts line.now)) }
    ensures fault { IfErr result (BreaksForm title_form (word_texts line.now)) }
{
    if has_words(line, b"gj-proof 1") {
        return Ok(Numbers::Whole);
    }
    if has_words(line, b"gj-proof 2") {
        return Ok(Numbers::Residues);
    }
    Err(Reason::Form)
}

/// The word of the claim in the first line of what follows the title, and what follows the line.
fn claim_word_at(text: &[u8], numbers: Numbers) -> Result<(ClaimWord, &[u8]), PartFault>
    ensures { IsReading (form_part (claim_form numbers)) text.now result }
{
    let line = line_at(Spelling::Strict, text)?;
    line.with_rest(claim_word_of(line.bytes, numbers))
}

/// The word of the claim in the line, in a text of these numbers.
fn claim_word_of(line: &[u8], numbers: Numbers) -> Result<ClaimWord, Reason>
    ensures found { IfOk result (AreLine (claim_form numbers) (word_texts line.now)) }
    ensures fault { IfErr result (BreaksForm (claim_form numbers) (word_texts line.now)) }
{
    let Some(field) = field_of(line, b"claim") else {
        return Err(Reason::Form);
    };
    for word in ClaimWord::ALL {
        if field == word.word().as_bytes() && word.numbers() == numbers {
            return Ok(word);
        }
    }
    Err(Reason::Form)
}

/// The claim of this word in the lines of its subject and its own, and what follows them.
fn claim_at(alloc: Global, text: &[u8], word: ClaimWord) -> Result<(Claim, &[u8]), PartFault>
    ensures { IsReading (claim_part word) text.now result }
{
    match word {
        ClaimWord::Minimal => minimal_at(alloc, text),
        ClaimWord::NotMinimal => not_minimal_at(alloc, text),
        ClaimWord::Cut => cut_at(alloc, text),
        ClaimWord::Extreme(numbers) => extreme_at(alloc, text, numbers),
        ClaimWord::NotExtreme => not_extreme_at(alloc, text),
    }
}

/// The claim that the function of the next lines is minimal, and what follows them.
fn minimal_at(alloc: Global, text: &[u8]) -> Result<(Claim, &[u8]), PartFault>
    ensures { IsReading (claim_part Minimal) text.now result }
{
    let (shape, rest) = function_at(alloc, Spelling::Strict, text)?;
    Ok((Claim::Minimal(shape), rest))
}

/// The claim that the function of the next lines is not minimal, as the violation behind it shows,
/// and what follows.
fn not_minimal_at(alloc: Global, text: &[u8]) -> Result<(Claim, &[u8]), PartFault>
    ensures { IsReading (claim_part NotMinimal) text.now result }
{
    let (shape, rest) = function_at(alloc, Spelling::Strict, text)?;
    let (violation, rest) = violation_at(rest)?;
    Ok((Claim::NotMinimal(shape, violation), rest))
}

/// The claim about the cuts of the next lines by the rule before them, and what follows.
fn cut_at(alloc: Global, text: &[u8]) -> Result<(Claim, &[u8]), PartFault>
    ensures { IsReading (claim_part Cut) text.now result }
{
    let (rule, rest) = rule_at(alloc, text)?;
    let (rows, rest) = rows_at(alloc, rest)?;
    Ok((Claim::Cut(rule, List::of(rows)), rest))
}

/// The claim that the function of the next lines is extreme, as the lines and the groups behind it
/// show by these numbers, and what follows.
fn extreme_at(alloc: Global, text: &[u8], numbers: Numbers) -> Result<(Claim, &[u8]), PartFault>
    ensures { IsReading (extreme_part numbers) text.now result }
{
    let (shape, rest) = function_at(alloc, Spelling::Strict, text)?;
    let order = shape.order();
    let (lines, rest) = cover_lines_at(alloc, rest, order)?;
    let rest = modulus_at(rest, numbers)?;
    let (rows, rest) = groups_at(alloc, rest, order)?;
    Ok((extreme_claim(numbers, shape, lines, rows), rest))
}

/// The claim that the function is extreme, by these lines and these rows.
fn extreme_claim(
    numbers: Numbers,
    shape: Shape,
    lines: Vec<CoverLine>,
    rows: Vec<PivotRow>,
) -> Claim
    ensures { result ≡ extreme_claim numbers shape lines.items rows.items }
{
    let lines = List::of(lines);
    let rows = List::of(rows);
    match numbers {
        Numbers::Whole => Claim::Extreme(shape, lines, rows),
        Numbers::Residues => Claim::ExtremeByResidues(shape, lines, rows),
    }
}

/// The claim that the function of the next lines is not extreme, as the halves behind it show, and
/// what follows.
fn not_extreme_at(alloc: Global, text: &[u8]) -> Result<(Claim, &[u8]), PartFault>
    ensures { IsReading (claim_part NotExtreme) text.now result }
{
    let (shape, rest) = function_at(alloc, Spelling::Strict, text)?;
    let (halves, rest) = halves_at(alloc, rest)?;
    Ok((Claim::NotExtreme(shape, halves), rest))
}
