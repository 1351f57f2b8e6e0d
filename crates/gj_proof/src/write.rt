//! Proof texts, printed.

ghost use Rattle.std.specs.Prelude.{◌≡◌, ◌++◌, ℕ, List, IfOk, OnOk};
ghost use Rattle.gj_forms.specs.LineForms.{bytes_of};
ghost use Rattle.gj_proof.specs.ProofText.{subject_of, numbers_of, AreSubjectLines, title_fields};
ghost use Rattle.gj_proof.specs.ProofText.{claim_fields, claim_word, violation_line, own_text};
ghost use Rattle.gj_proof.specs.ProofText.{HasText, IsProofText};

use crate::claim::{Claim, Proof};
use crate::numbers::Numbers;
use crate::write_cuts::{push_rows, push_rule_lines};
use crate::write_extreme::{push_extreme_lines, push_halves};
use gj_function_lines::{push_fraction_line, push_function_lines};
use gj_lex::print_frac;
use gj_shape::Violation;
use std::alloc::{AllocError, Global};

/// The one text of the proof.
pub fn write_proof(alloc: Global, proof: &Proof) -> Result<Vec<u8>, AllocError>
    ensures { IfOk result (λ text. IsProofText proof.now text.items) }
{
    let claim = proof.claim();
    let mut text = start_text(alloc, claim)?;
    push_subject(alloc, &mut text, claim)?;
    push_own_lines(alloc, &mut text, claim)?;
    text.extend_from_slice(b"end\n")?;
    Ok(text)
}

/// The first two lines of a proof text: its title and the word of its claim.
fn start_text(alloc: Global, claim: &Claim) -> Result<Vec<u8>, AllocError>
    ensures { IfOk result (λ text. text.items
        ≡ bytes_of (title_fields (numbers_of claim.now)) ++ bytes_of
        (claim_fields (claim_word claim.now))) }
{
    let mut text = Vec::new(alloc);
    text.extend_from_slice(title(claim.numbers()))?;
    text.extend_from_slice(b"claim ")?;
    text.extend_from_slice(claim.word().as_bytes())?;
    text.push(b'\n')?;
    Ok(text)
}

/// Appends the lines of the subject of a claim: those of its function, or of its rule.
fn push_subject(alloc: Global, out: &mut Vec<u8>, claim: &Claim) -> Result<(), AllocError>
    ensures { OnOk result ((lines : List ℕ) × AreSubjectLines (subject_of claim.now) lines
        × (out.new.items ≡ out.old.items ++ lines)) }
{
    match claim {
        Claim::Minimal(shape)
        | Claim::NotMinimal(shape, _)
        | Claim::Extreme(shape, _, _)
        | Claim::ExtremeByResidues(shape, _, _)
        | Claim::NotExtreme(shape, _) => push_function_lines(alloc, out, shape),
        Claim::Cut(rule, _) => push_rule_lines(alloc, out, rule),
    }
}

/// Appends the lines of a claim's own, between those of its subject and the last.
fn push_own_lines(alloc: Global, out: &mut Vec<u8>, claim: &Claim) -> Result<(), AllocError>
    requires { HasText claim.now }
    ensures { OnOk result (out.new.items ≡ out.old.items ++ own_text claim.now) }
{
    match claim {
        Claim::Minimal(_) => Ok(()),
        Claim::NotMinimal(_, violation) => push_violation_line(alloc, out, *violation),
        Claim::Cut(_, rows) => push_rows(out, rows.as_slice()),
        Claim::Extreme(_, lines, rows) => push_extreme_lines(
            out,
            Numbers::Whole,
            lines.as_slice(),
            rows.as_slice(),
        ),
        Claim::ExtremeByResidues(_, lines, rows) => push_extreme_lines(
            out,
            Numbers::Residues,
            lines.as_slice(),
            rows.as_slice(),
        ),
        Claim::NotExtreme(_, halves) => push_halves(out, halves),
    }
}

/// The first line of a proof text.
fn title(numbers: Numbers) -> &'static [u8]
    ensures { result.now ≡ bytes_of (title_fields numbers) }
{
    match numbers {
        Numbers::Whole => b"gj-proof 1\n",
        Numbers::Residues => b"gj-proof 2\n",
    }
}

/// Appends the line of a violation. An error says that memory ran out; `out` may then have a part
/// of it.
pub fn push_violation_line(
    alloc: Global,
    out: &mut Vec<u8>,
    violation: Violation,
) -> Result<(), AllocError>
    ensures { OnOk result (out.new.items ≡ out.old.items ++ violation_line violation) }
{
    match violation {
        Violation::Zero => out.extend_from_slice(b"zero\n"),
        Violation::Negative(x) => push_fraction_line(alloc, out, b"negative ", x),
        Violation::Asymmetric(x) => push_fraction_line(alloc, out, b"asymmetric ", x),
        Violation::Superadditive(x, y) => {
            out.extend_from_slice(b"superadditive ")?;
            print_frac(alloc, out, x)?;
            out.push(b' ')?;
            print_frac(alloc, out, y)?;
            out.push(b'\n')?;
            Ok(())
        }
    }
}
