//! Proof texts about functions that jump, printed.

ghost use Rattle.std.specs.Prelude.{◌≡◌, ◌++◌, ℕ, List, IfOk, OnOk};
ghost use Rattle.gj_forms.specs.LineForms.{bytes_of};
ghost use Rattle.gj_proof.specs.ProofText.{claim_fields};
ghost use Rattle.gj_limit_proof.specs.LimitText.{title_fields, claim_word, own_text, extreme_text};
ghost use Rattle.gj_limit_proof.specs.LimitText.{HasText, IsLimitProofText};

use crate::claim::{LimitClaim, LimitPivotRow, LimitProof};
use crate::write_groups::push_groups;
use crate::write_pairs::push_limit_halves;
use gj_function_lines::{push_cover_lines, push_function_lines};
use gj_proof::{Numbers, push_modulus};
use gj_shape::CoverLine;
use std::alloc::{AllocError, Global};

/// The one text of the proof.
pub fn write_limit_proof(alloc: Global, proof: &LimitProof) -> Result<Vec<u8>, AllocError>
    ensures { IfOk result (λ text. IsLimitProofText proof.now text.items) }
{
    let claim = proof.claim();
    let mut text = start_text(alloc, claim)?;
    push_function_lines(alloc, &mut text, claim.shape())?;
    push_own_lines(&mut text, claim)?;
    text.extend_from_slice(b"end\n")?;
    Ok(text)
}

/// The first two lines of a proof text: its title and the word of its claim.
fn start_text(alloc: Global, claim: &LimitClaim) -> Result<Vec<u8>, AllocError>
    ensures { IfOk result (λ text. text.items
        ≡ bytes_of title_fields ++ bytes_of (claim_fields (claim_word claim.now))) }
{
    let mut text = Vec::new(alloc);
    text.extend_from_slice(b"gj-proof 3\nclaim ")?;
    text.extend_from_slice(claim.word().as_bytes())?;
    text.push(b'\n')?;
    Ok(text)
}

/// Appends the lines of a claim's own, between those of its function and the last.
fn push_own_lines(out: &mut Vec<u8>, claim: &LimitClaim) -> Result<(), AllocError>
    requires { HasText claim.now }
    ensures { OnOk result (out.new.items ≡ out.old.items ++ own_text claim.now) }
{
    match claim {
        LimitClaim::Extreme(numbers, _, lines, rows) => {
            push_extreme_lines(out, *numbers, lines.as_slice(), rows.as_slice())
        }
        LimitClaim::NotExtreme(_, halves) => push_limit_halves(out, halves),
    }
}

/// Appends the lines of a proof that a function is extreme by rows of these numbers: those of the
/// covered intervals, that of the modulus, and those of the groups.
fn push_extreme_lines(
    out: &mut Vec<u8>,
    numbers: Numbers,
    lines: &[CoverLine],
    rows: &[LimitPivotRow],
) -> Result<(), AllocError>
    ensures { OnOk result (out.new.items ≡ out.old.items ++ extreme_text numbers
        lines.now rows.now) }
{
    push_cover_lines(out, lines)?;
    push_modulus(out, numbers)?;
    push_groups(out, rows)
}
