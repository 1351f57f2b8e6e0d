//! Proof texts, as they are or reported in JSON.
ghost use Rattle.std.specs.Prelude.{◌≡◌, IfOk};
ghost use Rattle.gj_proof.specs.ProofText.{IsBounded, IsProofText};
ghost use Rattle.gj_limit_proof.specs.LimitText.{IsBounded as IsLimitBounded, IsLimitProofText};
ghost use Rattle.gj_top.specs.Report.{limit_claims, Tells, TellsBy};

use gj_json::report;
use gj_limit_proof::LimitProof;
use gj_proof::{Proof, write_proof};
use std::alloc::{AllocError, Global};

/// The text of the proof, or with `json` its report: the word of its claim, and the lines of its
/// text.
pub(crate) fn proof_text(alloc: Global, proof: &Proof, json: bool) -> Result<Vec<u8>, AllocError>
    requires { IsBounded proof.now }
    ensures { IfOk result (λ text. Tells json (IsProofText proof.now) text.items) }
{
    let written = write_proof(alloc, proof)?;
    if json {
        report(alloc, proof.claim().word(), written.as_slice())
    } else {
        Ok(written)
    }
}

/// The text of the proof about a function that jumps, as it was written, or with `json` its report.
pub(crate) fn limit_proof_text(
    alloc: Global,
    proof: &LimitProof,
    written: Vec<u8>,
    json: bool,
) -> Result<Vec<u8>, AllocError>
    requires bounded { IsLimitBounded proof.now }
    requires spelled { IsLimitProofText proof.now written.items }
    ensures { IfOk result (λ text. TellsBy limit_claims json (λ told. told ≡ written.items)
        text.items) }
{
    if json {
        report(alloc, proof.claim().word(), written.as_slice())
    } else {
        Ok(written)
    }
}
