//! The check of a proof.
ghost use Rattle.std.specs.Prelude.{◌≡◌, OnOk, IfErr, MatchResult};
ghost use Rattle.gj_proof.specs.Meaning.{ClaimHolds};
ghost use Rattle.gj_proof.specs.ProofText.{IsBounded};
ghost use Rattle.gj_proof.specs.Rules.{MeetsRules};
ghost use Rattle.gj_check.specs.FirstFailure.{IsCheckFaultOf, IsWantOfMemory};

use crate::cuts::check_cuts;
use crate::extremality::check_extreme;
use crate::faults::CheckFault;
use crate::halves::check_halves;
use crate::points::is_shown;
use crate::rules::CheckRule;
use gj_check_minimal::is_minimal;
use gj_proof::{CLAIM_LINE, Claim, Numbers, Proof, line_behind_function};
use std::alloc::Global;

/// Checks every rule on a proof, in the order of its lines.
///
/// Ok exactly if every rule holds; else the line and the rule of the first that fails. `Memory` may
/// come in place of either if the claim is about cuts, or says that a function is extreme or not
/// extreme, and never for another claim, whose check takes no memory. It says that memory ran out,
/// or that a line of the proof has a number from 2^64 on, so that its text fits no memory.
///
/// ```rust
/// let proof = read_proof(alloc, text)?;
/// check(alloc, &proof)?; // Ok(()): what proof.claim() says is true
/// ```
pub fn check(alloc: Global, proof: &Proof) -> Result<(), CheckFault>
    // If it answers Ok, every rule holds.
    ensures ok { OnOk result (MeetsRules proof.now) }
    // So what the claim says is true. A claim that was read is bounded.
    ensures holds { IsBounded proof.now → OnOk result (ClaimHolds proof.now) }
    // If every rule holds, it answers Ok, unless there is no memory.
    ensures only { MeetsRules proof.now → MatchResult result (λ _. Unit {0})
        (IsWantOfMemory proof.now) }
    // If it rejects, this is the first rule that fails.
    ensures fault { IfErr result (IsCheckFaultOf proof.now) }
{
    match proof.claim() {
        Claim::Minimal(shape) => {
            if !is_minimal(shape) {
                return Err(CheckFault::Rejected(CLAIM_LINE, CheckRule::Minimal));
            }
        }
        Claim::NotMinimal(shape, violation) => {
            if !is_shown(shape, *violation) {
                let line = line_behind_function(shape);
                return Err(CheckFault::Rejected(line, CheckRule::Point));
            }
        }
        Claim::Cut(rule, rows) => return check_cuts(alloc, rule, rows.as_slice()),
        Claim::Extreme(shape, lines, rows) => {
            return check_extreme(
                alloc,
                Numbers::Whole,
                shape,
                lines.as_slice(),
                rows.as_slice(),
            );
        }
        Claim::ExtremeByResidues(shape, lines, rows) => {
            return check_extreme(
                alloc,
                Numbers::Residues,
                shape,
                lines.as_slice(),
                rows.as_slice(),
            );
        }
        Claim::NotExtreme(shape, halves) => return check_halves(alloc, shape, halves),
    }
    Ok(())
}
