//! The check of a proof.
ghost use Rattle.std.specs.Prelude.{OnOk, IfErr, MatchResult};
ghost use Rattle.gj_limit_proof.specs.LimitMeaning.{LimitClaimHolds};
ghost use Rattle.gj_limit_proof.specs.LimitRules.{MeetsLimitRules};
ghost use Rattle.gj_limit_proof.specs.LimitText.{IsBounded};
ghost use Rattle.gj_limit_check.specs.FirstFailure.{IsLimitFaultOf, IsWantOfLimitMemory};

use crate::extremality::check_extreme;
use crate::halves::check_halves;
use gj_check::CheckFault;
use gj_limit_proof::{LimitClaim, LimitProof};
use std::alloc::Global;

/// Checks every rule on a proof about a function that may jump, in the order of its lines.
///
/// Ok exactly if every rule holds; else the line and the rule of the first that fails. `Memory` may
/// come in place of either if the claim is that a function is extreme, and never for another, whose
/// check takes no memory. It says that memory ran out, or that a line of the proof has a number
/// from 2^64 on, so that its text fits no memory.
pub fn check_limit_proof(alloc: Global, proof: &LimitProof) -> Result<(), CheckFault>
    // If it answers Ok, every rule holds.
    ensures ok { OnOk result (MeetsLimitRules proof.now) }
    // So what the claim says is true. A claim that was read is bounded.
    ensures holds { IsBounded proof.now → OnOk result (LimitClaimHolds proof.now) }
    // If every rule holds, it answers Ok, unless there is no memory.
    ensures only { MeetsLimitRules proof.now → MatchResult result (λ _. Unit {0})
        (IsWantOfLimitMemory proof.now) }
    // If it rejects, this is the first rule that fails.
    ensures fault { IfErr result (IsLimitFaultOf proof.now) }
{
    match proof.claim() {
        LimitClaim::Extreme(numbers, shape, lines, rows) => {
            check_extreme(alloc, *numbers, shape, lines.as_slice(), rows.as_slice())
        }
        LimitClaim::NotExtreme(shape, halves) => check_halves(shape, halves),
    }
}
