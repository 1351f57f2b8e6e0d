//! The rules on halves, each with the number of its line.
ghost use Rattle.std.specs.Prelude.{◌≡◌, OnOk, IfErr};
ghost use Rattle.gj_limit_proof.specs.declared.claim.LimitClaim.TheVariants as claim;
ghost use Rattle.gj_limit_proof.specs.LimitRules.{MeetsLimitRules};
ghost use Rattle.gj_limit_proof.specs.LimitText.{AreLimitHalvesInBounds};
ghost use Rattle.gj_limit_check.specs.FirstFailure.{IsRejectionOf};
ghost use Rattle.gj_limit_check.specs.HalvesLines.{halves_rule, halves_fault_line};

use gj_check::{CheckFault, CheckRule};
use gj_check_minimal::is_minimal;
use gj_limit_check_halves::{HalvesFailure, failure_in_halves};
use gj_proof::{CLAIM_LINE, line_behind_function, line_of_pair};
use gj_shape::{LimitHalves, Shape};

/// Checks every rule on halves of a function, in the order of the lines of their proof.
pub(crate) fn check_halves(shape: &Shape, halves: &LimitHalves) -> Result<(), CheckFault>
    requires { AreLimitHalvesInBounds halves.now }
    ensures ok { OnOk result (MeetsLimitRules (claim.NotExtreme shape.now halves.now)) }
    ensures fault { IfErr result (IsRejectionOf (claim.NotExtreme shape.now halves.now)) }
{
    if !is_minimal(shape) {
        return Err(CheckFault::Rejected(CLAIM_LINE, CheckRule::Minimal));
    }
    let Some(failure) = failure_in_halves(shape, halves) else {
        return Ok(());
    };
    Err(CheckFault::Rejected(line_of(shape, failure), rule_of(failure)))
}

/// The number of the line of a failure.
fn line_of(shape: &Shape, failure: HalvesFailure) -> u64
    ensures { result ≡ halves_fault_line shape.now failure }
{
    match failure {
        HalvesFailure::Range(index) => line_of_pair(shape, index),
        HalvesFailure::Average(index) => line_of_pair(shape, index),
        _ => line_behind_function(shape),
    }
}

/// The rule that fails.
fn rule_of(failure: HalvesFailure) -> CheckRule
    ensures { result ≡ halves_rule failure }
{
    match failure {
        HalvesFailure::Scale => CheckRule::Scale,
        HalvesFailure::Range(_) => CheckRule::Range,
        HalvesFailure::Average(_) => CheckRule::Average,
        HalvesFailure::First => CheckRule::First,
        HalvesFailure::Second => CheckRule::Second,
        HalvesFailure::Same => CheckRule::Same,
    }
}
