//! The check of claims about cuts.
ghost use Rattle.std.specs.Prelude.{◌↔◌, IsTrue, OnOk, IfErr};
ghost use Rattle.gj_shape.specs.FirstViolation.{PassesAll};
ghost use Rattle.gj_proof.specs.declared.claim.Claim.TheVariants as claim;
ghost use Rattle.gj_proof.specs.ProofText.{IfFunction, subject_of_rule};
ghost use Rattle.gj_proof.specs.Rules.{MeetsRules};
ghost use Rattle.gj_check.specs.FirstFailure.{IsCheckFaultOf};

use crate::cut_rows::{failure_in_row, known_behind};
use crate::faults::CheckFault;
use crate::rules::CheckRule;
use gj_check_minimal::is_minimal;
use gj_proof::{
    CLAIM_LINE, CutLine, CutRule, CutTerm, line_behind_row, line_behind_rule, line_below,
};
use std::alloc::Global;

/// Checks every rule on the cuts of rows by this rule, in the order of the lines of their proof.
pub(crate) fn check_cuts(alloc: Global, rule: &CutRule, rows: &[CutLine]) -> Result<(), CheckFault>
    ensures ok { OnOk result (MeetsRules (claim.Cut rule.now rows.now)) }
    ensures fault { IfErr result (IsCheckFaultOf (claim.Cut rule.now rows.now)) }
{
    if !is_minimal_rule(rule) {
        return Err(CheckFault::Rejected(CLAIM_LINE, CheckRule::Minimal));
    }
    let mut line = line_behind_rule(rule);
    let mut known: &[CutTerm] = &[];
    for row in rows {
        if let Some(failure) = failure_in_row(alloc, rule, known, row)? {
            let line = line_below(line, failure.below)?;
            return Err(CheckFault::Rejected(line, failure.rule));
        }
        line = line_behind_row(line, row)?;
        known = known_behind(known, row);
    }
    Ok(())
}

/// Whether the function of the rule, if it has one, is minimal.
fn is_minimal_rule(rule: &CutRule) -> bool
    ensures { IsTrue result ↔ IfFunction (subject_of_rule rule.now) PassesAll }
{
    match rule {
        CutRule::Gmic => true,
        CutRule::Table(shape) => is_minimal(shape),
    }
}
