//! The rules on the proof that a function is extreme, in the order of its lines.
ghost use Rattle.std.specs.Prelude.{◌≡◌, ◌+◌, ◌*◌, OnOk, IfOk, IfErr, All, length};
ghost use Rattle.gj_check.specs.GroupRules.{rule_on_groups as checked_rule};
ghost use Rattle.gj_limit_proof.specs.declared.claim.LimitClaim.TheVariants as claim;
ghost use Rattle.gj_limit_proof.specs.LimitRules.{MeetsLimitRules};
ghost use Rattle.gj_limit_proof.specs.LimitText.{AreLimitExtremeLines, group_lines};
ghost use Rattle.gj_limit_check.specs.FirstFailure.{IsLimitFaultOf};

use crate::cover_lines::{Covered, components_by};
use gj_check::{CheckFault, CheckRule};
use gj_check_groups::GroupRule;
use gj_check_minimal::is_minimal;
use gj_limit_check_groups::failure_in_limit_groups;
use gj_limit_proof::LimitPivotRow;
use gj_proof::{
    CLAIM_LINE, Numbers, first_group_line, line_behind_covers, line_below, lines_with_steps,
};
use gj_shape::{CoverLine, Shape};
use std::alloc::{AllocError, Global};

/// Checks every rule on the cover lines and the rows of these numbers of a function, in the order
/// of the lines of their proof.
pub(crate) fn check_extreme(
    alloc: Global,
    numbers: Numbers,
    shape: &Shape,
    lines: &[CoverLine],
    rows: &[LimitPivotRow],
) -> Result<(), CheckFault>
    requires { AreLimitExtremeLines shape.now lines.now rows.now }
    ensures ok { OnOk result (MeetsLimitRules
        (claim.Extreme numbers shape.now lines.now rows.now)) }
    ensures fault { IfErr result (IsLimitFaultOf
        (claim.Extreme numbers shape.now lines.now rows.now)) }
{
    if !is_minimal(shape) {
        return Err(CheckFault::Rejected(CLAIM_LINE, CheckRule::Minimal));
    }
    let components = match components_by(alloc, shape, lines)? {
        Covered::Whole(components) => components,
        Covered::BrokenAt(index) => {
            let line = line_behind_covers(shape, &lines[..index]);
            return Err(CheckFault::Rejected(line, CheckRule::Cover));
        }
    };
    let groups = first_group_line(numbers, shape);
    let number = components.number.as_slice();
    if let Some(failure) = failure_in_limit_groups(
        alloc,
        numbers,
        shape,
        number,
        components.count,
        rows,
    )? {
        let line = line_below(groups, failure.below)?;
        return Err(CheckFault::Rejected(line, rule_on_groups(failure.rule)));
    }
    let columns = 2 * shape.order() - 1 + components.count;
    if rows.len() != columns as usize {
        let line = line_behind_groups(groups, rows)?;
        return Err(CheckFault::Rejected(line, CheckRule::Rank));
    }
    Ok(())
}

/// The rule on groups among those of the checker.
fn rule_on_groups(rule: GroupRule) -> CheckRule
    ensures { result ≡ checked_rule rule }
{
    match rule {
        GroupRule::Row => CheckRule::Row,
        GroupRule::Reduce => CheckRule::Reduce,
        GroupRule::Size => CheckRule::Size,
        GroupRule::Pivot => CheckRule::Pivot,
    }
}

/// The number of the line behind groups, the first of which begins with the line of this number.
fn line_behind_groups(first: u64, rows: &[LimitPivotRow]) -> Result<u64, AllocError>
    ensures { IfOk result (λ n. n ≡ first + length (group_lines 0 rows.now)) }
{
    let mut line = first;
    for row in rows {
        let pivot = line_below(line, lines_with_steps(row.reduce.as_slice()))?;
        line = line_below(pivot, 1)?;
    }
    Ok(line)
}
