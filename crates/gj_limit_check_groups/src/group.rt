//! The rules on one group.
ghost use Rattle.std.specs.Prelude.{◌≡◌, ◌<◌, List, IfNone, IfOk, length};
ghost use Rattle.gj_shape.specs.Elimination.{KeptRow};
ghost use Rattle.gj_sparse_elim.specs.Sparse.{dense};
ghost use Rattle.gj_check_groups.specs.GroupOutcomes.{IsStepOutcome, IsStepsOutcome};
ghost use Rattle.gj_check_groups.specs.KeptTable.{AreRowsAt};
ghost use Rattle.gj_limit_proof.specs.LimitText.{IsRowWithin};
ghost use Rattle.gj_limit_check_groups.specs.LimitGroupOutcomes.{IsLimitGroupOutcome};
ghost use Rattle.gj_limit_check_groups.specs.SparseRows.{dense_rows, IsSparseRow, IsSparseTable};

use crate::limit::meets_row;
use crate::pivot::meets_pivot_by;
use crate::reduce::{make_room, reduce};
use crate::row::{Row, factor_of};
use crate::table::{Kept, row_at};
use gj_check_groups::{GroupFailure, GroupRule};
use gj_limit_proof::LimitPivotRow;
use gj_proof::{Numbers, lines_with_steps};
use gj_shape::Shape;
use std::alloc::AllocError;

/// The first rule that fails in a group, if the row is that of its name; none if all hold, and then
/// the row is as its steps leave it. An error says that memory ran out.
pub(crate) fn failure_in_group(
    numbers: Numbers,
    shape: &Shape,
    table: &[Kept],
    row: &mut Row,
    group: &LimitPivotRow,
) -> Result<Option<GroupFailure>, AllocError>
    requires name { IsRowWithin shape.now.order group.now.name }
    requires table { IsSparseTable numbers (length table.now) table.now }
    requires row { IsSparseRow numbers (length table.now) row.old.entries.items }
    ensures outcome { IfOk result (λ o. (kept : List KeptRow) →
        AreRowsAt kept (dense_rows (length table.now) table.now) →
        IsLimitGroupOutcome numbers shape.now (length table.now) kept
        (dense (length table.now) row.old.entries.items) group.now
        (dense (length table.now) row.new.entries.items) o) }
    ensures row { IfOk result (λ o. IfNone o (IsSparseRow numbers
        (length table.now) row.new.entries.items)) }
{
    if !meets_row(shape, group.name) {
        return Ok(Some(GroupFailure {
            below: 0,
            rule: GroupRule::Row,
        }));
    }
    let columns = group.reduce.as_slice();
    if let Some(failure) = failure_in_steps(numbers, table, row, columns)? {
        return Ok(Some(failure));
    }
    if !meets_pivot_by(numbers, table, row.entries.as_slice(), group.pivot) {
        return Ok(Some(GroupFailure {
            below: lines_with_steps(columns),
            rule: GroupRule::Pivot,
        }));
    }
    Ok(None)
}

/// Reduces a row at these columns in turn. The answer is the first rule that fails; the row is no
/// longer used then.
fn failure_in_steps(
    numbers: Numbers,
    table: &[Kept],
    row: &mut Row,
    columns: &[u32],
) -> Result<Option<GroupFailure>, AllocError>
    requires table { IsSparseTable numbers (length table.now) table.now }
    requires row { IsSparseRow numbers (length table.now) row.old.entries.items }
    ensures outcome { IfOk result (λ o. (kept : List KeptRow) →
        AreRowsAt kept (dense_rows (length table.now) table.now) →
        IsStepsOutcome numbers kept (dense (length table.now) row.old.entries.items) columns.now
        (dense (length table.now) row.new.entries.items) o) }
    ensures row { IfOk result (λ o. IfNone o (IsSparseRow numbers
        (length table.now) row.new.entries.items)) }
{
    for (place, column) in columns.iter().enumerate() {
        if let Some(rule) = failure_in_step(numbers, table, row, *column)? {
            return Ok(Some(GroupFailure {
                below: lines_with_steps(&columns[..place]),
                rule,
            }));
        }
    }
    Ok(None)
}

/// Reduces a row at a column. The answer is the first rule that fails; the row is no longer used
/// then.
fn failure_in_step(
    numbers: Numbers,
    table: &[Kept],
    row: &mut Row,
    column: u32,
) -> Result<Option<GroupRule>, AllocError>
    requires table { IsSparseTable numbers (length table.now) table.now }
    requires row { IsSparseRow numbers (length table.now) row.old.entries.items }
    ensures outcome { IfOk result (λ o. (kept : List KeptRow) →
        AreRowsAt kept (dense_rows (length table.now) table.now) →
        IsStepOutcome numbers kept (dense (length table.now) row.old.entries.items) column
        (dense (length table.now) row.new.entries.items) o) }
    ensures row { IfOk result (λ o. IfNone o (IsSparseRow numbers
        (length table.now) row.new.entries.items)) }
{
    let kept = match row_at(table, column) {
        Some(kept) => kept,
        None => return Ok(Some(GroupRule::Reduce)),
    };
    if factor_of(row.entries.as_slice(), column) == 0 {
        return Ok(Some(GroupRule::Reduce));
    }
    make_room(row, kept.len())?;
    match reduce(numbers, kept, row, column, table.len() as u32) {
        Ok(()) => Ok(None),
        Err(_) => Ok(Some(GroupRule::Size)),
    }
}
