//! The rules on one group.
ghost use Rattle.std.specs.Prelude.{pos, ◌≡◌, ◌<◌, ◌↔◌, List, All, IfNone, IfSome, IsTrue, get_or};
ghost use Rattle.std.specs.Prelude.{length};
ghost use Rattle.std.specs.declared.option.Option.TheVariants.{Some, None};
ghost use Rattle.gj_shape.specs.Additive.{IsTight};
ghost use Rattle.gj_shape.specs.Elimination.{KeptRow};
ghost use Rattle.gj_check_groups.specs.RowNumbers.{AreRowNumbers};
ghost use Rattle.gj_check_groups.specs.KeptTable.{IsTable, AreRowsAt};
ghost use Rattle.gj_proof.specs.ProofText.{IsRowNameBelow};
ghost use Rattle.gj_proof.specs.Rules.{MeetsRow, MeetsPivot, MeetsPivotBy};
ghost use Rattle.gj_check_groups.specs.GroupOutcomes.{IsStepOutcome, IsStepsOutcome};
ghost use Rattle.gj_check_groups.specs.GroupOutcomes.{IsGroupOutcome};

use crate::failure::{GroupFailure, GroupRule};
use crate::modulo::inverse_modulo;
use crate::step::reduce;
use gj_proof::{Numbers, PivotRow, lines_with_steps};
use gj_shape::{List, RowName, Shape};

/// The first rule that fails in a group, if the row is that of its name; none if all hold, and then
/// the row is as its steps leave it.
pub(crate) fn failure_in_group(
    numbers: Numbers,
    shape: &Shape,
    table: &[Option<List<i128>>],
    row: &mut [i128],
    group: &PivotRow,
) -> Option<GroupFailure>
    requires name { IsRowNameBelow shape.now.order group.now.name }
    requires table { IsTable numbers (length row.old) table.now }
    requires fits { AreRowNumbers numbers row.old }
    ensures outcome { (kept : List KeptRow) → AreRowsAt kept table.now →
        IsGroupOutcome numbers shape.now (length row.old) kept row.old group.now row.new result }
    ensures fits { IfNone result (AreRowNumbers numbers row.new) }
{
    if !meets_row(shape, group.name) {
        return Some(GroupFailure {
            below: 0,
            rule: GroupRule::Row,
        });
    }
    let columns = group.reduce.as_slice();
    if let Some(failure) = failure_in_steps(numbers, table, row, columns) {
        return Some(failure);
    }
    if !meets_pivot_by(numbers, table, row, group.pivot) {
        return Some(GroupFailure {
            below: lines_with_steps(columns),
            rule: GroupRule::Pivot,
        });
    }
    None
}

/// Whether the pair that names a row is tight.
fn meets_row(shape: &Shape, name: RowName) -> bool
    requires { IsRowNameBelow shape.now.order name }
    ensures { IsTrue result ↔ MeetsRow shape.now name }
{
    match name {
        RowName::Period | RowName::F => true,
        RowName::Pair(a, b) => is_tight(shape, a, b),
    }
}

/// Whether the pair is tight.
fn is_tight(shape: &Shape, a: u32, b: u32) -> bool
    requires first { a < shape.now.order }
    requires second { b < shape.now.order }
    ensures { IsTrue result ↔ IsTight shape.now a b }
{
    let first = shape.value_numerator(a);
    first + shape.value_numerator(b) == shape.value_numerator(a + b)
}

/// Reduces a row at these columns in turn. The answer is the first rule that fails; the row is no
/// longer used then.
fn failure_in_steps(
    numbers: Numbers,
    table: &[Option<List<i128>>],
    row: &mut [i128],
    columns: &[u32],
) -> Option<GroupFailure>
    requires table { IsTable numbers (length row.old) table.now }
    requires fits { AreRowNumbers numbers row.old }
    ensures outcome { (kept : List KeptRow) → AreRowsAt kept table.now →
        IsStepsOutcome numbers kept row.old columns.now row.new result }
    ensures fits { IfNone result (AreRowNumbers numbers row.new) }
{
    for (place, column) in columns.iter().enumerate() {
        if let Some(rule) = failure_in_step(numbers, table, row, *column) {
            return Some(GroupFailure {
                below: lines_with_steps(&columns[..place]),
                rule,
            });
        }
    }
    None
}

/// Reduces a row at a column. The answer is the first rule that fails; the row is no longer used
/// then.
fn failure_in_step(
    numbers: Numbers,
    table: &[Option<List<i128>>],
    row: &mut [i128],
    column: u32,
) -> Option<GroupRule>
    requires table { IsTable numbers (length row.old) table.now }
    requires fits { AreRowNumbers numbers row.old }
    ensures outcome { (kept : List KeptRow) → AreRowsAt kept table.now →
        IsStepOutcome numbers kept row.old column row.new result }
    ensures fits { IfNone result (AreRowNumbers numbers row.new) }
{
    let column = column as usize;
    let kept = match row_at(table, column) {
        Some(kept) => kept,
        None => return Some(GroupRule::Reduce),
    };
    if row[column] == 0 {
        return Some(GroupRule::Reduce);
    }
    match reduce(numbers, kept, row, column) {
        Ok(()) => None,
        Err(_) => Some(GroupRule::Size),
    }
}

/// The entries of the kept row with its pivot at the column.
fn row_at(table: &[Option<List<i128>>], column: usize) -> Option<&[i128]>
    ensures some { IfSome result (λ entries. Some entries.now ≡ get_or table.now column None) }
    ensures none { IfNone result (None ≡ get_or table.now column None) }
{
    if column >= table.len() {
        return None;
    }
    match &table[column] {
        Some(entries) => Some(entries.as_slice()),
        None => None,
    }
}

/// Whether a row of these numbers can be kept with its pivot at the column.
fn meets_pivot_by(numbers: Numbers, table: &[Option<List<i128>>], row: &[i128], column: u32) -> bool
    requires table { IsTable numbers (length row.now) table.now }
    requires fits { AreRowNumbers numbers row.now }
    ensures { (kept : List KeptRow) → AreRowsAt kept table.now →
        (IsTrue result ↔ MeetsPivotBy numbers (length row.now) kept row.now column) }
{
    if !meets_pivot(table, row, column) {
        return false;
    }
    match numbers {
        Numbers::Whole => true,
        Numbers::Residues => inverse_modulo(row[column as usize]).is_some(),
    }
}

/// Whether the column is within the row and has no pivot yet, and the row is 0 before it and not 0
/// there.
fn meets_pivot(table: &[Option<List<i128>>], row: &[i128], column: u32) -> bool
    requires { length table.now ≡ length row.now }
    ensures outcome { (kept : List KeptRow) → AreRowsAt kept table.now →
        (IsTrue result ↔ MeetsPivot (length row.now) kept row.now column) }
    ensures within { IsTrue result → column < length row.now }
{
    let column = column as usize;
    if column >= row.len() {
        return false;
    }
    if table[column].is_some() {
        return false;
    }
    row[column] != 0 && are_zeros(&row[..column])
}

/// Whether all entries are 0.
fn are_zeros(row: &[i128]) -> bool
    ensures { IsTrue result ↔ All (λ x. x ≡ pos 0) row.now }
{
    for x in row {
        if *x != 0 {
            return false;
        }
    }
    true
}
