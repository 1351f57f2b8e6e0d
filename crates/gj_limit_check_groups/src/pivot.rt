//! The rule `pivot`.
ghost use Rattle.std.specs.Prelude.{◌≡◌, ◌<◌, ◌↔◌, List, IsTrue, length};
ghost use Rattle.gj_shape.specs.Elimination.{KeptRow};
ghost use Rattle.gj_sparse_elim.specs.Sparse.{dense, AreSparse};
ghost use Rattle.gj_proof.specs.Rules.{MeetsPivot, MeetsPivotBy};
ghost use Rattle.gj_check_groups.specs.KeptTable.{AreRowsAt};
ghost use Rattle.gj_limit_check_groups.specs.Merging.{StartsAt};
ghost use Rattle.gj_limit_check_groups.specs.SparseRows.{dense_rows, IsSparseRow};

use crate::row::factor_of;
use crate::table::Kept;
use gj_check_groups::inverse_modulo;
use gj_proof::Numbers;
use gj_sparse_elim::Entry;

/// Whether the first entry of a row stands at the column.
fn starts_at(row: &[Entry], column: u32) -> bool
    ensures { IsTrue result ↔ StartsAt row.now column }
{
    !row.is_empty() && row[0].column == column
}

/// Whether the column is one of the table and has no pivot yet, and the row is 0 before it and not
/// 0 there.
fn meets_pivot(table: &[Kept], row: &[Entry], column: u32) -> bool
    requires { AreSparse (length table.now) row.now }
    ensures { (kept : List KeptRow) →
        AreRowsAt kept (dense_rows (length table.now) table.now) →
        (IsTrue result ↔ MeetsPivot (length table.now) kept
        (dense (length table.now) row.now) column) }
{
    let place = column as usize;
    if place >= table.len() {
        return false;
    }
    if table[place].is_some() {
        return false;
    }
    starts_at(row, column)
}

/// Whether a row of these numbers can be kept with its pivot at the column.
pub(crate) fn meets_pivot_by(numbers: Numbers, table: &[Kept], row: &[Entry], column: u32) -> bool
    requires { IsSparseRow numbers (length table.now) row.now }
    ensures { (kept : List KeptRow) →
        AreRowsAt kept (dense_rows (length table.now) table.now) →
        (IsTrue result ↔ MeetsPivotBy numbers (length table.now) kept
        (dense (length table.now) row.now) column) }
{
    if !meets_pivot(table, row, column) {
        return false;
    }
    match numbers {
        Numbers::Whole => true,
        Numbers::Residues => inverse_modulo(factor_of(row, column)).is_some(),
    }
}
