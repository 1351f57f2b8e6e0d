//! A row goes through all columns, and is reduced by the kept rows.
ghost use Rattle.std.specs.Prelude.{ℕ, ℤ, pos, ◌≡◌, ◌<◌, ◌^◌, ◌<ℤ◌, List, [], length, All};
ghost use Rattle.std.specs.Prelude.{IfOk, IfSome, IsNone, OnOk, IsErrOf};
ghost use Rattle.gj_shape.specs.Elimination.{at_column, inserted, Passes};
ghost use Rattle.gj_frac.specs.Fraction.{Fits};
ghost use Rattle.gj_elim.specs.Lazy.{IsMultipleRow, IsLazyStep, IsExtent, IsExactly};
ghost use Rattle.gj_elim.specs.Progress.{IsFreeColumn, IsReached};
ghost use Rattle.gj_sparse_elim.specs.Sparse.{AreSparse, dense};
ghost use Rattle.gj_sparse_elim.specs.Columns.{IsSupport};
ghost use Rattle.gj_sparse_elim.specs.Left.{IsLeftAs};
ghost use Rattle.gj_sparse_elim.specs.Rows.{sparse_rows, AreKeptSparse};
ghost use Rattle.gj_sparse_elim.specs.Progress.{IsReachedWithin};

use crate::columns::first_from;
use crate::entry::{Entry, bound_of, spread};
use crate::exact::reduce_exactly;
use crate::kept::KeptSparse;
use crate::lazy::{load, step_once};
use crate::left::{Left, small_left, wide_left};
use crate::tighten::tighten;
use gj_elim::{ElimFault, GREATEST_BOUND, Reached, store};
use gj_loops::IndexSet;
use std::alloc::{AllocError, Global};

/// A step at the column, if its numbers are small, or are small once the row is divided. Only a row
/// that comes from a step is divided, since each such row is divided in the definition. If there is
/// no step, the row of the definition is written with 128 bits a number.
fn step(
    kept: &[Entry],
    kept_bound: u64,
    row: &mut [i64],
    touched: &mut [IndexSet],
    bound: u64,
    column: usize,
    exact: &mut [i128],
    is_stepped: bool,
) -> Option<u64>
    requires sparse { AreSparse (length row.old) kept.now }
    requires support { IsSupport touched.old row.old }
    requires exact { length exact.old ≡ length row.old }
    requires within { column < length row.old }
    requires kept_extent { IsExtent kept_bound (length row.old) (dense (length row.old) kept.now) }
    requires extent { IsExtent bound (length row.old) row.old }
    requires bound { bound < 2 ^ 63 }
    requires kept_zero { (k : ℕ) → k < column →
        at_column (dense (length row.old) kept.now) k ≡ pos 0 }
    requires row_zero { (k : ℕ) → k < column → at_column row.old k ≡ pos 0 }
    requires positive { pos 0 <ℤ at_column (dense (length row.old) kept.now) column }
    ensures step { IfSome result (λ _. (other : List ℤ) → IsMultipleRow other row.old →
        IsExactly is_stepped other row.old →
        IsLazyStep (dense (length row.old) kept.now) other row.new column) }
    ensures extent { IfSome result (λ b. IsExtent b (length row.new) row.new) }
    ensures bound { IfSome result (λ b. b < 2 ^ 63) }
    ensures exact { IsNone result → (other : List ℤ) → IsMultipleRow other row.old →
        IsExactly is_stepped other row.old →
        exact.new ≡ other }
    ensures fits { IsNone result → All Fits exact.new }
    ensures support { IsSupport touched.new row.new }
{
    if let Some(next) = step_once(kept, kept_bound, row, touched, bound, column) {
        return Some(next);
    }
    if !is_stepped {
        store(row, exact);
        return None;
    }
    let tight = tighten(row, touched, column);
    match step_once(kept, kept_bound, row, touched, tight, column) {
        None => {
            store(row, exact);
            None
        }
        Some(next) => Some(next),
    }
}

/// Takes a row through the columns as far as its numbers stay small, and adds to `reduce` the
/// columns at which it is reduced. It becomes a multiple of the row of the definition; if a step
/// may have large numbers, that row itself is written with 128 bits a number.
fn reduce_lazily(
    kept: &KeptSparse,
    row: &mut [i64],
    touched: &mut [IndexSet],
    first_bound: u64,
    exact: &mut [i128],
    reduce: &mut Vec<u32>,
) -> Result<Reached, AllocError>
    requires kept { AreKeptSparse (length row.old) kept.now }
    requires exact { length exact.old ≡ length row.old }
    requires extent { IsExtent first_bound (length row.old) row.old }
    requires bound { first_bound < 2 ^ 63 }
    requires support { IsSupport touched.old row.old }
    requires empty { reduce.old.items ≡ [] }
    ensures reached { IfOk result (λ r.
        IsReached (sparse_rows (length row.old) kept.now)
        (inserted (length row.old) (sparse_rows (length row.old) kept.now) row.old)
        r row.new exact.new reduce.new.items) }
    ensures within { IfOk result (λ r. IsReachedWithin
        (length row.old) kept.now.log.items r row.new exact.new) }
    ensures support { IsSupport touched.new row.new }
{
    let mut bound = first_bound;
    let mut is_stepped = false;
    let mut next = 0;
    while let Some(column) = first_from(touched, next) {
        if row[column] != 0 {
            let Some(place) = kept.places[column] else {
                return Ok(Reached::End(Some(column as u32)));
            };
            let after = step(
                kept.rows[place as usize].as_slice(),
                kept.bounds[place as usize],
                row,
                touched,
                bound,
                column,
                exact,
                is_stepped,
            );
            match after {
                None => return Ok(Reached::Column(column)),
                Some(least) => {
                    reduce.reserve(1)?;
                    reduce.push_reserved(column as u32);
                    bound = least;
                    is_stepped = true;
                }
            }
        }
        next = column + 1;
    }
    Ok(Reached::End(None))
}

/// Takes a row through all columns, and adds to `reduce` the columns at which it is reduced. The
/// answer is what is left of the row. After an error the rows and the columns are no longer used.
pub(crate) fn reduce_row(
    alloc: Global,
    kept: &KeptSparse,
    given: &[Entry],
    row: &mut [i128],
    kept_row: &mut [i128],
    small: &mut [i64],
    touched: &mut [IndexSet],
    reduce: &mut Vec<u32>,
) -> Result<Option<Left>, ElimFault>
    requires kept { AreKeptSparse (length row.old) kept.now }
    requires sparse { AreSparse (length row.old) given.now }
    requires kept_columns { length kept_row.old ≡ length row.old }
    requires small_columns { length small.old ≡ length row.old }
    requires support { IsSupport touched.old small.old }
    requires empty { reduce.old.items ≡ [] }
    ensures left { IfOk result (IsLeftAs (length row.old) (inserted (length row.old)
        (sparse_rows (length row.old) kept.now) (dense (length row.old) given.now))
        reduce.new.items) }
    ensures within { IfOk result (λ left. IfSome left
        (λ l. IsFreeColumn (length row.old) kept.now.log.items l.column)) }
    ensures narrow { OnOk result (¬ Passes (inserted (length row.old)
        (sparse_rows (length row.old) kept.now)
        (dense (length row.old) given.now)).marked) }
    ensures wide { IsErrOf result ElimFault.Wide → Passes (inserted (length row.old)
        (sparse_rows (length row.old) kept.now)
        (dense (length row.old) given.now)).marked }
    ensures support { IsSupport touched.new small.new }
{
    let bound = bound_of(given);
    if bound >= GREATEST_BOUND {
        spread(given, row);
        let left = reduce_exactly(kept, row, kept_row, 0, reduce)?;
        return Ok(wide_left(alloc, row, left)?);
    }
    load(given, small, touched);
    match reduce_lazily(kept, small, touched, bound, row, reduce)? {
        Reached::End(None) => Ok(None),
        Reached::End(Some(column)) => Ok(Some(small_left(alloc, small, touched, column)?)),
        Reached::Column(column) => {
            let left = reduce_exactly(kept, row, kept_row, column, reduce)?;
            Ok(wide_left(alloc, row, left)?)
        }
    }
}
