//! A row goes through all columns, and is reduced by the kept rows.
ghost use Rattle.std.specs.Prelude.{ℤ, ◌≡◌, ◌<◌, ◌^◌, ◌==◌, List, [], length, All, IfOk, IfSome};
ghost use Rattle.std.specs.Prelude.{OnOk, IsErrOf};
ghost use Rattle.std.specs.List.{position};
ghost use Rattle.gj_shape.specs.Elimination.{Insertion, free_column, whole_numbers, inserted};
ghost use Rattle.gj_shape.specs.Elimination.{Passes};
ghost use Rattle.gj_frac.specs.Fraction.{Fits};
ghost use Rattle.gj_elim.specs.KeptRows.{kept_rows};
ghost use Rattle.gj_elim.specs.Progress.{IsLeft, IsBehind, IsDone, IsFreeColumn, rest};
ghost use Rattle.gj_elim.specs.declared.log.LogRow.{LogRow};
ghost use Rattle.gj_elim.specs.Tables.{rows_of, AreKept, ArePlaces};

use crate::extent::extent_of;
use crate::faults::ElimFault;
use crate::kept::KeptRows;
use crate::lazy::{GREATEST_BOUND, Reached, load, reduce_lazily, store};
use crate::log::LogRow;
use gj_loops::reduce_by;

/// The place of the line with this pivot in a log.
pub fn place_of(log: &[LogRow], column: u32) -> Option<usize>
    ensures { result ≡ position (λ line. line.pivot == column) log.now }
{
    log.iter().position(|line| line.pivot == column)
}

/// The least column without a pivot, by the places of the kept rows.
pub fn free_column(places: &[Option<u32>]) -> Option<u32>
    requires { length places.now < 2 ^ 32 }
    ensures { (log : List LogRow) (rows : List (List ℤ)) → length log ≡ length rows →
        ArePlaces (length places.now) log places.now →
        result ≡ free_column (length places.now) (kept_rows log rows) }
{
    for column in 0..places.len() {
        if places[column].is_none() {
            return Some(column as u32);
        }
    }
    None
}

/// Takes a row through the columns from one on, and adds to `reduce` the columns at which it is
/// reduced. The answer is the column at which something is left of the row. After an error the row
/// and the columns are no longer used.
#[inline(never)]
fn reduce_exactly(
    kept: &KeptRows,
    row: &mut [i128],
    first: usize,
    reduce: &mut Vec<u32>,
) -> Result<Option<u32>, ElimFault>
    requires kept { AreKept (length row.old) kept.now }
    requires fits { All Fits row.old }
    ensures done { IfOk result (λ left. (i : Insertion) →
        IsBehind i reduce.old.items (rest whole_numbers (rows_of kept.now)
        (length row.old) first row.old) →
        IsDone whole_numbers i left row.new reduce.new.items) }
    ensures within { IfOk result (λ left. IfSome left
        (IsFreeColumn (length row.old) kept.now.log.items)) }
    ensures fits { OnOk result (All Fits row.new) }
    ensures wide { IsErrOf result ElimFault.Wide → (i : Insertion) →
        IsBehind i reduce.old.items (rest whole_numbers (rows_of kept.now)
        (length row.old) first row.old) → Passes i.marked }
{
    for column in first..row.len() {
        if row[column] != 0 {
            match kept.places[column] {
                None => return Ok(Some(column as u32)),
                Some(place) => {
                    reduce_by(kept.rows[place as usize].as_slice(), row, column)?;
                    reduce.reserve(1)?;
                    reduce.push_reserved(column as u32);
                }
            }
        }
    }
    Ok(None)
}

/// Takes a row through all columns, and adds to `reduce` the columns at which it is reduced. The
/// answer is the column at which something is left of the row, which is then `row`, or a multiple
/// of it. After an error the rows and the columns are no longer used.
pub(crate) fn reduce_row(
    kept: &KeptRows,
    given: &[i128],
    row: &mut [i128],
    small: &mut [i64],
    reduce: &mut Vec<u32>,
) -> Result<Option<u32>, ElimFault>
    requires kept { AreKept (length given.now) kept.now }
    requires row_columns { length row.old ≡ length given.now }
    requires small_columns { length small.old ≡ length given.now }
    requires fits { All Fits given.now }
    requires empty { reduce.old.items ≡ [] }
    ensures left { IfOk result (λ left. IsLeft whole_numbers (inserted (length given.now)
        (rows_of kept.now) given.now) left row.new
        reduce.new.items) }
    ensures within { IfOk result (λ left. IfSome left
        (IsFreeColumn (length given.now) kept.now.log.items)) }
    ensures fits { IfOk result (λ left. IfSome left (λ _. All Fits row.new)) }
    ensures narrow { OnOk result (¬ Passes (inserted (length given.now)
        (rows_of kept.now) given.now).marked) }
    ensures wide { IsErrOf result ElimFault.Wide →
        Passes (inserted (length given.now) (rows_of kept.now) given.now).marked }
{
    let extent = extent_of(given);
    if extent.bound >= GREATEST_BOUND {
        row.copy_from_slice(given);
        return reduce_exactly(kept, row, 0, reduce);
    }
    load(small, given);
    match reduce_lazily(kept, small, extent, row, reduce)? {
        Reached::End(None) => Ok(None),
        Reached::End(Some(column)) => {
            store(small, row);
            Ok(Some(column))
        }
        Reached::Column(column) => reduce_exactly(kept, row, column, reduce),
    }
}
