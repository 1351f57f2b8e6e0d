//! A row of 128 bits goes through the columns, with each number as the definition has it.
ghost use Rattle.std.specs.Prelude.{◌≡◌, ◌<◌, length, All, IfOk, IfSome, OnOk, IsErrOf};
ghost use Rattle.gj_shape.specs.Elimination.{Insertion, whole_numbers, Passes};
ghost use Rattle.gj_frac.specs.Fraction.{Fits};
ghost use Rattle.gj_elim.specs.Progress.{IsBehind, IsDone, IsFreeColumn, rest};
ghost use Rattle.gj_sparse_elim.specs.Rows.{sparse_rows, AreKeptSparse};

use crate::entry::spread;
use crate::kept::KeptSparse;
use gj_elim::ElimFault;
use gj_loops::reduce_by;

/// Takes a row through the columns from one on, and adds to `reduce` the columns at which it is
/// reduced. The answer is the column at which something is left of the row. After an error the rows
/// and the columns are no longer used.
#[inline(never)]
pub(crate) fn reduce_exactly(
    kept: &KeptSparse,
    row: &mut [i128],
    kept_row: &mut [i128],
    first: usize,
    reduce: &mut Vec<u32>,
) -> Result<Option<u32>, ElimFault>
    requires kept { AreKeptSparse (length row.old) kept.now }
    requires kept_columns { length kept_row.old ≡ length row.old }
    requires fits { All Fits row.old }
    ensures done { IfOk result (λ left. (i : Insertion) →
        IsBehind i reduce.old.items (rest whole_numbers
        (sparse_rows (length row.old) kept.now) (length row.old) first row.old) →
        IsDone whole_numbers i left row.new reduce.new.items) }
    ensures within { IfOk result (λ left. IfSome left
        (IsFreeColumn (length row.old) kept.now.log.items)) }
    ensures fits { OnOk result (All Fits row.new) }
    ensures wide { IsErrOf result ElimFault.Wide → (i : Insertion) →
        IsBehind i reduce.old.items (rest whole_numbers
        (sparse_rows (length row.old) kept.now) (length row.old) first row.old) →
        Passes i.marked }
{
    for column in first..row.len() {
        if row[column] != 0 {
            match kept.places[column] {
                None => return Ok(Some(column as u32)),
                Some(place) => {
                    spread(kept.rows[place as usize].as_slice(), kept_row);
                    reduce_by(kept_row, row, column)?;
                    reduce.reserve(1)?;
                    reduce.push_reserved(column as u32);
                }
            }
        }
    }
    Ok(None)
}
