//! Kept rows are solved, one after another.
ghost use Rattle.std.specs.Prelude.{ℕ, pos, ◌≡◌, ◌<◌, ◌<ℤ◌, ◌++◌, length, IfOk, OnOk, OnErr};
ghost use Rattle.gj_shape.specs.Elimination.{at_column, products_behind, partial_sums};
ghost use Rattle.gj_shape.specs.Elimination.{solved_at, marked_in_solving, Passes};
ghost use Rattle.gj_shape.specs.SlopeRows.{total};
ghost use Rattle.gj_frac.specs.Fraction.{Fits};
ghost use Rattle.gj_sparse_elim.specs.Sparse.{AreSparse, dense};

use crate::entry::Entry;
use gj_elim::multiply;
use gj_frac::{Wide, checked_total};
use gj_loops::{common_divisor, product};

/// The sum of the products of the entries behind the first, which is at the column.
fn sum_behind(row: &[Entry], numbers: &[i128], column: usize) -> Result<i128, Wide>
    requires sparse { AreSparse (length numbers.now) row.now }
    requires within { column < length numbers.now }
    requires zero { (k : ℕ) → k < column →
        at_column (dense (length numbers.now) row.now) k ≡ pos 0 }
    requires positive { pos 0 <ℤ at_column (dense (length numbers.now) row.now) column }
    ensures value { IfOk result (λ t. t
        ≡ total (products_behind column (dense (length numbers.now) row.now) numbers.now)) }
    ensures fits { IfOk result Fits }
    ensures narrow { OnOk result (¬ Passes
        (products_behind column (dense (length numbers.now) row.now) numbers.now ++ partial_sums
        (pos 0) (products_behind column (dense (length numbers.now) row.now) numbers.now))) }
    ensures wide { OnErr result (Passes
        (products_behind column (dense (length numbers.now) row.now) numbers.now ++ partial_sums
        (pos 0) (products_behind column (dense (length numbers.now) row.now) numbers.now))) }
{
    let mut total: i128 = 0;
    for i in 1..row.len() {
        let number = numbers[row[i].column as usize];
        total = checked_total(total, product(row[i].factor, number)?)?;
    }
    Ok(total)
}

/// Multiplies the numbers, and sets that of the column, so that they solve the row with its pivot
/// there. After an error some are changed.
pub(crate) fn solve_at(row: &[Entry], column: usize, numbers: &mut [i128]) -> Result<(), Wide>
    requires sparse { AreSparse (length numbers.old) row.now }
    requires within { column < length numbers.old }
    requires zero { (k : ℕ) → k < column →
        at_column (dense (length numbers.old) row.now) k ≡ pos 0 }
    requires positive { pos 0 <ℤ at_column (dense (length numbers.old) row.now) column }
    ensures value { OnOk result (numbers.new
        ≡ solved_at (dense (length numbers.old) row.now) column numbers.old) }
    ensures narrow { OnOk result (¬ Passes (marked_in_solving
        (dense (length numbers.old) row.now) column numbers.old)) }
    ensures wide { OnErr result (Passes (marked_in_solving
        (dense (length numbers.old) row.now) column numbers.old)) }
{
    let pivot = row[0].factor;
    let behind = sum_behind(row, numbers, column)?;
    let divisor = common_divisor(pivot, behind);
    multiply(pivot / divisor, numbers)?;
    numbers[column] = -(behind / divisor);
    Ok(())
}
