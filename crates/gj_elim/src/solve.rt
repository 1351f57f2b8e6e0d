//! Kept rows are solved, one after another.
ghost use Rattle.std.specs.Prelude.{ℤ, pos, ◌≡◌, ◌<◌, ◌+◌, ◌<ℤ◌, ◌++◌};
ghost use Rattle.std.specs.Prelude.{length, map, All, IfOk, OnOk, OnErr};
ghost use Rattle.gj_shape.specs.Elimination.{at_column, scaled, products_behind, partial_sums};
ghost use Rattle.gj_shape.specs.Elimination.{solved_at, marked_in_solving, unit_row, Passes};
ghost use Rattle.gj_shape.specs.SlopeRows.{total};
ghost use Rattle.gj_frac.specs.Fraction.{Fits};

use gj_frac::{Wide, checked_total};
use gj_loops::{common_divisor, product};
use std::alloc::{AllocError, Global};

/// 1 at the column, and 0 at the other columns.
pub fn unit_row(alloc: Global, columns: usize, column: usize) -> Result<Vec<i128>, AllocError>
    ensures { IfOk result (λ v. v.items ≡ unit_row columns column) }
{
    (0..columns)
        .map(|i| if i == column { 1 } else { 0 })
        .collect(alloc)
}

/// The sum of the products of the entries behind the column.
fn sum_behind(row: &[i128], numbers: &[i128], column: usize) -> Result<i128, Wide>
    requires columns { length row.now ≡ length numbers.now }
    requires within { column < length row.now }
    ensures value { IfOk result (λ t. t ≡ total (products_behind column row.now numbers.now)) }
    ensures fits { IfOk result Fits }
    ensures narrow { OnOk result (¬ Passes (products_behind column row.now numbers.now
        ++ partial_sums (pos 0) (products_behind column row.now numbers.now))) }
    ensures wide { OnErr result (Passes (products_behind column row.now numbers.now
        ++ partial_sums (pos 0) (products_behind column row.now numbers.now))) }
{
    let mut total: i128 = 0;
    for i in column + 1..row.len() {
        total = checked_total(total, product(row[i], numbers[i])?)?;
    }
    Ok(total)
}

/// Multiplies all numbers by the factor. After an error some are changed.
pub fn multiply(factor: i128, numbers: &mut [i128]) -> Result<(), Wide>
    ensures value { OnOk result (numbers.new ≡ scaled factor numbers.old) }
    ensures narrow { OnOk result (¬ Passes (scaled factor numbers.old)) }
    ensures wide { OnErr result (Passes (scaled factor numbers.old)) }
{
    for x in numbers.iter_mut() {
        *x = product(factor, *x)?;
    }
    Ok(())
}

/// Multiplies the numbers, and sets that of the column, so that they solve the row with its pivot
/// there. After an error some are changed.
pub(crate) fn solve_at(row: &[i128], column: usize, numbers: &mut [i128]) -> Result<(), Wide>
    requires columns { length row.now ≡ length numbers.old }
    requires within { column < length row.now }
    requires fits { All Fits row.now }
    requires positive { pos 0 <ℤ at_column row.now column }
    ensures value { OnOk result (numbers.new ≡ solved_at row.now column numbers.old) }
    ensures narrow { OnOk result (¬ Passes (marked_in_solving row.now column numbers.old)) }
    ensures wide { OnErr result (Passes (marked_in_solving row.now column numbers.old)) }
{
    let pivot = row[column];
    let behind = sum_behind(row, numbers, column)?;
    let divisor = common_divisor(pivot, behind);
    multiply(pivot / divisor, numbers)?;
    numbers[column] = -(behind / divisor);
    Ok(())
}
