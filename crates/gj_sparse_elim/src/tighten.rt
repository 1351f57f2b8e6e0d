//! A row of 64 bits is divided by the greatest common divisor of its entries.
ghost use Rattle.std.specs.Prelude.{ℕ, pos, ◌≡◌, ◌<◌, ◌≤◌, ◌^◌, length, unsigned_abs};
ghost use Rattle.gj_shape.specs.Elimination.{at_column, gcd_of_row, divided};
ghost use Rattle.gj_elim.specs.Lazy.{IsExtent, IsZeroOutside};
ghost use Rattle.gj_sparse_elim.specs.Columns.{IsSupport};

use crate::columns::first_from;
use gj_elim::divisor_with;
use gj_loops::IndexSet;

/// The greatest common divisor of all entries of a row that is 0 before the column; 0 if all are 0.
fn divisor_from(row: &[i64], touched: &[IndexSet], column: usize) -> u64
    requires support { IsSupport touched.now row.now }
    requires zero { IsZeroOutside column (length row.now) row.now }
    requires small { (k : ℕ) → unsigned_abs (at_column row.now k) < 2 ^ 63 }
    ensures value { result ≡ gcd_of_row row.now }
    ensures small { result < 2 ^ 63 }
{
    let mut divisor: u64 = 0;
    let mut next = column;
    while let Some(found) = first_from(touched, next) {
        if divisor == 1 {
            return 1;
        }
        divisor = divisor_with(divisor, row[found]);
        next = found + 1;
    }
    divisor
}

/// Divides a row that is 0 before the column by the greatest common divisor of its entries.
fn divide_by(row: &mut [i64], touched: &[IndexSet], divisor: u64, column: usize)
    requires support { IsSupport touched.now row.old }
    requires zero { IsZeroOutside column (length row.old) row.old }
    requires divisor { divisor ≡ gcd_of_row row.old }
    requires small { divisor < 2 ^ 63 }
    requires some { 0 < divisor }
    ensures { row.new ≡ divided row.old }
{
    let mut next = column;
    while let Some(found) = first_from(touched, next) {
        row[found] /= divisor as i64;
        next = found + 1;
    }
}

/// Divides a row that is 0 before the column by the greatest common divisor of its entries, if that
/// is not 1.
pub(crate) fn divide(row: &mut [i64], touched: &[IndexSet], column: usize)
    requires support { IsSupport touched.now row.old }
    requires zero { IsZeroOutside column (length row.old) row.old }
    requires small { (k : ℕ) → unsigned_abs (at_column row.old k) < 2 ^ 63 }
    ensures { row.new ≡ divided row.old }
{
    let divisor = divisor_from(row, touched, column);
    if divisor > 1 {
        divide_by(row, touched, divisor, column);
    }
}

/// The greatest absolute value of a row that is 0 before the column.
fn bound_from(row: &[i64], touched: &[IndexSet], column: usize) -> u64
    requires support { IsSupport touched.now row.now }
    requires zero { IsZeroOutside column (length row.now) row.now }
    requires small { (k : ℕ) → unsigned_abs (at_column row.now k) < 2 ^ 63 }
    ensures bound { (k : ℕ) → unsigned_abs (at_column row.now k) ≤ result }
    ensures small { result < 2 ^ 63 }
{
    let mut bound: u64 = 0;
    let mut next = column;
    while let Some(found) = first_from(touched, next) {
        bound = bound.max(row[found].unsigned_abs());
        next = found + 1;
    }
    bound
}

/// Divides a row that is 0 before the column by the greatest common divisor of its entries, and
/// gives its bound then.
pub(crate) fn tighten(row: &mut [i64], touched: &[IndexSet], column: usize) -> u64
    requires support { IsSupport touched.now row.old }
    requires small { (k : ℕ) → unsigned_abs (at_column row.old k) < 2 ^ 63 }
    requires row_zero { (k : ℕ) → k < column → at_column row.old k ≡ pos 0 }
    ensures value { row.new ≡ divided row.old }
    ensures extent { IsExtent result (length row.new) row.new }
    ensures bound { result < 2 ^ 63 }
    ensures support { IsSupport touched.now row.new }
{
    divide(row, touched, column);
    bound_from(row, touched, column)
}
