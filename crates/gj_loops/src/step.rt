//! One step: a row is reduced by a kept row.
ghost use Rattle.std.specs.Prelude.{pos, ◌<ℤ◌, ◌≡◌, ◌≢◌, ◌<◌, ◌*ℤ◌, ◌-ℤ◌, ◌++◌, length, All, IfOk};
ghost use Rattle.std.specs.Prelude.{OnOk, OnErr, unsigned_abs};
ghost use Rattle.gj_shape.specs.Elimination.{at_column, divided, scaled, differences, reduced};
ghost use Rattle.gj_shape.specs.Elimination.{marked_in_step, kept_entries, gcd_of_row, Passes};
ghost use Rattle.std.specs.Int.{IsGcd};
ghost use Rattle.gj_lemmas.specs.Divisors.{gcd_of};
ghost use Rattle.gj_frac.specs.Fraction.{Fits};
ghost use Rattle.gj_theory.specs.Fitting.{FitsCombined};

use crate::narrow::{product, quotient};
use gj_frac::{Wide, checked_difference, gcd};

/// The greatest common divisor of the absolute values of two numbers, the first of them at most
/// 2^127 - 1 in absolute value and not 0. So it is from 1 to 2^127 - 1.
pub fn common_divisor(n: i128, m: i128) -> i128
    requires fits { Fits n }
    requires some { n ≢ pos 0 }
    ensures value { result ≡ pos (gcd_of (unsigned_abs m) (unsigned_abs n)) }
    ensures positive { pos 0 <ℤ result }
{
    gcd(m.unsigned_abs(), n.unsigned_abs()) as i128
}

/// The greatest common divisor of a number and of the absolute value of another.
fn divisor_with(divisor: u128, x: i128) -> u128
    ensures { IsGcd divisor (unsigned_abs x) result }
{
    if x == 0 {
        return divisor;
    }
    gcd(x.unsigned_abs(), divisor)
}

/// The greatest common divisor of all entries; 0 if all are 0.
fn divisor_of_row(row: &[i128]) -> u128
    ensures { result ≡ gcd_of_row row.now }
{
    let mut divisor: u128 = 0;
    for x in row {
        if divisor == 1 {
            return 1;
        }
        divisor = divisor_with(divisor, *x);
    }
    divisor
}

/// Divides a row by the greatest common divisor of its entries, if they are not all 0.
fn divide(row: &mut [i128])
    requires { All Fits row.old }
    ensures value { row.new ≡ divided row.old }
    ensures fits { All Fits row.new }
{
    let divisor = divisor_of_row(row);
    if divisor > 1 {
        for x in row.iter_mut() {
            *x = quotient(*x, divisor as i128);
        }
    }
}

/// u x - w e. Where the kept row has 0, a product is enough.
fn combination(u: i128, x: i128, w: i128, e: i128) -> Result<i128, Wide>
    ensures value { IfOk result (λ r. r ≡ u *ℤ x -ℤ w *ℤ e) }
    ensures fits { OnOk result (FitsCombined u x w e) }
    ensures wide { OnErr result (¬ FitsCombined u x w e) }
{
    if e == 0 {
        if x == 0 {
            return Ok(0);
        }
        return product(u, x);
    }
    let first = product(u, x)?;
    let second = product(w, e)?;
    checked_difference(first, second)
}

/// Puts u times the row less w times the kept row in the place of the row. After an error some
/// entries are changed.
fn combine(u: i128, row: &mut [i128], w: i128, kept: &[i128]) -> Result<(), Wide>
    requires { length kept.now ≡ length row.old }
    ensures value { OnOk result (row.new ≡ differences (scaled u row.old) (scaled w kept.now)) }
    ensures fits { OnOk result (¬ Passes (scaled u row.old ++ scaled w kept.now
        ++ differences (scaled u row.old) (scaled w kept.now))) }
    ensures wide { OnErr result (Passes (scaled u row.old ++ scaled w kept.now
        ++ differences (scaled u row.old) (scaled w kept.now))) }
{
    for i in 0..row.len() {
        row[i] = combination(u, row[i], w, kept[i])?;
    }
    Ok(())
}

/// Reduces a row by a kept row with its pivot at the column.
///
/// In the place of the row come u times the row less w times the kept row, divided by the greatest
/// common divisor of their entries. Here u is the pivot and w the row's entry at the column, both
/// divided by their greatest common divisor. The kept row has numbers of at most 2^127 - 1 in
/// absolute value, and so has the row afterwards. `Wide` exactly if a product or a difference on
/// the way passes that; some entries are changed then.
pub fn reduce_by(kept: &[i128], row: &mut [i128], column: usize) -> Result<(), Wide>
    requires columns { length kept.now ≡ length row.old }
    requires within { column < length row.old }
    requires fits { All Fits kept.now }
    requires positive { pos 0 <ℤ at_column kept.now column }
    ensures value { OnOk result (row.new ≡ reduced kept.now row.old column) }
    ensures fits { OnOk result (All Fits row.new) }
    ensures narrow { OnOk result (¬ Passes (marked_in_step kept.now row.old column)) }
    ensures wide { OnErr result (Passes (marked_in_step kept.now row.old column)) }
{
    let entry = row[column];
    let pivot = kept[column];
    let divisor = common_divisor(pivot, entry);
    combine(pivot / divisor, row, entry / divisor, kept)?;
    divide(row);
    Ok(())
}

/// Divides a row by the greatest common divisor of its entries, and turns its sign if its entry at
/// the column is negative. The numbers are at most 2^127 - 1 in absolute value, before and after.
/// A row of zeros stays as it is.
pub fn make_kept(row: &mut [i128], column: usize)
    requires within { column < length row.old }
    requires fits { All Fits row.old }
    ensures value { row.new ≡ kept_entries row.old column }
    ensures fits { All Fits row.new }
{
    let is_negative = row[column] < 0;
    divide(row);
    if is_negative {
        for x in row.iter_mut() {
            *x = -*x;
        }
    }
}
