//! Steps in 64 bits, without a division: they leave a positive multiple of the row that the
//! definition has.
ghost use Rattle.std.specs.Prelude.{ℕ, ℤ, pos, ◌≡◌, ◌≢◌, ◌<◌, ◌≤◌, ◌+◌, ◌*◌, ◌^◌, ◌*ℤ◌, ◌<ℤ◌, List};
ghost use Rattle.std.specs.Prelude.{length, unsigned_abs, IfSome, IsNone, IfOk, [], All};
ghost use Rattle.gj_shape.specs.Elimination.{at_column, gcd_of_row, divided, scaled, differences};
ghost use Rattle.gj_shape.specs.Elimination.{inserted};
ghost use Rattle.std.specs.Int.{IsGcd};
ghost use Rattle.gj_frac.specs.Fraction.{Fits};
ghost use Rattle.gj_elim.specs.Progress.{IsReached, IsReachedWithin};
ghost use Rattle.gj_elim.specs.Tables.{rows_of, AreKept};
ghost use Rattle.gj_elim.specs.Lazy.{IsMultipleRow, IsLazyStep, AreLazyFactors, IsExtent, HasRoom};
ghost use Rattle.gj_elim.specs.Lazy.{IsZeroOutside, IsExactly};

use crate::extent::Extent;
use crate::kept::KeptRows;
use gj_frac::gcd;
use std::alloc::AllocError;

/// The products of a step in 64 bits are below it.
pub const ROOM: u128 = 1 << 62;

/// The bound of a row whose steps may be in 64 bits is below it.
pub const GREATEST_BOUND: u64 = 1 << 62;

/// The factors of a row and of a kept row in a step.
#[derive(Clone, Copy)]
pub struct Factors {
    /// That of the row.
    pub row: i64,
    /// That of the kept row.
    pub kept: i64,
}

/// The factors at a column: if the pivot divides the entry, they are divided by it.
#[inline(always)]
pub fn factors_of(pivot: i64, entry: i64) -> Factors
    requires positive { pos 0 <ℤ pivot }
    ensures { AreLazyFactors pivot entry result.row result.kept }
{
    if entry % pivot == 0 {
        Factors {
            row: 1,
            kept: entry / pivot,
        }
    } else {
        Factors {
            row: pivot,
            kept: entry,
        }
    }
}

/// The extent of the row after a step, if its numbers are small.
fn room(factors: Factors, row: Extent, kept: Extent) -> Option<Extent>
    ensures { IfSome result (λ e. HasRoom factors.row factors.kept row.bound row.end kept.bound
        kept.end e.bound e.end) }
{
    let first = u128::from(factors.row.unsigned_abs()) * u128::from(row.bound);
    let second = u128::from(factors.kept.unsigned_abs()) * u128::from(kept.bound);
    if first >= ROOM || second >= ROOM {
        return None;
    }
    Some(Extent {
        bound: (first + second) as u64,
        end: row.end.max(kept.end),
    })
}

/// Subtracts the kept row times its factor from the row, if both rows are 0 outside of these
/// columns.
fn subtract(factor: i64, row: &mut [i64], kept: &[i128], from: usize, to: usize)
    requires columns { length kept.now ≡ length row.old }
    requires within { to ≤ length row.old }
    requires row { (k : ℕ) → unsigned_abs (at_column row.old k) < 2 ^ 62 }
    requires kept { (k : ℕ) → unsigned_abs (factor *ℤ at_column kept.now k) < 2 ^ 62 }
    requires entries { (k : ℕ) → unsigned_abs (at_column kept.now k) < 2 ^ 63 }
    requires row_zero { IsZeroOutside from to row.old }
    requires kept_zero { IsZeroOutside from to kept.now }
    ensures { row.new ≡ differences (scaled (pos 1) row.old) (scaled factor kept.now) }
{
    for i in from..to {
        row[i] -= factor * (kept[i] as i64);
    }
}

/// Puts the row times its factor less the kept row times its own in the place of the row, if both
/// rows are 0 outside of these columns.
fn scale_and_subtract(factors: Factors, row: &mut [i64], kept: &[i128], from: usize, to: usize)
    requires columns { length kept.now ≡ length row.old }
    requires within { to ≤ length row.old }
    requires row { (k : ℕ) → unsigned_abs (factors.row *ℤ at_column row.old k) < 2 ^ 62 }
    requires kept { (k : ℕ) → unsigned_abs (factors.kept *ℤ at_column kept.now k) < 2 ^ 62 }
    requires entries { (k : ℕ) → unsigned_abs (at_column kept.now k) < 2 ^ 63 }
    requires row_zero { IsZeroOutside from to row.old }
    requires kept_zero { IsZeroOutside from to kept.now }
    ensures { row.new ≡ differences (scaled factors.row row.old) (scaled factors.kept kept.now) }
{
    for i in from..to {
        row[i] = factors.row * row[i] - factors.kept * (kept[i] as i64);
    }
}

/// Puts the row times its factor less the kept row times its own in the place of the row, if both
/// rows are 0 outside of these columns.
fn combine_within(factors: Factors, row: &mut [i64], kept: &[i128], from: usize, to: usize)
    requires columns { length kept.now ≡ length row.old }
    requires within { to ≤ length row.old }
    requires row { (k : ℕ) → unsigned_abs (factors.row *ℤ at_column row.old k) < 2 ^ 62 }
    requires kept { (k : ℕ) → unsigned_abs (factors.kept *ℤ at_column kept.now k) < 2 ^ 62 }
    requires entries { (k : ℕ) → unsigned_abs (at_column kept.now k) < 2 ^ 63 }
    requires row_zero { IsZeroOutside from to row.old }
    requires kept_zero { IsZeroOutside from to kept.now }
    ensures { row.new ≡ differences (scaled factors.row row.old) (scaled factors.kept kept.now) }
{
    if factors.row == 1 {
        subtract(factors.kept, row, kept, from, to);
    } else {
        scale_and_subtract(factors, row, kept, from, to);
    }
}

/// One step at the column, if its numbers are small.
fn step_once(
    kept: &[i128],
    kept_extent: Extent,
    row: &mut [i64],
    extent: Extent,
    column: usize,
) -> Option<Extent>
    requires columns { length kept.now ≡ length row.old }
    requires within { column < length row.old }
    requires kept_extent { IsExtent kept_extent.bound kept_extent.end kept.now }
    requires extent { IsExtent extent.bound extent.end row.old }
    requires bound { extent.bound < 2 ^ 63 }
    requires kept_zero { (k : ℕ) → k < column → at_column kept.now k ≡ pos 0 }
    requires row_zero { (k : ℕ) → k < column → at_column row.old k ≡ pos 0 }
    requires positive { pos 0 <ℤ at_column kept.now column }
    requires some { at_column row.old column ≢ pos 0 }
    ensures step { IfSome result (λ _. (other : List ℤ) → IsMultipleRow other row.old →
        IsLazyStep kept.now other row.new column) }
    ensures extent { IfSome result (λ e. IsExtent e.bound e.end row.new) }
    ensures bound { IfSome result (λ e. e.bound < 2 ^ 63) }
    ensures same { IsNone result → row.new ≡ row.old }
{
    if kept_extent.bound >= GREATEST_BOUND {
        return None;
    }
    let factors = factors_of(kept[column] as i64, row[column]);
    match room(factors, extent, kept_extent) {
        None => None,
        Some(next) => {
            combine_within(factors, row, kept, column, next.end);
            Some(next)
        }
    }
}

/// Reads a row whose numbers are small.
pub(crate) fn load(row: &mut [i64], wide: &[i128])
    requires columns { length wide.now ≡ length row.old }
    requires small { (k : ℕ) → unsigned_abs (at_column wide.now k) < 2 ^ 63 }
    ensures { row.new ≡ wide.now }
{
    for i in 0..row.len() {
        row[i] = wide[i] as i64;
    }
}

/// Writes a row with 128 bits a number.
pub fn store(row: &[i64], wide: &mut [i128])
    requires columns { length wide.old ≡ length row.now }
    ensures { wide.new ≡ row.now }
{
    for i in 0..wide.len() {
        wide[i] = i128::from(row[i]);
    }
}

/// The greatest common divisor of a number and of the absolute value of another.
#[inline(always)]
pub fn divisor_with(divisor: u64, x: i64) -> u64
    requires divisor { divisor < 2 ^ 63 }
    requires small { unsigned_abs x < 2 ^ 63 }
    ensures value { IsGcd divisor (unsigned_abs x) result }
    ensures small { result < 2 ^ 63 }
{
    if x == 0 {
        return divisor;
    }
    gcd(u128::from(x.unsigned_abs()), u128::from(divisor)) as u64
}

/// The greatest common divisor of all entries of a row that is 0 outside of these columns; 0 if all
/// are 0.
fn divisor_within(row: &[i64], from: usize, to: usize) -> u64
    requires within { to ≤ length row.now }
    requires zero { IsZeroOutside from to row.now }
    requires small { (k : ℕ) → unsigned_abs (at_column row.now k) < 2 ^ 63 }
    ensures value { result ≡ gcd_of_row row.now }
    ensures small { result < 2 ^ 63 }
{
    let mut divisor: u64 = 0;
    for i in from..to {
        if divisor == 1 {
            return 1;
        }
        divisor = divisor_with(divisor, row[i]);
    }
    divisor
}

/// Divides a row that is 0 outside of these columns by the greatest common divisor of its entries.
fn divide_within(row: &mut [i64], divisor: u64, from: usize, to: usize)
    requires within { to ≤ length row.old }
    requires zero { IsZeroOutside from to row.old }
    requires divisor { divisor ≡ gcd_of_row row.old }
    requires small { divisor < 2 ^ 63 }
    requires some { 0 < divisor }
    ensures { row.new ≡ divided row.old }
{
    for i in from..to {
        row[i] /= divisor as i64;
    }
}

/// Divides a row that is 0 outside of these columns by the greatest common divisor of its entries,
/// if that is not 1.
fn divide_small(row: &mut [i64], from: usize, to: usize)
    requires within { to ≤ length row.old }
    requires zero { IsZeroOutside from to row.old }
    requires small { (k : ℕ) → unsigned_abs (at_column row.old k) < 2 ^ 63 }
    ensures { row.new ≡ divided row.old }
{
    let divisor = divisor_within(row, from, to);
    if divisor > 1 {
        divide_within(row, divisor, from, to);
    }
}

/// The greatest absolute value of a row that is 0 outside of these columns.
fn bound_within(row: &[i64], from: usize, to: usize) -> u64
    requires within { to ≤ length row.now }
    requires zero { IsZeroOutside from to row.now }
    requires small { (k : ℕ) → unsigned_abs (at_column row.now k) < 2 ^ 63 }
    ensures bound { (k : ℕ) → unsigned_abs (at_column row.now k) ≤ result }
    ensures small { result < 2 ^ 63 }
{
    let mut bound: u64 = 0;
    for i in from..to {
        bound = bound.max(row[i].unsigned_abs());
    }
    bound
}

/// Divides a row that is 0 before the column by the greatest common divisor of its entries, and
/// gives its extent then.
fn tighten(row: &mut [i64], extent: Extent, column: usize) -> Extent
    requires extent { IsExtent extent.bound extent.end row.old }
    requires bound { extent.bound < 2 ^ 63 }
    requires row_zero { (k : ℕ) → k < column → at_column row.old k ≡ pos 0 }
    ensures value { row.new ≡ divided row.old }
    ensures extent { IsExtent result.bound result.end row.new }
    ensures bound { result.bound < 2 ^ 63 }
{
    divide_small(row, column, extent.end);
    Extent {
        bound: bound_within(row, column, extent.end),
        end: extent.end,
    }
}

/// A step at the column, if its numbers are small, or are small once the row is divided. Only a row
/// that comes from a step is divided, since each such row is divided in the definition. If there is
/// no step, the row of the definition is written with 128 bits a number.
pub(crate) fn step(
    kept: &[i128],
    kept_extent: Extent,
    row: &mut [i64],
    extent: Extent,
    column: usize,
    exact: &mut [i128],
    is_stepped: bool,
) -> Option<Extent>
    requires columns { length kept.now ≡ length row.old }
    requires exact { length exact.old ≡ length row.old }
    requires within { column < length row.old }
    requires kept_extent { IsExtent kept_extent.bound kept_extent.end kept.now }
    requires extent { IsExtent extent.bound extent.end row.old }
    requires bound { extent.bound < 2 ^ 63 }
    requires kept_zero { (k : ℕ) → k < column → at_column kept.now k ≡ pos 0 }
    requires row_zero { (k : ℕ) → k < column → at_column row.old k ≡ pos 0 }
    requires positive { pos 0 <ℤ at_column kept.now column }
    requires some { at_column row.old column ≢ pos 0 }
    ensures step { IfSome result (λ _. (other : List ℤ) → IsMultipleRow other row.old →
        IsExactly is_stepped other row.old →
        IsLazyStep kept.now other row.new column) }
    ensures extent { IfSome result (λ e. IsExtent e.bound e.end row.new) }
    ensures bound { IfSome result (λ e. e.bound < 2 ^ 63) }
    ensures exact { IsNone result → (other : List ℤ) → IsMultipleRow other row.old →
        IsExactly is_stepped other row.old →
        exact.new ≡ other }
    ensures fits { IsNone result → All Fits exact.new }
{
    if let Some(next) = step_once(kept, kept_extent, row, extent, column) {
        return Some(next);
    }
    if !is_stepped {
        store(row, exact);
        return None;
    }
    let tight = tighten(row, extent, column);
    match step_once(kept, kept_extent, row, tight, column) {
        None => {
            store(row, exact);
            None
        }
        Some(next) => Some(next),
    }
}

/// Where the steps in 64 bits come to.
pub enum Reached {
    /// To the end, with something left of the row at this column, or with nothing.
    End(Option<u32>),
    /// To a column whose step may have large numbers.
    Column(usize),
}

/// Takes a row through the columns as far as its numbers stay small, and adds to `reduce` the
/// columns at which it is reduced. It becomes a multiple of the row of the definition; if a step
/// may have large numbers, that row itself is written with 128 bits a number.
pub(crate) fn reduce_lazily(
    kept: &KeptRows,
    row: &mut [i64],
    first_extent: Extent,
    exact: &mut [i128],
    reduce: &mut Vec<u32>,
) -> Result<Reached, AllocError>
    requires kept { AreKept (length row.old) kept.now }
    requires exact { length exact.old ≡ length row.old }
    requires extent { IsExtent first_extent.bound first_extent.end row.old }
    requires bound { first_extent.bound < 2 ^ 63 }
    requires empty { reduce.old.items ≡ [] }
    ensures reached { IfOk result (λ r. IsReached (rows_of kept.now)
        (inserted (length row.old) (rows_of kept.now) row.old)
        r row.new exact.new reduce.new.items) }
    ensures within { IfOk result (λ r. IsReachedWithin
        (length row.old) kept.now.log.items r row.new exact.new) }
{
    let rows = kept.rows.as_slice();
    let extents = kept.extents.as_slice();
    let places = kept.places.as_slice();
    reduce.reserve(row.len())?;
    let mut extent = first_extent;
    let mut is_stepped = false;
    for column in 0..row.len() {
        if row[column] != 0 {
            let Some(place) = places[column] else {
                return Ok(Reached::End(Some(column as u32)));
            };
            let next = step(
                rows[place as usize].as_slice(),
                extents[place as usize],
                row,
                extent,
                column,
                exact,
                is_stepped,
            );
            match next {
                None => return Ok(Reached::Column(column)),
                Some(after) => {
                    reduce.push_reserved(column as u32);
                    extent = after;
                    is_stepped = true;
                }
            }
        }
    }
    Ok(Reached::End(None))
}
