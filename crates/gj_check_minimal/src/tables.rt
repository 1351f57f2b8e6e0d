//! Minimal tables: the tests of the values of one period.
ghost use Rattle.std.specs.Prelude.{ℕ, ℤ, List, pos, ◌≡◌, ◌↔◌, ◌+◌, ◌*◌, ◌<◌, ◌≤◌, ◌<ℤ◌, IsTrue};
ghost use Rattle.std.specs.Prelude.{IfOk, length, unsigned_abs};
ghost use Rattle.gj_shape.specs.FunctionData.{at};
ghost use Rattle.gj_shape.specs.Limits.{greatest_halves_order};
ghost use Rattle.gj_shape.specs.Table.{IsMinimalTable};
ghost use Rattle.gj_check_minimal.specs.Tables.{IsTableInRange, IsSymmetricList, IsSubadditiveUpTo};
ghost use Rattle.gj_check_minimal.specs.Tables.{IsSubadditiveList, HasSubadditiveTotal};
ghost use Rattle.gj_check_minimal.specs.Tables.{HasSubadditiveTotals, HaveTwoPeriods};
ghost use Rattle.gj_check_minimal.specs.Tables.{AreTwoPeriods};

use crate::bends::{few_bends, pass_at_bends};
use crate::entries::Entry;
use crate::pieces::wrapped;
use std::alloc::{AllocError, Global};

/// Whether the table that repeats these values, over the scale and with f at the place, is minimal.
pub fn is_minimal_table(
    alloc: Global,
    values: &[i128],
    place: usize,
    scale: i128,
) -> Result<bool, AllocError>
    requires { IsTableInRange values.now place scale }
    ensures { IfOk result (λ minimal. IsTrue minimal
        ↔ IsMinimalTable (at values.now) (length values.now) place (unsigned_abs scale)) }
{
    if values[0] != 0 {
        return Ok(false);
    }
    if !is_symmetric_list(values, place, scale) {
        return Ok(false);
    }
    is_subadditive_list(alloc, values, place, scale)
}

/// Whether the values at i and at the place less i add up to the scale, for each i.
fn is_symmetric_list(values: &[i128], place: usize, scale: i128) -> bool
    requires { IsTableInRange values.now place scale }
    ensures { IsTrue result ↔ IsSymmetricList values.now place scale }
{
    let n = values.len();
    for i in 0..n {
        let opposite = wrapped(place + (n - i), n);
        if values[i] + values[opposite] != scale {
            return false;
        }
    }
    true
}

/// Whether no two values add up to less than the value at the sum of their indices.
fn is_subadditive_list(
    alloc: Global,
    values: &[i128],
    place: usize,
    scale: i128,
) -> Result<bool, AllocError>
    requires table { IsTableInRange values.now place scale }
    requires symmetric { IsSymmetricList values.now place scale }
    ensures { IfOk result (λ all. IsTrue all ↔ IsSubadditiveList values.now) }
{
    if scale <= i128::from(i16::MAX) {
        return is_subadditive_over::<i16>(alloc, values, place, scale);
    }
    if scale <= i128::from(i32::MAX) {
        return is_subadditive_over::<i32>(alloc, values, place, scale);
    }
    if scale <= i128::from(i64::MAX) {
        return is_subadditive_over::<i64>(alloc, values, place, scale);
    }
    is_subadditive_over::<i128>(alloc, values, place, scale)
}

/// The same over entries of one width, in which the scale fits.
fn is_subadditive_over<E: Entry>(
    alloc: Global,
    values: &[i128],
    place: usize,
    scale: i128,
) -> Result<bool, AllocError>
    requires table { IsTableInRange values.now place scale }
    requires symmetric { IsSymmetricList values.now place scale }
    requires fits { scale <ℤ pos E.bound }
    ensures { IfOk result (λ all. IsTrue all ↔ IsSubadditiveList values.now) }
{
    let periods = two_periods::<E>(alloc, values)?;
    Ok(is_subadditive_by(periods.as_slice(), values.len(), place))
}

/// The values of two periods as entries.
fn two_periods<E: Entry>(alloc: Global, values: &[i128]) -> Result<Vec<E>, AllocError>
    requires { (place : ℕ) × (scale : ℤ) × IsTableInRange values.now place scale
        × (scale <ℤ pos E.bound) }
    ensures { IfOk result (λ v. AreTwoPeriods E.number v.items values.now) }
{
    let n = values.len();
    let mut entries = Vec::with_capacity(alloc, 2 * n)?;
    for i in 0..2 * n {
        entries.push(E::of(values[wrapped(i, n)]))?;
    }
    Ok(entries)
}

/// Whether no two values add up to less than the value at the sum of their indices, by the entries
/// of two periods of so many values. Of a table with few bends only the pairs at these are tried.
pub(crate) fn is_subadditive_by<E: Entry>(entries: &[E], count: usize, place: usize) -> bool
    requires periods { HaveTwoPeriods E.number entries.now count }
    requires few { count ≤ greatest_halves_order }
    requires place { place < count }
    ensures { (values : List ℤ) → length values ≡ count → AreTwoPeriods E.number entries.now values
        → (HasSubadditiveTotals values place ↔ IsSubadditiveList values)
        → IsTrue result ↔ IsSubadditiveList values }
{
    let Some(bends) = few_bends(entries, count) else {
        return has_subadditive_totals(entries, count, place);
    };
    pass_at_bends(entries, count, &bends)
}

/// Whether the pairs pass that are tried, by the entries of two periods of so many values. Of three
/// indices that add up to the place modulo their number the pairs of any two pass or fail together,
/// if the values are symmetric: only that of the two least is tried.
fn has_subadditive_totals<E: Entry>(entries: &[E], count: usize, place: usize) -> bool
    requires periods { HaveTwoPeriods E.number entries.now count }
    requires few { count ≤ greatest_halves_order }
    requires place { place < count }
    ensures { (values : List ℤ) → length values ≡ count → AreTwoPeriods E.number entries.now values
        → IsTrue result ↔ HasSubadditiveTotals values place }
{
    if !has_subadditive_total(entries, count, place) {
        return false;
    }
    if !has_subadditive_total(entries, count, place + count) {
        return false;
    }
    has_subadditive_total(entries, count, place + 2 * count)
}

/// The same for three indices with this total. The least of them, i, is at most a third of it, and
/// the others are below the count.
fn has_subadditive_total<E: Entry>(entries: &[E], count: usize, total: usize) -> bool
    requires periods { HaveTwoPeriods E.number entries.now count }
    requires few { count ≤ greatest_halves_order }
    requires total { total < 3 * greatest_halves_order }
    ensures { (values : List ℤ) → length values ≡ count → AreTwoPeriods E.number entries.now values
        → IsTrue result ↔ HasSubadditiveTotal values total }
{
    let from = (total + 2).saturating_sub(2 * count);
    let end = count.min(total / 3 + 1);
    for i in from..end {
        if !is_subadditive_part(entries, count, total, i) {
            return false;
        }
    }
    true
}

/// The same for one i as the least of the three: no rise from a value to that at the sum is above
/// the value at i.
fn is_subadditive_part<E: Entry>(entries: &[E], count: usize, total: usize, i: usize) -> bool
    requires periods { HaveTwoPeriods E.number entries.now count }
    requires few { count ≤ greatest_halves_order }
    requires total { total < 3 * greatest_halves_order }
    requires within { i < count }
    requires least { 3 * i ≤ total }
    requires greatest { total + 2 ≤ i + 2 * count }
    ensures { (values : List ℤ) → length values ≡ count → AreTwoPeriods E.number entries.now values
        → IsTrue result ↔ IsSubadditiveUpTo values total i }
{
    let from = i.max((total + 1).saturating_sub(i + count));
    let end = (total + 2 - i) / 2;
    let first = entries[i];
    let mut rise = first;
    for j in from..end {
        rise = rise.max_rise(entries[j], entries[i + j]);
    }
    rise.is_at_most(first)
}
