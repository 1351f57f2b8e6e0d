//! The rule `minimal`: all tests of minimality of a function.
ghost use Rattle.std.specs.Prelude.{◌≡◌, ◌+◌, ◌*◌, ◌<◌, ◌≤◌, ◌↔◌, IsTrue, length};
ghost use Rattle.gj_shape.specs.Limits.{greatest_order};
ghost use Rattle.gj_shape.specs.FunctionData.{IsWithinBounds};
ghost use Rattle.gj_shape.specs.FirstViolation.{Passes, PassesAll};
ghost use Rattle.gj_shape.specs.FirstViolation.Test.{zero_at_zero};
ghost use Rattle.gj_theory.specs.EarlierTests.{PassesSymmetry};
ghost use Rattle.gj_check_minimal.specs.Tests.{HasNonnegativeValues, IsSymmetric};
ghost use Rattle.gj_check_minimal.specs.Tests.{IsSubadditive, IsSubadditiveOnGrid};
ghost use Rattle.gj_check_minimal.specs.Numerators.{HasNoNegative, AreSmall, AreOpposite};
ghost use Rattle.gj_check_minimal.specs.Numerators.{AreOppositeBetween};
ghost use Rattle.gj_check_minimal.specs.Lanes.{AreLanesOf};
ghost use Rattle.gj_check_minimal.specs.Tables.{AreTwoPeriods};

use crate::entries::Entry;
use crate::pieces::{adds_up, wrapped};
use crate::squares::Lanes;
use crate::tables::is_subadditive_by;
use gj_loops::{UnsignedLane, write_periods};
use gj_shape::{GREATEST_ORDER, Shape};

/// How many entries there are: those of two periods of the greatest order.
const COUNT: usize = 2 * GREATEST_ORDER as usize;

/// The orders up to it are small.
const SMALL_ORDER: u32 = 120;

/// How many entries serve a small order.
const SMALL_COUNT: usize = 2 * SMALL_ORDER as usize;

/// How many lanes there are: those of two periods, and one more.
const LANES: usize = COUNT + 1;

/// Whether all tests of minimality pass. It takes no memory.
pub fn is_minimal(shape: &Shape) -> bool
    ensures { IsTrue result ↔ PassesAll shape.now }
{
    if !is_zero_at_zero(shape) {
        return false;
    }
    if !is_nonnegative(shape) {
        return false;
    }
    if !is_symmetric(shape) {
        return false;
    }
    is_subadditive(shape)
}

/// Whether the value at 0 is 0.
fn is_zero_at_zero(shape: &Shape) -> bool
    ensures { IsTrue result ↔ Passes shape.now zero_at_zero }
{
    shape.value_numerators()[0] == 0
}

/// Whether no value and no limit is negative.
fn is_nonnegative(shape: &Shape) -> bool
    ensures { IsTrue result ↔ HasNonnegativeValues shape.now }
{
    if !has_no_negative(shape.value_numerators()) {
        return false;
    }
    if !has_no_negative(shape.right_numerators()) {
        return false;
    }
    has_no_negative(shape.left_numerators())
}

/// Whether none of the numbers is negative.
fn has_no_negative(numbers: &[i64]) -> bool
    requires { AreSmall numbers.now }
    ensures { IsTrue result ↔ HasNoNegative numbers.now }
{
    for i in 0..numbers.len() {
        if numbers[i] < 0 {
            return false;
        }
    }
    true
}

/// Whether the values at x and f - x add up to 1, at grid points and between them.
fn is_symmetric(shape: &Shape) -> bool
    ensures { IsTrue result ↔ IsSymmetric shape.now }
{
    let place = shape.place() as usize;
    let total = shape.common_denominator() as i64;
    let values = shape.value_numerators();
    if !are_opposite(values, values, place, total) {
        return false;
    }
    are_opposite(
        shape.right_numerators(),
        shape.left_numerators(),
        place,
        total,
    )
}

/// Whether each of the numbers adds up to the total with that of the others at the place less its
/// index, modulo their count.
fn are_opposite(numbers: &[i64], others: &[i64], place: usize, total: i64) -> bool
    requires count { length others.now ≡ length numbers.now }
    requires few { length numbers.now ≤ greatest_order }
    requires place { place < length numbers.now }
    requires numbers { AreSmall numbers.now }
    requires others { AreSmall others.now }
    ensures { IsTrue result ↔ AreOpposite numbers.now others.now place total }
{
    let count = numbers.len();
    if !are_opposite_between(numbers, others, 0, place + 1, place, total) {
        return false;
    }
    are_opposite_between(numbers, others, place + 1, count, place + count, total)
}

/// Whether each of the numbers from an index up to another adds up to the total with that of the
/// others whose index makes up the sum.
fn are_opposite_between(
    numbers: &[i64],
    others: &[i64],
    from: usize,
    end: usize,
    sum: usize,
    total: i64,
) -> bool
    requires few { sum ≤ 2 * greatest_order }
    requires end { end ≤ length numbers.now }
    requires low { end ≤ sum + 1 }
    requires high { sum < from + length others.now }
    requires numbers { AreSmall numbers.now }
    requires others { AreSmall others.now }
    ensures { IsTrue result ↔ AreOppositeBetween numbers.now others.now from end sum total }
{
    for i in from..end {
        if !adds_up(numbers[i], others[sum - i], total) {
            return false;
        }
    }
    true
}

/// Whether no limit of the slack is negative in any square. Those of a continuous function are
/// slacks at grid points. The other functions are tested over lanes of the fewest bits that serve.
fn is_subadditive(shape: &Shape) -> bool
    requires { PassesSymmetry shape.now }
    ensures { IsTrue result ↔ IsSubadditive shape.now }
{
    if shape.is_continuous() {
        return is_subadditive_on_grid(shape);
    }
    if shape.common_denominator() <= i128::from(i16::MAX) {
        return is_subadditive_over(
            shape,
            &mut [0u16; LANES],
            &mut [0u16; LANES],
            &mut [0u16; LANES],
        );
    }
    is_subadditive_over(
        shape,
        &mut [0u32; LANES],
        &mut [0u32; LANES],
        &mut [0u32; LANES],
    )
}

/// Whether no slack at grid points is negative, over entries of the fewest bits that serve; of a
/// small order, over few.
fn is_subadditive_on_grid(shape: &Shape) -> bool
    requires { PassesSymmetry shape.now }
    ensures grid { IsTrue result ↔ IsSubadditiveOnGrid shape.now }
    ensures limits { IsWithinBounds shape.now }
{
    if shape.common_denominator() > i128::from(i16::MAX) {
        return is_subadditive_in(shape, &mut [0i32; COUNT]);
    }
    if shape.order() <= SMALL_ORDER {
        is_subadditive_in(shape, &mut [0i16; SMALL_COUNT])
    } else {
        is_subadditive_in(shape, &mut [0i16; COUNT])
    }
}

/// The same over entries of one width, in which the common denominator fits: these are written
/// over.
fn is_subadditive_in<E: Entry>(shape: &Shape, entries: &mut [E]) -> bool
    requires symmetric { PassesSymmetry shape.now }
    requires room { 2 * shape.now.order ≤ length entries.old }
    requires fits { shape.now.scale < E.bound }
    ensures { IsTrue result ↔ IsSubadditiveOnGrid shape.now }
{
    write_two_periods(shape, entries);
    is_subadditive_by(entries, shape.order() as usize, shape.place() as usize)
}

/// Writes the values of two periods.
fn write_two_periods<E: Entry>(shape: &Shape, entries: &mut [E])
    requires symmetric { PassesSymmetry shape.now }
    requires room { 2 * shape.now.order ≤ length entries.old }
    requires fits { shape.now.scale < E.bound }
    ensures { AreTwoPeriods E.number entries.new shape.now.value }
{
    let values = shape.value_numerators();
    let order = values.len();
    for i in 0..2 * order {
        entries[i] = E::of(i128::from(values[wrapped(i, order)]));
    }
}

/// Whether no limit of the slack is negative in any square, over lanes of one width, in which the
/// common denominator fits: these are written over.
fn is_subadditive_over<L: UnsignedLane>(
    shape: &Shape,
    value: &mut [L],
    right: &mut [L],
    left: &mut [L],
) -> bool
    requires symmetric { PassesSymmetry shape.now }
    requires fits { shape.now.scale < L.bound }
    requires value { 2 * greatest_order < length value.old }
    requires right { 2 * greatest_order < length right.old }
    requires left { 2 * greatest_order < length left.old }
    ensures { IsTrue result ↔ IsSubadditive shape.now }
{
    write_periods(value, shape.value_numerators());
    write_periods(right, shape.right_numerators());
    write_periods(left, shape.left_numerators());
    is_subadditive_between(shape, Lanes { value, right, left })
}

/// Whether no limit of the slack is negative in any square. The squares (a, b) and (b, a) have the
/// same limits, so half are tested.
fn is_subadditive_between<L: UnsignedLane>(shape: &Shape, lanes: Lanes<'_, L>) -> bool
    requires { AreLanesOf L.number L.least L.bound shape.now lanes }
    ensures { IsTrue result ↔ IsSubadditive shape.now }
{
    for a in 0..shape.order() as usize {
        if !lanes.is_subadditive_row(shape, a) {
            return false;
        }
    }
    true
}
