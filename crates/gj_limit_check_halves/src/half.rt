//! One of two halves, as a function, and the tests of its minimality.
ghost use Rattle.std.specs.Prelude.{◌≡◌, ◌↔◌, ◌<◌, IsTrue};
ghost use Rattle.gj_shape.specs.FirstViolation.{Passes, PassesAll};
ghost use Rattle.gj_shape.specs.FirstViolation.Test.{zero_at_zero};
ghost use Rattle.gj_check_minimal.specs.Numerators.{AreOpposite};
ghost use Rattle.gj_check_minimal.specs.Tests.{IsSymmetric, IsSubadditive};
ghost use Rattle.gj_limit_check_halves.specs.Half.{AreNumbersOf, IsHalf, data_of};

use crate::rows::is_subadditive_row;
use gj_shape::wrapped;

/// A function by its numbers at each point of a grid, and the scale of all numbers.
#[derive(Clone, Copy)]
pub(crate) struct Half<'a> {
    /// The order of the grid, from 2 to 4,000.
    pub(crate) order: u32,
    /// The index of f on the grid.
    pub(crate) place: u32,
    /// The scale of the numbers, at most 2^124.
    pub(crate) scale: i128,
    /// The limits from the left.
    pub(crate) left: &'a [i128],
    /// The values.
    pub(crate) value: &'a [i128],
    /// The limits from the right.
    pub(crate) right: &'a [i128],
}

/// Whether all tests of minimality pass.
pub(crate) fn is_minimal(half: Half<'_>) -> bool
    requires { IsHalf half }
    ensures { IsTrue result ↔ PassesAll (data_of half.entry) }
{
    if !is_zero_at_zero(half) {
        return false;
    }
    if !is_symmetric(half) {
        return false;
    }
    is_subadditive(half)
}

/// Whether the value at 0 is 0.
fn is_zero_at_zero(half: Half<'_>) -> bool
    requires { IsHalf half }
    ensures { IsTrue result ↔ Passes (data_of half.entry) zero_at_zero }
{
    half.value[0] == 0
}

/// Whether the values at x and at f - x add up to 1, at points of the grid and between them.
fn is_symmetric(half: Half<'_>) -> bool
    requires { IsHalf half }
    ensures { IsTrue result ↔ IsSymmetric (data_of half.entry) }
{
    if !are_opposite(half, half.value, half.value) {
        return false;
    }
    are_opposite(half, half.right, half.left)
}

/// Whether each of the numbers adds up to the scale with that of the others at the place less its
/// index, modulo the order.
fn are_opposite(half: Half<'_>, numbers: &[i128], others: &[i128]) -> bool
    requires half { IsHalf half }
    requires numbers { AreNumbersOf half numbers.now }
    requires others { AreNumbersOf half others.now }
    ensures { IsTrue result ↔ AreOpposite numbers.now others.now half.entry.place half.entry.scale }
{
    for i in 0..half.order {
        let opposite = wrapped(half.place + (half.order - i), half.order);
        if numbers[i as usize] + others[opposite as usize] != half.scale {
            return false;
        }
    }
    true
}

/// Whether no limit of the slack is negative in any square. The squares (a, b) and (b, a) have the
/// same limits, so half are tested.
fn is_subadditive(half: Half<'_>) -> bool
    requires { IsHalf half }
    ensures { IsTrue result ↔ IsSubadditive (data_of half.entry) }
{
    for a in 0..half.order {
        if !is_subadditive_row(half, a) {
            return false;
        }
    }
    true
}
