//! The value of the fill-in at a fraction.
ghost use Rattle.std.specs.Prelude.{◌≡◌, ◌<◌, ◌≤◌, ◌^◌, ◌+◌, ◌+ℤ◌, ◌*ℤ◌, pos, unsigned_abs};
ghost use Rattle.gj_frac.specs.Fraction.{numerator, denominator};
ghost use Rattle.gj_shape.specs.FunctionData.{at};
ghost use Rattle.gj_shape.specs.Limits.{IsRowNumber, greatest_order};
ghost use Rattle.gj_shape.specs.Values.{IsCongruent};
ghost use Rattle.gj_fill.specs.FilledValue.{IsFilledValue, IsPlaceOf};

use crate::fill_in::{over_width, sum_of_products};
use crate::steps::{Steps, greatest_steps};
use gj_frac::Frac;
use gj_shape::Shape;

/// A place of period 1: behind index/q by `part` of `parts` equal parts of the way to the next
/// multiple of 1/q, so that `rest` are left.
#[derive(Clone, Copy)]
struct Place {
    index: u32,
    part: i64,
    rest: i64,
    parts: i64,
}

/// What the lines are at a place that go through the multiples of 1/q before and behind it, times
/// the common denominator and the parts.
#[derive(Clone, Copy)]
struct Lines {
    rising: i128,
    falling: i128,
}

/// The value of the two-slope fill-in at x: the lesser there of the line that rises by the greatest
/// rise from the multiple of 1/q before x, and the line that falls by the greatest fall to the one
/// behind it.
///
/// x has a denominator of at most 2^31 - 1 and is at most 2^31 in absolute value. Between its
/// multiples of 1/q the function is not looked at, and it need not be subadditive. Source: Gomory
/// and Johnson, "Some continuous functions related to corner polyhedra" (1972).
pub fn filled_value(shape: &Shape, x: Frac) -> Frac
    requires { IsRowNumber x }
    ensures { IsFilledValue shape.now x result }
{
    let steps = greatest_steps(shape);
    let place = place_of(x, shape.order());
    let lines = lines_at(shape, steps, place);
    let scale = shape.common_denominator() as u32;
    if lines.rising <= lines.falling {
        return over_width(lines.rising, scale, place.parts);
    }
    over_width(lines.falling, scale, place.parts)
}

/// The two lines at a place.
fn lines_at(shape: &Shape, steps: Steps, place: Place) -> Lines
    requires within { place.index < shape.now.order }
    requires parts { unsigned_abs place.parts < 2 ^ 31 }
    requires part { unsigned_abs place.part < 2 ^ 31 }
    requires rest { unsigned_abs place.rest < 2 ^ 31 }
    ensures rising { result.rising ≡ place.parts *ℤ at shape.now.value place.index +ℤ
        place.part *ℤ steps.rise }
    ensures falling { result.falling ≡ place.parts *ℤ at shape.now.value
        (place.index + 1) +ℤ place.rest *ℤ steps.fall }
    ensures rising_small { unsigned_abs result.rising ≤ 2 ^ 107 }
    ensures falling_small { unsigned_abs result.falling ≤ 2 ^ 107 }
{
    let before = shape.value_numerator(place.index);
    let behind = shape.value_numerator(place.index + 1);
    let rising = sum_of_products(place.parts, before, place.part, steps.rise);
    let falling = sum_of_products(place.parts, behind, place.rest, steps.fall);
    Lines { rising, falling }
}

/// Where x lies modulo 1, for the order q.
fn place_of(x: Frac, q: u32) -> Place
    requires range { IsRowNumber x }
    requires some { 1 ≤ q }
    requires few { q ≤ greatest_order }
    ensures { IsPlaceOf q x result }
{
    let parts = x.den() as u64;
    let place = u64::from(q) * rest_of(x);
    let part = place % parts;
    Place {
        index: (place / parts) as u32,
        part: part as i64,
        rest: (parts - part) as i64,
        parts: parts as i64,
    }
}

/// What the floor of x leaves of its numerator.
fn rest_of(x: Frac) -> u64
    requires { IsRowNumber x }
    ensures below { result < unsigned_abs (denominator x) }
    ensures congruent { IsCongruent (numerator x) (pos result) (unsigned_abs (denominator x)) }
{
    x.num().rem_euclid(x.den()) as u64
}
