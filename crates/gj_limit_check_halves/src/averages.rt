//! Averages of two numbers of halves.
ghost use Rattle.std.specs.Prelude.{pos, ◌≡◌, ◌↔◌, ◌+ℤ◌, ◌*◌, ◌*ℤ◌, ◌<◌, ◌≤◌, ◌^◌, IsTrue, All};
ghost use Rattle.std.specs.Prelude.{length, unsigned_abs};
ghost use Rattle.gj_shape.specs.FunctionData.{at};
ghost use Rattle.gj_shape.specs.Limits.{greatest_halves_order, greatest_halves_scale, IsNumerator};
ghost use Rattle.gj_shape.specs.Refinement.{refined};
ghost use Rattle.gj_limit_check_halves.specs.HalvesOutcome.{IsPointOf, HasNumberAt};

use gj_check::Refinement;
use gj_shape::Shape;

/// Whether half the sum of two numbers of halves at a point is what these numbers of the function
/// are there, over the scale of the halves.
pub(crate) fn is_average(
    shape: &Shape,
    numbers: &[i64],
    refinement: Refinement,
    index: u32,
    first: &[i128],
    second: &[i128],
) -> bool
    requires length { length numbers.now ≡ shape.now.order }
    requires small { All IsNumerator numbers.now }
    requires point { IsPointOf shape.now refinement index }
    requires first { HasNumberAt first.now index }
    requires second { HasNumberAt second.now index }
    ensures { IsTrue result ↔ (at first.now index +ℤ at second.now index
        ≡ pos (2 * refinement.factor) *ℤ refined shape.now numbers.now refinement.times index) }
{
    let sum = first[index as usize] + second[index as usize];
    let number = refined_number(shape, numbers, refinement.times, index);
    is_twice(sum, refinement.factor, number)
}

/// Whether the sum is twice the product of the factor and the number.
fn is_twice(sum: i128, factor: u128, number: i128) -> bool
    requires { factor ≤ greatest_halves_scale }
    ensures { IsTrue result ↔ (sum ≡ pos (2 * factor) *ℤ number) }
{
    match (2 * factor as i128).checked_mul(number) {
        Some(total) => sum == total,
        None => false,
    }
}

/// What these numbers of the function are at a point of the grid that is so many times finer: one
/// of them, or the value between two limits.
fn refined_number(shape: &Shape, numbers: &[i64], times_finer: u32, index: u32) -> i128
    requires length { length numbers.now ≡ shape.now.order }
    requires small { All IsNumerator numbers.now }
    requires some { 0 < times_finer }
    requires few { times_finer ≤ greatest_halves_order }
    requires within { index < shape.now.order * times_finer }
    ensures { result ≡ refined shape.now numbers.now times_finer index }
{
    let here = index / times_finer;
    let rest = index % times_finer;
    if rest == 0 {
        return times(numbers[here as usize], times_finer);
    }
    let start = times(shape.right_numerator(here), times_finer - rest);
    start + times(shape.left_numerator(here + 1), rest)
}

/// The product of a numerator and a natural number.
fn times(n: i64, factor: u32) -> i128
    requires { IsNumerator n }
    ensures value { result ≡ n *ℤ pos factor }
    ensures fits { unsigned_abs result ≤ 2 ^ 83 }
{
    i128::from(n) * i128::from(factor)
}
