//! The rule `point`: a violation is shown at its points.
ghost use Rattle.std.specs.Prelude.{pos, ◌≡◌, ◌≢◌, ◌↔◌, ◌<◌, ◌≤◌, ◌^◌, ◌*ℤ◌, [], ◌∷◌, IsTrue};
ghost use Rattle.std.specs.Prelude.{unsigned_abs};
ghost use Rattle.gj_frac.specs.Fraction.{IsRatio};
ghost use Rattle.gj_shape.specs.FunctionData.{IsWithinBounds};
ghost use Rattle.gj_shape.specs.Violation.{ShowsViolation};
ghost use Rattle.gj_shape.specs.declared.violations.Violation.TheVariants as violation;
ghost use Rattle.gj_proof.specs.Rules.{MeetsPoint};
ghost use Rattle.gj_check.specs.Coordinates.{AreCoordinates, IsScaledOpposite};

use crate::denominators::{are_coordinates, is_coordinate};
use gj_frac::Frac;
use gj_shape::{Shape, Violation};

/// Whether the violation's coordinates lie from 0 to below 1 and have a common denominator of at
/// most 2^62, and the violation is shown there. It takes no memory.
pub(crate) fn is_shown(shape: &Shape, violation: Violation) -> bool
    ensures { IsTrue result ↔ MeetsPoint shape.now violation }
{
    let values = shape.value_numerators();
    match violation {
        Violation::Zero => values[0] != 0,
        Violation::Negative(x) => is_coordinate(x) && is_negative_at(shape, x),
        Violation::Asymmetric(x) => is_coordinate(x) && is_asymmetric_at(shape, x),
        Violation::Superadditive(x, y) => {
            are_coordinates(x, y) && is_superadditive_at(shape, x, y)
        }
    }
}

/// Whether the value at x is negative.
fn is_negative_at(shape: &Shape, x: Frac) -> bool
    requires limits { IsWithinBounds shape.now }
    requires coordinates { AreCoordinates (x ∷ []) }
    ensures { IsTrue result ↔ ShowsViolation shape.now (violation.Negative x) }
{
    shape.value_at(x).num() < 0
}

/// Whether the values at x and at f - x do not add up to 1.
fn is_asymmetric_at(shape: &Shape, x: Frac) -> bool
    requires limits { IsWithinBounds shape.now }
    requires coordinates { AreCoordinates (x ∷ []) }
    ensures { IsTrue result ↔ ShowsViolation shape.now (violation.Asymmetric x) }
{
    let opposite = scaled_opposite(shape, x);
    let sum = shape.value_at(x) + shape.value_scaled(opposite);
    sum.num() != sum.den()
}

/// The number q (f - x), q being the order.
fn scaled_opposite(shape: &Shape, x: Frac) -> Frac
    requires { AreCoordinates (x ∷ []) }
    ensures { IsScaledOpposite shape.now x result }
{
    let num = times(x.den(), shape.place()) - times(x.num(), shape.order());
    Frac::reduced(num, x.den())
}

/// The product of a whole number of at most 2^62 in absolute value and a natural number.
pub(crate) fn times(n: i128, factor: u32) -> i128
    requires { unsigned_abs n ≤ 2 ^ 62 }
    ensures value { result ≡ n *ℤ pos factor }
    ensures fits { unsigned_abs result ≤ 2 ^ 94 }
{
    n * i128::from(factor)
}

/// Whether the values at x and y add up to less than the value at x + y.
fn is_superadditive_at(shape: &Shape, x: Frac, y: Frac) -> bool
    requires limits { IsWithinBounds shape.now }
    requires coordinates { AreCoordinates (x ∷ y ∷ []) }
    ensures { IsTrue result ↔ ShowsViolation shape.now (violation.Superadditive x y) }
{
    let sum = shape.value_at(x) + shape.value_at(y);
    sum < shape.value_at(x + y)
}
