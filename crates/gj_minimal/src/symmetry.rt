//! The tests of symmetry.
ghost use Rattle.std.specs.Prelude.{◌≡◌, ◌<◌, ◌↔◌, pos, IsTrue, IfSome, IfNone};
ghost use Rattle.gj_shape.specs.FunctionData.{IsWithinBounds, IsContinuous};
ghost use Rattle.gj_shape.specs.FirstViolation.{Passes, MidpointsAgree};
ghost use Rattle.gj_shape.specs.FirstViolation.Test.{symmetric_at, symmetric_between};
ghost use Rattle.gj_theory.specs.EarlierTests.{PassesSigns, PassesMirrors, PassesSymmetry};
ghost use Rattle.gj_minimal.specs.Failures.{FailsFirst};

use crate::failures::Failure;
use gj_shape::Shape;

/// The first failed test of symmetry at grid points.
pub(crate) fn failed_mirror(shape: &Shape) -> Option<Failure>
    requires { PassesSigns shape.now }
    ensures found { IfSome result (FailsFirst shape.now) }
    ensures none { IfNone result (PassesMirrors shape.now) }
{
    for i in 0..shape.order() {
        if !is_mirrored(shape, i) {
            return Some(Failure::Mirror(i));
        }
    }
    None
}

/// The first failed test of symmetry on open intervals. A continuous function that is symmetric at
/// grid points needs no test.
pub(crate) fn failed_interval_mirror(shape: &Shape, is_continuous: bool) -> Option<Failure>
    requires mirrors { PassesMirrors shape.now }
    requires continuous { IsTrue is_continuous → IsContinuous shape.now }
    requires limits { IsWithinBounds shape.now }
    ensures found { IfSome result (FailsFirst shape.now) }
    ensures none { IfNone result (PassesSymmetry shape.now) }
{
    if is_continuous {
        return None;
    }
    for i in 0..shape.order() {
        if !is_interval_mirrored(shape, i) {
            return Some(Failure::Interval(i));
        }
    }
    None
}

/// Whether the values at i/q and at f - i/q add up to 1.
fn is_mirrored(shape: &Shape, i: u32) -> bool
    requires { i < shape.now.order }
    ensures { IsTrue result ↔ Passes shape.now (symmetric_at i) }
{
    let opposite = shape.place() + (shape.order() - i);
    shape.value_numerator(i) + shape.value_numerator(opposite) == scale(shape)
}

/// Whether on the open interval from i/q to (i + 1)/q the values at x and at f - x add up to 1.
fn is_interval_mirrored(shape: &Shape, i: u32) -> bool
    requires { i < shape.now.order }
    ensures { IsTrue result ↔ Passes shape.now (symmetric_between i) }
{
    let opposite_end = shape.place() + (shape.order() - i);
    let opposite_start = shape.place() + (shape.order() - (i + 1));
    shape.right_numerator(i) + shape.left_numerator(opposite_end) == scale(shape)
        && shape.left_numerator(i + 1) + shape.right_numerator(opposite_start) == scale(shape)
}

/// Whether the values at (i + 1/2)/q and at f less that add up to 1.
pub(crate) fn midpoints_agree(shape: &Shape, i: u32) -> bool
    requires { i < shape.now.order }
    ensures { IsTrue result ↔ MidpointsAgree shape.now i }
{
    let opposite_end = shape.place() + (shape.order() - i);
    let opposite_start = shape.place() + (shape.order() - (i + 1));
    let double = shape.right_numerator(i) + shape.left_numerator(i + 1);
    let opposite_double = shape.right_numerator(opposite_start)
        + shape.left_numerator(opposite_end);
    double + opposite_double == 2 * scale(shape)
}

/// The number that stands for 1.
fn scale(shape: &Shape) -> i64
    ensures value { result ≡ pos shape.now.scale }
    ensures limits { IsWithinBounds shape.now }
{
    shape.common_denominator() as i64
}
