//! The tests of signs.
ghost use Rattle.std.specs.Prelude.{IsTrue, IfSome, IfNone};
ghost use Rattle.gj_shape.specs.FunctionData.{IsWithinBounds, IsContinuous};
ghost use Rattle.gj_theory.specs.EarlierTests.{PassesValues, PassesSigns};
ghost use Rattle.gj_minimal.specs.Failures.{FailsFirst};

use crate::failures::Failure;
use gj_shape::Shape;

/// The first failed test of the values at grid points: at 0 the value is 0, and at i/q it is not
/// negative.
pub(crate) fn failed_value(shape: &Shape) -> Option<Failure>
    ensures found { IfSome result (FailsFirst shape.now) }
    ensures none { IfNone result (PassesValues shape.now) }
    ensures limits { IsWithinBounds shape.now }
{
    if shape.value_numerator(0) != 0 {
        return Some(Failure::Zero);
    }
    for i in 0..shape.order() {
        if shape.value_numerator(i) < 0 {
            return Some(Failure::Value(i));
        }
    }
    None
}

/// The first failed test of the signs on open intervals: the limits at both ends are not negative.
/// Those of a continuous function are values, and need no test.
pub(crate) fn failed_interval_sign(shape: &Shape, is_continuous: bool) -> Option<Failure>
    requires values { PassesValues shape.now }
    requires continuous { IsTrue is_continuous → IsContinuous shape.now }
    requires limits { IsWithinBounds shape.now }
    ensures found { IfSome result (FailsFirst shape.now) }
    ensures none { IfNone result (PassesSigns shape.now) }
{
    if is_continuous {
        return None;
    }
    for i in 0..shape.order() {
        if shape.right_numerator(i) < 0 {
            return Some(Failure::Start(i));
        }
        if shape.left_numerator(i + 1) < 0 {
            return Some(Failure::End(i));
        }
    }
    None
}
