//! The greatest rise and the greatest fall of a function from one multiple of 1/q to the next.
ghost use Rattle.std.specs.Prelude.{◌≡◌, ◌⊎◌, ◌<◌, ◌↔◌, neg_ℤ, IsTrue};
ghost use Rattle.gj_shape.specs.FunctionData.{at};
ghost use Rattle.gj_shape.specs.TwoSlopes.{rise, HasTwoSlopes};
ghost use Rattle.gj_fill.specs.StepSizes.{IsStepSize};
ghost use Rattle.gj_fill.specs.FillIn.{AreGreatestSteps};

use gj_shape::Shape;

/// The greatest rise and the greatest fall, times the common denominator.
#[derive(Clone, Copy)]
pub(crate) struct Steps {
    pub(crate) rise: i64,
    pub(crate) fall: i64,
    ghost rise_small: { IsStepSize rise },
    ghost fall_small: { IsStepSize fall },
}

/// What the function rises by from a/q to the next multiple of 1/q, times the common denominator.
pub(crate) fn rise_at(shape: &Shape, a: u32) -> i64
    requires { a < shape.now.order }
    ensures value { result ≡ rise shape.now a }
    ensures small { IsStepSize result }
{
    let here = shape.value_numerator(a);
    shape.value_numerator(a + 1) - here
}

/// The greatest rise and the greatest fall from one place to the next, and behind the last one to
/// the first.
pub(crate) fn greatest_steps(shape: &Shape) -> Steps
    ensures { AreGreatestSteps (at shape.now.value) result.rise result.fall }
{
    let order = shape.order();
    let first = rise_at(shape, 0);
    let mut most: i64 = first;
    let mut least: i64 = first;
    for a in 1..order {
        let step = rise_at(shape, a);
        most = most.max(step);
        least = least.min(step);
    }
    Steps {
        rise: most,
        fall: -least,
    }
}

/// Whether the function is continuous and has exactly two slopes.
pub fn two_slopes(shape: &Shape) -> bool
    ensures { IsTrue result ↔ HasTwoSlopes shape.now }
{
    if !shape.is_continuous() {
        return false;
    }
    let steps = greatest_steps(shape);
    if steps.rise == -steps.fall {
        return false;
    }
    for a in 0..shape.order() {
        if !goes_by_step(shape, steps, a) {
            return false;
        }
    }
    true
}

/// Whether the function rises by the greatest rise or falls by the greatest fall from a/q to the
/// next place.
fn goes_by_step(shape: &Shape, steps: Steps, a: u32) -> bool
    requires { a < shape.now.order }
    ensures { IsTrue result ↔ ((rise shape.now a ≡ steps.rise) ⊎
        (rise shape.now a ≡ neg_ℤ steps.fall)) }
{
    let rise = rise_at(shape, a);
    rise == steps.rise || rise == -steps.fall
}
