//! The rules on halves, in their order.
ghost use Rattle.std.specs.Prelude.{◌≡◌, ◌↔◌, ◌<◌, IfNone, IfSome, IsTrue};
ghost use Rattle.gj_limit_proof.specs.LimitRules.{MeetsLimitSame, MeetsLimitScale, PassesAsHalf};
ghost use Rattle.gj_limit_proof.specs.LimitText.{AreLimitHalvesInBounds};
ghost use Rattle.gj_limit_check_halves.specs.HalvesOutcome.{AreSideNumbersInRange, AreWithinRange};
ghost use Rattle.gj_limit_check_halves.specs.HalvesOutcome.{IsHalvesOutcome, IsHalvesRefinement};
ghost use Rattle.gj_limit_check_halves.specs.HalvesOutcome.{IsLastOutcome};

use crate::failure::HalvesFailure;
use crate::half::{Half, is_minimal};
use crate::pairs::failure_in_pairs;
use gj_check::{Refinement, refinement_of};
use gj_shape::{LimitHalves, Shape, SideNumbers};

/// The first of the rules on halves of a function that fails; none if all hold. It takes no memory.
pub fn failure_in_halves(shape: &Shape, halves: &LimitHalves) -> Option<HalvesFailure>
    requires { AreLimitHalvesInBounds halves.now }
    ensures { IsHalvesOutcome shape.now halves.now result }
{
    let Some(refinement) = refinement_of_halves(shape, halves) else {
        return Some(HalvesFailure::Scale);
    };
    if let Some(failure) = failure_in_pairs(shape, halves, refinement) {
        return Some(failure);
    }
    failure_of_halves(shape, halves, refinement)
}

/// How much finer the halves are; none if their order or their scale is no multiple.
fn refinement_of_halves(shape: &Shape, halves: &LimitHalves) -> Option<Refinement>
    requires { AreLimitHalvesInBounds halves.now }
    ensures some { IfSome result (IsHalvesRefinement shape.now halves.now) }
    ensures none { IfNone result (MeetsLimitScale shape.now halves.now → ⊥) }
{
    refinement_of(shape, halves.order, halves.scale)
}

/// The first of the rules `first`, `second` and `same` that fails, if all numbers are in range.
fn failure_of_halves(
    shape: &Shape,
    halves: &LimitHalves,
    refinement: Refinement,
) -> Option<HalvesFailure>
    requires halves { AreLimitHalvesInBounds halves.now }
    requires refinement { IsHalvesRefinement shape.now halves.now refinement }
    requires range { AreWithinRange halves.now }
    ensures { IsLastOutcome shape.now halves.now result }
{
    if !is_minimal_half(shape, halves, refinement, &halves.first) {
        return Some(HalvesFailure::First);
    }
    if !is_minimal_half(shape, halves, refinement, &halves.second) {
        return Some(HalvesFailure::Second);
    }
    if !are_different(halves) {
        return Some(HalvesFailure::Same);
    }
    None
}

/// Whether one of the halves, with the function's place of f, is minimal.
fn is_minimal_half(
    shape: &Shape,
    halves: &LimitHalves,
    refinement: Refinement,
    numbers: &SideNumbers,
) -> bool
    requires halves { AreLimitHalvesInBounds halves.now }
    requires refinement { IsHalvesRefinement shape.now halves.now refinement }
    requires numbers { AreSideNumbersInRange halves.now.order halves.now.scale numbers.now }
    ensures { IsTrue result ↔ PassesAsHalf shape.now halves.now numbers.now }
{
    is_minimal(Half {
        order: halves.order,
        place: shape.place() * refinement.times,
        scale: halves.scale,
        left: numbers.left.as_slice(),
        value: numbers.value.as_slice(),
        right: numbers.right.as_slice(),
    })
}

/// Whether some number of the first half is not that of the second.
fn are_different(halves: &LimitHalves) -> bool
    requires { AreLimitHalvesInBounds halves.now }
    ensures { IsTrue result ↔ MeetsLimitSame halves.now }
{
    let (first, second) = (&halves.first, &halves.second);
    if first.left != second.left {
        return true;
    }
    if first.value != second.value {
        return true;
    }
    first.right != second.right
}
