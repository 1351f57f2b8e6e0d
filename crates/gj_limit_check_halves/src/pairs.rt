//! The rules on the numbers of both halves at one point.
ghost use Rattle.std.specs.Prelude.{◌↔◌, ◌<◌, IsTrue, length};
ghost use Rattle.gj_shape.specs.FunctionData.{at};
ghost use Rattle.gj_limit_proof.specs.LimitRules.{AreWithinScale, MeetsLimitAverage};
ghost use Rattle.gj_limit_proof.specs.LimitRules.{MeetsLimitRange};
ghost use Rattle.gj_limit_proof.specs.LimitText.{AreLimitHalvesInBounds, triple_at};
ghost use Rattle.gj_limit_check_halves.specs.Half.{IsBetween};
ghost use Rattle.gj_limit_check_halves.specs.HalvesOutcome.{IsHalvesRefinement, IsPairsOutcome};

use crate::averages::is_average;
use crate::failure::HalvesFailure;
use gj_check::Refinement;
use gj_shape::{LimitHalves, Shape, SideNumbers};

/// The first point at which `range` or `average` fails, and which of the two.
pub(crate) fn failure_in_pairs(
    shape: &Shape,
    halves: &LimitHalves,
    refinement: Refinement,
) -> Option<HalvesFailure>
    requires halves { AreLimitHalvesInBounds halves.now }
    requires refinement { IsHalvesRefinement shape.now halves.now refinement }
    ensures { IsPairsOutcome shape.now halves.now result }
{
    for index in 0..halves.order {
        if !meets_range(halves, index) {
            return Some(HalvesFailure::Range(index));
        }
        if !meets_average(shape, halves, refinement, index) {
            return Some(HalvesFailure::Average(index));
        }
    }
    None
}

/// Whether all numbers of both halves at a point lie from 0 to the scale.
fn meets_range(halves: &LimitHalves, index: u32) -> bool
    requires halves { AreLimitHalvesInBounds halves.now }
    requires within { index < halves.now.order }
    ensures { IsTrue result ↔ MeetsLimitRange halves.now index }
{
    if !are_between(&halves.first, index, halves.scale) {
        return false;
    }
    are_between(&halves.second, index, halves.scale)
}

/// Whether the three numbers of a half at a point lie from 0 to the scale.
fn are_between(numbers: &SideNumbers, index: u32, scale: i128) -> bool
    requires left { index < length numbers.now.left }
    requires value { index < length numbers.now.value }
    requires right { index < length numbers.now.right }
    ensures { IsTrue result ↔ AreWithinScale scale (triple_at numbers.now index) }
{
    if !is_between(numbers.left.as_slice(), index, scale) {
        return false;
    }
    if !is_between(numbers.value.as_slice(), index, scale) {
        return false;
    }
    is_between(numbers.right.as_slice(), index, scale)
}

/// Whether the number at the index lies from 0 to the scale.
fn is_between(numbers: &[i128], index: u32, scale: i128) -> bool
    requires { index < length numbers.now }
    ensures { IsTrue result ↔ IsBetween (at numbers.now index) scale }
{
    let number = numbers[index as usize];
    0 <= number && number <= scale
}

/// Whether the numbers of both halves at a point average to those of the function.
fn meets_average(shape: &Shape, halves: &LimitHalves, refinement: Refinement, index: u32) -> bool
    requires halves { AreLimitHalvesInBounds halves.now }
    requires refinement { IsHalvesRefinement shape.now halves.now refinement }
    requires within { index < halves.now.order }
    requires range { MeetsLimitRange halves.now index }
    ensures { IsTrue result ↔ MeetsLimitAverage shape.now halves.now index }
{
    let (first, second) = (&halves.first, &halves.second);
    let (left, other_left) = (first.left.as_slice(), second.left.as_slice());
    if !is_average(
        shape,
        shape.left_numerators(),
        refinement,
        index,
        left,
        other_left,
    ) {
        return false;
    }
    let (value, other_value) = (first.value.as_slice(), second.value.as_slice());
    if !is_average(
        shape,
        shape.value_numerators(),
        refinement,
        index,
        value,
        other_value,
    ) {
        return false;
    }
    let (right, other_right) = (first.right.as_slice(), second.right.as_slice());
    is_average(
        shape,
        shape.right_numerators(),
        refinement,
        index,
        right,
        other_right,
    )
}
