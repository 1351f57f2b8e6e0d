//! The rules on halves: two different minimal tables that average to that of the function.
ghost use Rattle.std.specs.Prelude.{ℕ, pos, ◌≡◌, ◌↔◌, ◌+ℤ◌, ◌*ℤ◌, ◌*◌, ◌<◌, ◌≤◌, ◌≤ℤ◌, IsTrue};
ghost use Rattle.std.specs.Prelude.{OnOk, IfOk, IfErr, IfSome, IfNone, length, unsigned_abs};
ghost use Rattle.gj_shape.specs.Perturbation.{AreHalvesInBounds};
ghost use Rattle.gj_shape.specs.FunctionData.{IsWithinBounds, IsContinuous, at};
ghost use Rattle.gj_shape.specs.Limits.{greatest_halves_scale};
ghost use Rattle.gj_shape.specs.Table.{table};
ghost use Rattle.gj_proof.specs.Rules.{MeetsRules, MeetsScale, MeetsRange, MeetsAverage};
ghost use Rattle.gj_proof.specs.Rules.{IsMinimalHalf};
ghost use Rattle.gj_proof.specs.declared.claim.Claim.TheVariants as claim;
ghost use Rattle.gj_check.specs.FirstFailure.{IsCheckFaultOf};
ghost use Rattle.gj_check.specs.HalvesRules.{IsHalvesRefinement, IsPairsOutcome, AreDifferent};
ghost use Rattle.gj_check.specs.HalvesRules.{IsRefinement, HasRefinement, IsBetween};

use crate::faults::CheckFault;
use crate::points::times;
use crate::rules::CheckRule;
use gj_check_minimal::{is_minimal, is_minimal_table};
use gj_proof::{CLAIM_LINE, line_behind_function, line_of_pair};
use gj_shape::{Halves, Shape};
use std::alloc::{AllocError, Global};

/// How much finer the grid and the scale of halves are than those of the function.
#[derive(Clone, Copy)]
pub struct Refinement {
    /// The order of the grid over that of the function.
    pub times: u32,
    /// The scale over `times` times that of the function.
    pub factor: u128,
}

/// The first pair of values that breaks a rule, and the rule.
#[derive(Clone, Copy)]
pub(crate) struct PairFailure {
    pub(crate) index: u32,
    pub(crate) rule: CheckRule,
}

/// Checks every rule on halves of a function, in the order of the lines of their proof.
pub(crate) fn check_halves(alloc: Global, shape: &Shape, halves: &Halves) -> Result<(), CheckFault>
    requires { AreHalvesInBounds halves.now }
    ensures ok { OnOk result (MeetsRules (claim.NotExtreme shape.now halves.now)) }
    ensures fault { IfErr result (IsCheckFaultOf (claim.NotExtreme shape.now halves.now)) }
{
    if !is_minimal(shape) {
        return Err(CheckFault::Rejected(CLAIM_LINE, CheckRule::Minimal));
    }
    if !shape.is_continuous() {
        return Err(CheckFault::Rejected(CLAIM_LINE, CheckRule::Continuous));
    }
    let line = line_behind_function(shape);
    let Some(refinement) = refinement_of_halves(shape, halves) else {
        return Err(CheckFault::Rejected(line, CheckRule::Scale));
    };
    if let Some(failure) = failure_in_pairs(shape, halves, refinement) {
        let line = line_of_pair(shape, failure.index);
        return Err(CheckFault::Rejected(line, failure.rule));
    }
    let first = halves.first.as_slice();
    if !is_minimal_half(alloc, shape, halves, refinement, first)? {
        return Err(CheckFault::Rejected(line, CheckRule::First));
    }
    let second = halves.second.as_slice();
    if !is_minimal_half(alloc, shape, halves, refinement, second)? {
        return Err(CheckFault::Rejected(line, CheckRule::Second));
    }
    if !are_different(first, second) {
        return Err(CheckFault::Rejected(line, CheckRule::Same));
    }
    Ok(())
}

/// How much finer the halves are; none if their order or their scale is no multiple.
fn refinement_of_halves(shape: &Shape, halves: &Halves) -> Option<Refinement>
    requires { AreHalvesInBounds halves.now }
    ensures some { IfSome result (IsHalvesRefinement shape.now halves.now) }
    ensures none { IfNone result (MeetsScale shape.now halves.now → ⊥) }
{
    refinement_of(shape, halves.order, halves.scale)
}

/// How much finer halves of this order and this scale are; none if the order or the scale is no
/// multiple.
#[inline(always)]
pub fn refinement_of(shape: &Shape, order: u32, scale: i128) -> Option<Refinement>
    requires order { 0 < order }
    requires scale { pos 0 ≤ℤ scale }
    ensures some { IfSome result (IsRefinement shape.now order scale) }
    ensures none { IfNone result (HasRefinement shape.now order scale → ⊥) }
{
    let own_order = shape.order();
    if order % own_order != 0 {
        return None;
    }
    let times = order / own_order;
    let unit = shape.common_denominator() as u128 * u128::from(times);
    let whole = scale as u128;
    if whole % unit != 0 {
        return None;
    }
    Some(Refinement {
        times,
        factor: whole / unit,
    })
}

/// The first pair that breaks `range` or `average`.
#[inline(never)]
fn failure_in_pairs(shape: &Shape, halves: &Halves, refinement: Refinement) -> Option<PairFailure>
    requires halves { AreHalvesInBounds halves.now }
    requires limits { IsWithinBounds shape.now }
    requires continuous { IsContinuous shape.now }
    requires refinement { IsHalvesRefinement shape.now halves.now refinement }
    ensures { IsPairsOutcome shape.now halves.now result }
{
    for index in 0..halves.order {
        if !meets_range(halves, index as usize) {
            return Some(PairFailure {
                index,
                rule: CheckRule::Range,
            });
        }
        if !meets_average(shape, halves, refinement, index as usize) {
            return Some(PairFailure {
                index,
                rule: CheckRule::Average,
            });
        }
    }
    None
}

/// Whether both values of the pair lie from 0 to the scale.
fn meets_range(halves: &Halves, index: usize) -> bool
    requires halves { AreHalvesInBounds halves.now }
    requires within { index < halves.now.order }
    ensures { IsTrue result ↔ MeetsRange halves.now index }
{
    if !is_between(halves.first.as_slice()[index], halves.scale) {
        return false;
    }
    is_between(halves.second.as_slice()[index], halves.scale)
}

/// Whether the value lies from 0 to the scale.
fn is_between(value: i128, scale: i128) -> bool
    ensures { IsTrue result ↔ IsBetween value scale }
{
    0 <= value && value <= scale
}

/// Whether both values of the pair average to that of the function.
fn meets_average(shape: &Shape, halves: &Halves, refinement: Refinement, index: usize) -> bool
    requires halves { AreHalvesInBounds halves.now }
    requires limits { IsWithinBounds shape.now }
    requires continuous { IsContinuous shape.now }
    requires refinement { IsHalvesRefinement shape.now halves.now refinement }
    requires within { index < halves.now.order }
    requires range { MeetsRange halves.now index }
    ensures { IsTrue result ↔ MeetsAverage shape.now halves.now index }
{
    let sum = halves.first.as_slice()[index] + halves.second.as_slice()[index];
    is_twice_the_value(shape, refinement, index, sum)
}

/// Whether the sum is twice the function's value, over the scale of the halves.
fn is_twice_the_value(shape: &Shape, refinement: Refinement, index: usize, sum: i128) -> bool
    requires continuous { IsContinuous shape.now }
    requires some { 0 < refinement.times }
    requires factor { refinement.factor ≤ greatest_halves_scale }
    requires within { index < shape.now.order * refinement.times }
    ensures { IsTrue result
        ↔ (sum ≡ pos (2 * refinement.factor) *ℤ table shape.now refinement.times index) }
{
    let factor = 2 * refinement.factor as i128;
    match factor.checked_mul(table_entry(shape, refinement.times, index)) {
        Some(total) => sum == total,
        None => false,
    }
}

/// The entry of the function's table on the grid that is so many times finer: between two values.
fn table_entry(shape: &Shape, times_finer: u32, index: usize) -> i128
    requires continuous { IsContinuous shape.now }
    requires some { 0 < times_finer }
    requires within { index < shape.now.order * times_finer }
    ensures { result ≡ table shape.now times_finer index }
{
    let values = shape.value_numerators();
    let here = index / times_finer as usize;
    let next = (here + 1) % values.len();
    let rest = (index % times_finer as usize) as u32;
    times(i128::from(values[here]), times_finer - rest) + times(i128::from(values[next]), rest)
}

/// Whether the table of these values is minimal, over the scale of the halves and with the
/// function's place.
fn is_minimal_half(
    alloc: Global,
    shape: &Shape,
    halves: &Halves,
    refinement: Refinement,
    values: &[i128],
) -> Result<bool, AllocError>
    requires halves { AreHalvesInBounds halves.now }
    requires refinement { IsHalvesRefinement shape.now halves.now refinement }
    requires length { length values.now ≡ halves.now.order }
    requires range { (i : ℕ) → i < halves.now.order → IsBetween (at values.now i) halves.now.scale }
    ensures { IfOk result (λ minimal. IsTrue minimal ↔
        IsMinimalHalf shape.now halves.now values.now) }
{
    let place = (shape.place() * refinement.times) as usize;
    is_minimal_table(alloc, values, place, halves.scale)
}

/// Whether some values differ.
fn are_different(first: &[i128], second: &[i128]) -> bool
    requires some { 0 < length first.now }
    requires lengths { length first.now ≡ length second.now }
    ensures { IsTrue result ↔ AreDifferent first.now second.now }
{
    for i in 0..first.len() {
        if first[i] != second[i] {
            return true;
        }
    }
    false
}
