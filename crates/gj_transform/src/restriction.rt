//! The restriction to the multiples of 1/d.
ghost use Rattle.std.specs.Prelude.{◌≡◌, ◌≢◌, ◌⊎◌, ◌<◌, ◌≤◌, ◌*◌, ◌↔◌, IfOk, IfSome, IfNone};
ghost use Rattle.std.specs.Int.{◌∣◌};
ghost use Rattle.gj_shape.specs.FunctionData.{IsWithinBounds, IsContinuous};
ghost use Rattle.gj_shape.specs.Table.{IsMinimal};
ghost use Rattle.gj_transform.specs.Transforms.{IsRestrictionOf, HasNoRestriction};
ghost use Rattle.gj_transform.specs.Transforms.{AgreeAtMultiples};

use crate::entries::{entries_at_multiples, greatest_divisor, quotients};
use crate::faults::TransformFault;
use gj_shape::Shape;
use std::alloc::Global;

/// The continuous function of order `order` that has the values of a continuous function at the
/// multiples of 1/`order`, and its place.
///
/// It is minimal if the function is. The error is `BadOrder` exactly if `order` is below 2 or does
/// not divide the function's order, or if f is no multiple of 1/`order`.
///
/// Source: the restrictions to finite groups of Gomory and Johnson (1972).
pub fn restrict(alloc: Global, shape: &Shape, order: u32) -> Result<Shape, TransformFault>
    requires { IsContinuous shape.now }
    ensures restriction { IfOk result (IsRestrictionOf shape.now order) }
    ensures within { IfOk result IsWithinBounds }
    ensures values { IfOk result (AgreeAtMultiples shape.now order) }
    ensures minimal { IfOk result (λ g. IsMinimal shape.now → IsMinimal g) }
    ensures order { (result ≡ Err TransformFault.BadOrder) ↔ HasNoRestriction shape.now order }
    ensures limit { result ≢ Err TransformFault.OrderLimit }
{
    let Some(step) = step_of(shape, order) else {
        return Err(TransformFault::BadOrder);
    };
    let rest = shape.place() % step;
    if rest != 0 {
        return Err(TransformFault::BadOrder);
    }
    let taken = entries_at_multiples(alloc, shape.value_numerators(), order, step)?;
    let scale = shape.common_denominator() as u32;
    let divisor = greatest_divisor(scale, taken.as_slice());
    let left = quotients(alloc, taken.as_slice(), divisor)?;
    let value = Vec::from_slice(alloc, left.as_slice())?;
    let right = Vec::from_slice(alloc, left.as_slice())?;
    let place = shape.place() / step;
    Ok(Shape::from_numerators(order, place, scale / divisor, left, value, right))
}

/// How many multiples of 1/q, q the order of the function, lead from one multiple of 1/`order` to
/// the next; none if `order` is below 2 or does not divide q.
fn step_of(shape: &Shape, order: u32) -> Option<u32>
    ensures least { IfSome result (λ step. 2 ≤ order) }
    ensures some { IfSome result (λ step. 0 < step) }
    ensures divides { IfSome result (λ step. shape.now.order ≡ order * step) }
    ensures none { IfNone result ((order < 2) ⊎ (order ∣ shape.now.order → ⊥)) }
{
    if order < 2 || shape.order() % order != 0 {
        return None;
    }
    Some(shape.order() / order)
}
