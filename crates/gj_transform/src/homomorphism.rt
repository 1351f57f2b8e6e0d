//! The function of n x.
ghost use Rattle.std.specs.Prelude.{pos, ◌≡◌, ◌≢◌, ◌<◌, ◌≤◌, ◌*◌, ◌↔◌, IfOk};
ghost use Rattle.gj_shape.specs.Limits.{greatest_order};
ghost use Rattle.gj_shape.specs.FunctionData.{IsWithinBounds};
ghost use Rattle.gj_shape.specs.Table.{IsMinimal};
ghost use Rattle.gj_transform.specs.Transforms.{IsTimesOf, HasValuesAtMultiples};

use crate::entries::entries_at_multiples;
use crate::faults::TransformFault;
use gj_shape::{GREATEST_ORDER, Shape};
use std::alloc::Global;

/// The function of `n` x, with the place (f + `j`)/`n`: a function of `n` times the order.
///
/// It is minimal exactly if the function is. The error is `OrderLimit` exactly if its order passes
/// 1,000.
///
/// Source: the multiplicative homomorphisms of Gomory and Johnson (1972).
pub fn times(alloc: Global, shape: &Shape, n: u32, j: u32) -> Result<Shape, TransformFault>
    requires some { 1 ≤ n }
    requires below { j < n }
    ensures times { IfOk result (IsTimesOf shape.now n j) }
    ensures within { IfOk result IsWithinBounds }
    ensures values { IfOk result (HasValuesAtMultiples shape.now (pos n)) }
    ensures minimal { IfOk result (λ g. IsMinimal shape.now ↔ IsMinimal g) }
    ensures limit { (result ≡ Err TransformFault.OrderLimit) ↔
        (greatest_order < shape.now.order * n) }
    ensures order { result ≢ Err TransformFault.BadOrder }
{
    if n > GREATEST_ORDER / shape.order() {
        return Err(TransformFault::OrderLimit);
    }
    let order = shape.order() * n;
    let left = entries_at_multiples(alloc, shape.left_numerators(), order, 1)?;
    let value = entries_at_multiples(alloc, shape.value_numerators(), order, 1)?;
    let right = entries_at_multiples(alloc, shape.right_numerators(), order, 1)?;
    Ok(Shape::from_numerators(
        order,
        shape.place() + j * shape.order(),
        shape.common_denominator() as u32,
        left,
        value,
        right,
    ))
}
