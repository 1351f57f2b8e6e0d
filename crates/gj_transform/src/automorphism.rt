//! The function of -x.
ghost use Rattle.std.specs.Prelude.{negsuc, ◌↔◌, IfOk};
ghost use Rattle.gj_shape.specs.Extreme.{IsExtreme};
ghost use Rattle.gj_shape.specs.FunctionData.{IsWithinBounds};
ghost use Rattle.gj_shape.specs.Table.{IsMinimal};
ghost use Rattle.gj_transform.specs.Transforms.{IsMirrorOf, HasValuesAtMultiples};

use crate::entries::entries_at_multiples;
use gj_shape::Shape;
use std::alloc::{AllocError, Global};

/// The function of -x, with the place 1 - f: a function of the same order.
///
/// It is minimal exactly if the function is, and extreme exactly if the function is, continuous or
/// not.
///
/// Source: the automorphisms of Gomory and Johnson (1972).
pub fn mirror(alloc: Global, shape: &Shape) -> Result<Shape, AllocError>
    ensures mirror { IfOk result (IsMirrorOf shape.now) }
    ensures within { IfOk result IsWithinBounds }
    ensures values { IfOk result (HasValuesAtMultiples shape.now (negsuc 0)) }
    ensures minimal { IfOk result (λ g. IsMinimal shape.now ↔ IsMinimal g) }
    ensures extreme { IfOk result (λ g. IsExtreme shape.now ↔ IsExtreme g) }
{
    let order = shape.order();
    let backwards = order - 1;
    let left = entries_at_multiples(alloc, shape.left_numerators(), order, backwards)?;
    let value = entries_at_multiples(alloc, shape.value_numerators(), order, backwards)?;
    let right = entries_at_multiples(alloc, shape.right_numerators(), order, backwards)?;
    Ok(Shape::from_numerators(
        order,
        order - shape.place(),
        shape.common_denominator() as u32,
        right,
        value,
        left,
    ))
}
