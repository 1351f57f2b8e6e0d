//! The points at which a function jumps.
ghost use Rattle.std.specs.Prelude.{◌↔◌, IsTrue, IfOk, IfSome};
ghost use Rattle.gj_limit_faces.specs.ValueRows.{AreJumps, IsContinuousAt};

use gj_shape::Shape;
use std::alloc::{AllocError, Global};

/// The jumps are few if there are at most as many as the order has this number in it.
const POINTS_PER_JUMP: u32 = 100;

/// Whether the limits at i/q are the value there; i is read modulo q.
pub(crate) fn is_continuous_at(shape: &Shape, i: u32) -> bool
    ensures { IsTrue result ↔ IsContinuousAt shape.now i }
{
    let value = shape.value_numerator(i);
    if shape.left_numerator(i) != value {
        return false;
    }
    shape.right_numerator(i) == value
}

/// The indices at which the function jumps, if they are few.
pub(crate) fn few_jumps(alloc: Global, shape: &Shape) -> Result<Option<Vec<u32>>, AllocError>
    ensures { IfOk result (λ jumps. IfSome jumps (λ v. AreJumps shape.now v.items)) }
{
    let most = (shape.order() / POINTS_PER_JUMP) as usize;
    let mut jumps = Vec::new(alloc);
    for i in 0..shape.order() {
        if is_continuous_at(shape, i) {
            continue;
        }
        if jumps.len() == most {
            return Ok(None);
        }
        jumps.push(i)?;
    }
    Ok(Some(jumps))
}
