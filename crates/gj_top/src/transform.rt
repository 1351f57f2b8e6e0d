//! The commands `times`, `mirror` and `restrict`: a function that is made of a function, in its
//! canonical text.
ghost use Rattle.std.specs.Prelude.{◌≤◌, ◌<◌, IfOk};
ghost use Rattle.gj_top.specs.Task.{IsAnswering};
ghost use Rattle.gj_top.specs.Transform.{IsMadeReply, mirror, restriction, times};

use crate::continuity::jump_reply;
use crate::forms::function_text_of;
use crate::reply::{End, Reply, Unanswered};
use gj_function_text::write_function;
use gj_shape::Shape;
use gj_transform::{TransformFault, mirror, restrict, times};
use std::alloc::{AllocError, Global};

/// The function of n x with the place (f + j)/n, for the function that the input spells.
pub(crate) fn times_reply(alloc: Global, input: &[u8], n: u32, j: u32) -> Result<Reply, Unanswered>
    requires some { 1 ≤ n }
    requires below { j < n }
    ensures { IsAnswering (times n j) input.now result }
{
    let shape = function_text_of(alloc, input)?;
    Ok(made_or_fault(alloc, times(alloc, &shape, n, j))?)
}

/// The function of -x with the place 1 - f, for the function that the input spells.
pub(crate) fn mirror_reply(alloc: Global, input: &[u8]) -> Result<Reply, Unanswered>
    ensures { IsAnswering mirror input.now result }
{
    let shape = function_text_of(alloc, input)?;
    Ok(made_or_fault(alloc, Ok(mirror(alloc, &shape)?))?)
}

/// The restriction to the multiples of 1/`order` of the function that the input spells, or its
/// first jump.
pub(crate) fn restrict_reply(alloc: Global, input: &[u8], order: u32) -> Result<Reply, Unanswered>
    ensures { IsAnswering (restriction order) input.now result }
{
    let shape = function_text_of(alloc, input)?;
    if let Some(jump) = jump_reply(alloc, &shape)? {
        return Ok(jump);
    }
    Ok(made_or_fault(alloc, restrict(alloc, &shape, order))?)
}

/// The canonical text of the function that was made, or why there is none.
fn made_or_fault(alloc: Global, made: Result<Shape, TransformFault>) -> Result<Reply, AllocError>
    ensures { IfOk result (λ reply. IsMadeReply made reply.end reply.text.items) }
{
    match made {
        Ok(shape) => Ok(Reply {
            end: End::Done,
            text: write_function(alloc, &shape)?,
        }),
        Err(TransformFault::OrderLimit) => Ok(Reply {
            end: End::OrderLimit,
            text: Vec::from_slice(alloc, b"order limit\n")?,
        }),
        Err(TransformFault::BadOrder) => Ok(Reply {
            end: End::BadOrder,
            text: Vec::from_slice(alloc, b"bad order\n")?,
        }),
        Err(TransformFault::Memory(error)) => Err(error),
    }
}
