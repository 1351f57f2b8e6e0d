//! The command `group`: whether the table of a function's own order is extreme.
ghost use Rattle.std.specs.Prelude.{IfOk};
ghost use Rattle.gj_shape.specs.FunctionData.{IsContinuous};
ghost use Rattle.gj_top.specs.Task.{IsAnswering};
ghost use Rattle.gj_top.specs.Continuity.{IsContinuousReply};
ghost use Rattle.gj_top.specs.Group.{IsGroupReply, group};

use crate::continuity::jump_reply;
use crate::forms::function_text_of;
use crate::reply::{End, Reply, Unanswered};
use gj_group::{GREATEST_GROUP_ORDER, GroupFault, decide_group};
use gj_shape::Shape;
use gj_verdict_text::group_text;
use std::alloc::{AllocError, Global};

/// The verdict on the table of the function that the input spells.
pub(crate) fn reply(alloc: Global, input: &[u8]) -> Result<Reply, Unanswered>
    ensures { IsAnswering group input.now result }
{
    let shape = function_text_of(alloc, input)?;
    Ok(group_reply(alloc, &shape)?)
}

/// The verdict on the table of the function's own order, as the command `group` gives it: of a
/// function that jumps the first jump is named, and of a continuous one whose order passes 120 that
/// is said; `Wide` comes exactly if [`decide_group`] answers so.
pub fn group_reply(alloc: Global, shape: &Shape) -> Result<Reply, AllocError>
    ensures { IfOk result (λ reply. IsContinuousReply IsGroupReply shape.now reply.end
        reply.text.items) }
{
    if let Some(jump) = jump_reply(alloc, shape)? {
        return Ok(jump);
    }
    if shape.order() > GREATEST_GROUP_ORDER {
        return Ok(Reply {
            end: End::OrderLimit,
            text: Vec::from_slice(alloc, b"order limit\n")?,
        });
    }
    match decide_group(alloc, shape) {
        Ok(answer) => Ok(Reply {
            end: End::Done,
            text: group_text(alloc, shape, &answer)?,
        }),
        Err(GroupFault::Wide) => Ok(Reply {
            end: End::Wide,
            text: Vec::from_slice(alloc, b"wide\n")?,
        }),
        Err(GroupFault::Memory(error)) => Err(error),
    }
}
