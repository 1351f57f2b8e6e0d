//! The command `faces`: the maximal additive faces and the covered intervals of a function.
ghost use Rattle.std.specs.Prelude.{IfOk};
ghost use Rattle.gj_top.specs.Task.{IsAnswering};
ghost use Rattle.gj_top.specs.Faces.{IsJumpsFacesText, faces, faces_with_jumps};

use crate::continuity::jump_reply;
use crate::forms::function_text_of;
use crate::reply::{End, Reply, Unanswered};
use gj_limit_faces_text::limit_faces_text;
use gj_shape::Shape;
use gj_verdict_text::faces_text;
use std::alloc::{AllocError, Global};

/// The faces and intervals of the function that the input spells, or its first jump.
pub(crate) fn reply(alloc: Global, input: &[u8]) -> Result<Reply, Unanswered>
    ensures { IsAnswering faces input.now result }
{
    let shape = function_text_of(alloc, input)?;
    if let Some(jump) = jump_reply(alloc, &shape)? {
        return Ok(jump);
    }
    Ok(Reply {
        end: End::Done,
        text: faces_text(alloc, &shape)?,
    })
}

/// The faces and intervals of the function that the input spells; of one that jumps by the limits
/// of its slack.
pub(crate) fn reply_with_jumps(alloc: Global, input: &[u8]) -> Result<Reply, Unanswered>
    ensures { IsAnswering faces_with_jumps input.now result }
{
    let shape = function_text_of(alloc, input)?;
    Ok(Reply {
        end: End::Done,
        text: text_with_jumps(alloc, &shape)?,
    })
}

/// The text of the faces and intervals of the function; of one that jumps by the limits of its
/// slack.
fn text_with_jumps(alloc: Global, shape: &Shape) -> Result<Vec<u8>, AllocError>
    ensures { IfOk result (λ text. IsJumpsFacesText shape.now text.items) }
{
    match shape.first_jump() {
        Some(_) => limit_faces_text(alloc, shape),
        None => faces_text(alloc, shape),
    }
}
