//! Functions that are not continuous.
ghost use Rattle.std.specs.Prelude.{◌≡◌, IfOk, IfSome, IfNone};
ghost use Rattle.gj_shape.specs.FunctionData.{IsContinuous, IsFirstJump};
ghost use Rattle.gj_top.specs.Continuity.{NamesFirstJump};

use crate::reply::{End, Reply};
use gj_frac::Frac;
use gj_function_lines::push_fraction_line;
use gj_shape::Shape;
use std::alloc::{AllocError, Global};

/// The reply to a function that jumps; a continuous one goes on.
pub(crate) fn jump_reply(alloc: Global, shape: &Shape) -> Result<Option<Reply>, AllocError>
    ensures end { IfOk result (λ found. IfSome found (λ reply. reply.end ≡ End.NotContinuous)) }
    ensures jump { IfOk result (λ found. IfSome found
        (λ reply. NamesFirstJump shape.now reply.text.items)) }
    ensures none { IfOk result (λ found. IfNone found (IsContinuous shape.now)) }
{
    match shape.first_jump() {
        Some(index) => Ok(Some(Reply {
            end: End::NotContinuous,
            text: jump_text(alloc, shape, index)?,
        })),
        None => Ok(None),
    }
}

/// The line that names the first jump, at `index`/q.
pub(crate) fn jump_text(alloc: Global, shape: &Shape, index: u32) -> Result<Vec<u8>, AllocError>
    requires { IsFirstJump shape.now index }
    ensures { IfOk result (λ text. NamesFirstJump shape.now text.items) }
{
    let mut text = Vec::new(alloc);
    let point = Frac::ratio(i64::from(index), shape.order());
    push_fraction_line(alloc, &mut text, b"not continuous ", point)?;
    Ok(text)
}
