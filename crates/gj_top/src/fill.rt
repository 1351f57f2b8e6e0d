//! The command `fill`: the two-slope fill-in of a function, by breakpoints.
ghost use Rattle.std.specs.Prelude.{◌<◌, IfOk};
ghost use Rattle.gj_shape.specs.FunctionData.{IsContinuous};
ghost use Rattle.gj_fill.specs.FirstPair.{IsFirstPair};
ghost use Rattle.gj_top.specs.Task.{IsAnswering};
ghost use Rattle.gj_top.specs.Continuity.{IsContinuousReply};
ghost use Rattle.gj_top.specs.Fill.{IsFillReply, NamesFirstPair, fill};

use crate::continuity::jump_reply;
use crate::forms::function_text_of;
use crate::reply::{End, Reply, Unanswered};
use gj_fill::{FillFault, fill};
use gj_frac::Frac;
use gj_function_text::write_breaks;
use gj_lex::print_frac;
use gj_shape::Shape;
use std::alloc::{AllocError, Global};

/// The fill-in of the function that the input spells, or its first jump.
pub(crate) fn reply(alloc: Global, input: &[u8]) -> Result<Reply, Unanswered>
    ensures { IsAnswering fill input.now result }
{
    let shape = function_text_of(alloc, input)?;
    if let Some(jump) = jump_reply(alloc, &shape)? {
        return Ok(jump);
    }
    Ok(fill_or_pair(alloc, &shape)?)
}

/// The fill-in of a continuous function, or the first two places at which it is not subadditive.
fn fill_or_pair(alloc: Global, shape: &Shape) -> Result<Reply, AllocError>
    requires { IsContinuous shape.now }
    ensures { IfOk result (λ reply. IsContinuousReply IsFillReply shape.now reply.end
        reply.text.items) }
{
    match fill(alloc, shape) {
        Ok(filled) => Ok(Reply {
            end: End::Done,
            text: write_breaks(alloc, filled.f, filled.points.as_slice())?,
        }),
        Err(FillFault::NotSubadditive(a, b)) => Ok(Reply {
            end: End::NotSubadditive,
            text: pair_line(alloc, shape, a, b)?,
        }),
        Err(FillFault::Memory(error)) => Err(error),
    }
}

/// The line that names the first two places at which a function is not subadditive, a/q and b/q.
fn pair_line(alloc: Global, shape: &Shape, a: u32, b: u32) -> Result<Vec<u8>, AllocError>
    requires { IsFirstPair shape.now a b }
    ensures { IfOk result (λ text. NamesFirstPair shape.now text.items) }
{
    let mut text = Vec::from_slice(alloc, b"not subadditive ")?;
    print_frac(alloc, &mut text, Frac::ratio(i64::from(a), shape.order()))?;
    text.push(b' ')?;
    print_frac(alloc, &mut text, Frac::ratio(i64::from(b), shape.order()))?;
    text.push(b'\n')?;
    Ok(text)
}
