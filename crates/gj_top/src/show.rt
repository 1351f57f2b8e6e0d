//! The command `show`: a function in its canonical text, or in JSON.
ghost use Rattle.std.specs.Prelude.{IfOk};
ghost use Rattle.gj_top.specs.Task.{IsAnswering};
ghost use Rattle.gj_top.specs.Show.{IsShownText, show};

use crate::forms::function_of;
use crate::reply::{End, Reply, Unanswered};
use gj_function_text::write_function;
use gj_json::show_json;
use gj_shape::Shape;
use std::alloc::{AllocError, Global};

/// The text of the function that the input spells.
pub(crate) fn reply(alloc: Global, input: &[u8], json: bool) -> Result<Reply, Unanswered>
    ensures { IsAnswering (show json) input.now result }
{
    let shape = function_of(alloc, input, json)?;
    Ok(Reply {
        end: End::Done,
        text: shown(alloc, &shape, json)?,
    })
}

/// The canonical text of the function, or with `json` its JSON text.
fn shown(alloc: Global, shape: &Shape, json: bool) -> Result<Vec<u8>, AllocError>
    ensures { IfOk result (λ text. IsShownText json shape.now text.items) }
{
    if json {
        show_json(alloc, shape)
    } else {
        write_function(alloc, shape)
    }
}
