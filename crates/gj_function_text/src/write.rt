//! Function texts, printed.
ghost use Rattle.std.specs.Prelude.{◌≡◌, IfOk};
ghost use Rattle.gj_function_text.specs.FunctionText.{IsCanonicalText};

use gj_function_lines::push_function_lines;
use gj_shape::Shape;
use std::alloc::{AllocError, Global};

/// The canonical text of the function.
pub fn write_function(alloc: Global, shape: &Shape) -> Result<Vec<u8>, AllocError>
    ensures { IfOk result (λ text. IsCanonicalText text.items shape.now) }
{
    let mut text = Vec::new(alloc);
    text.extend_from_slice(b"gj-function 1\n")?;
    push_function_lines(alloc, &mut text, shape)?;
    text.extend_from_slice(b"end\n")?;
    Ok(text)
}
