//! What tells the function in a function text, read.
ghost use Rattle.gj_forms.specs.Parts.{IsReading};
ghost use Rattle.gj_function_text.specs.FunctionText.{body_part};

use crate::family::family_at;
use gj_forms::{PartFault, begins_with_word};
use gj_function_lines::function_at;
use gj_lex::Spelling;
use gj_shape::Shape;
use std::alloc::Global;

/// The function that the next lines tell, and what follows them: one line, if it begins with
/// `family`, and else the lines of the order, of f and of the points.
pub(crate) fn body_at(alloc: Global, text: &[u8]) -> Result<(Shape, &[u8]), PartFault>
    ensures { IsReading body_part text.now result }
{
    if begins_with_word(Spelling::Lenient, text, b"family") {
        family_at(alloc, text)
    } else {
        function_at(alloc, Spelling::Lenient, text)
    }
}
