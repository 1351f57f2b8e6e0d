//! The lines of a function, read.
ghost use Rattle.gj_forms.specs.Parts.{IsReading};
ghost use Rattle.gj_function_lines.specs.FunctionGrammar.{function_part};

use crate::head::{order_at, place_at};
use crate::points::points_at;
use gj_forms::PartFault;
use gj_lex::Spelling;
use gj_shape::Shape;
use std::alloc::Global;

/// The function whose lines come next in the text, and what follows them: `order Q`, `f F`, and a
/// line `point V` or `point L V R` for each multiple of 1/q.
///
/// The fault is the first line that breaks its rule, with the first rule that it breaks: its form;
/// that its numbers are such; that the order is from 2 to 1,000; that f is k/q, strictly between 0
/// and 1; that a value is at most 2^20 in absolute value, and has a common denominator of at most
/// 2^31 - 1 with all before it.
pub fn function_at(
    alloc: Global,
    spelling: Spelling,
    text: &[u8],
) -> Result<(Shape, &[u8]), PartFault>
    ensures { IsReading (function_part spelling) text.now result }
{
    let (order, rest) = order_at(spelling, text)?;
    let (place, rest) = place_at(spelling, rest, order)?;
    let (points, rest) = points_at(alloc, spelling, rest, order)?;
    let shape = points.shape(alloc, order, place)?;
    Ok((shape, rest))
}
