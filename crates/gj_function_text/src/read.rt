//! Function texts, read.
ghost use Rattle.std.specs.Prelude.{◌≡◌, ◌≤◌, List, ℕ, drop, length, IfOk, IfErr, MatchResult};
ghost use Rattle.gj_forms.specs.Parts.{IsFaultOf, IsReading};
ghost use Rattle.gj_shape.specs.FunctionData.{FunctionData};
ghost use Rattle.gj_function_text.specs.FunctionText.{points_text, breaks_text, function_text};
ghost use Rattle.gj_function_text.specs.FunctionText.{whole_function_text, IsFunctionText};
ghost use Rattle.gj_function_text.specs.FunctionText.{IsWholeFunctionText};
ghost use Rattle.gj_function_text.specs.FirstFault.{IsMemoryFault, NamesFirstFault};
ghost use Rattle.gj_function_text.specs.FirstFault.{NamesFirstFaultOfWhole};

use crate::body::body_at;
use crate::breaks::breaks_at;
use crate::faults::TextFault;
use gj_forms::{PartFault, begins_with_line, end_at, line_number, words_at};
use gj_lex::Spelling;
use gj_shape::Shape;
use std::alloc::Global;

/// The function whose function text is at the front of the bytes, and the number of bytes up to and
/// with the line `end`.
///
/// Between the lines `gj-function 1` and `end` the function is told by the lines of its order, of
/// its f and of its points, or by one line `family gmic F`, `family half F` or `family two-slope K
/// SIGNS`. Between `gj-function 2` and `end` it is told by its f and its breakpoints, a line `point
/// X V` or `point X L V R` for each.
///
/// `Refused` has the line and the reason of the first fault, and comes exactly if no first lines of
/// the bytes are a function text.
///
/// ```text
/// let bytes = b"# a comment\ngj-function 1\norder 2\nf 0.5\npoint 0\npoint +1\nend\n";
/// let (shape, len) = read_function(alloc, bytes)?;
/// // shape is the function of order 2 with f = 1/2 that is 0 at 0 and 1 at 1/2; len is 61
/// ```
pub fn read_function(alloc: Global, bytes: &[u8]) -> Result<(Shape, usize), TextFault>
    // What is read is spelled so.
    ensures found { IfOk result (λ r. (r.1 ≤ length bytes.now) ×
        IsFunctionText bytes.now r.0 (drop r.1 bytes.now)) }
    // What is spelled so is read, unless there is no memory.
    ensures only { (f : FunctionData) (rest : List ℕ) → IsFunctionText bytes.now f rest →
        MatchResult result (λ r. (r.0 ≡ f) × (drop r.1 bytes.now ≡ rest)) IsMemoryFault }
    // A refusal names the first fault.
    ensures refused { IfErr result (NamesFirstFault bytes.now) }
{
    match function_text_at(alloc, bytes) {
        Ok((shape, rest)) => Ok((shape, bytes.len() - rest.len())),
        Err(PartFault::Refused(left, reason)) => {
            Err(TextFault::Refused(line_number(bytes, left), reason))
        }
        Err(PartFault::Memory(error)) => Err(TextFault::Memory(error)),
    }
}

/// The function whose function text the bytes are, if only lines that are skipped follow its line
/// `end`.
///
/// `Refused` has the line and the reason of the first fault; a line that is not skipped behind the
/// line `end` is at fault as `tail`.
pub fn read_whole_function(alloc: Global, bytes: &[u8]) -> Result<Shape, TextFault>
    ensures found { IfOk result (IsWholeFunctionText bytes.now) }
    ensures only { (f : FunctionData) → IsWholeFunctionText bytes.now f →
        MatchResult result (λ shape. shape ≡ f) IsMemoryFault }
    ensures refused { IfErr result (NamesFirstFaultOfWhole bytes.now) }
{
    match whole_function_text_at(alloc, bytes) {
        Ok(shape) => Ok(shape),
        Err(PartFault::Refused(left, reason)) => {
            Err(TextFault::Refused(line_number(bytes, left), reason))
        }
        Err(PartFault::Memory(error)) => Err(TextFault::Memory(error)),
    }
}

/// The function whose function text is at the front, if only lines that are skipped follow.
fn whole_function_text_at(alloc: Global, text: &[u8]) -> Result<Shape, PartFault>
    ensures found { IfOk result (IsWholeFunctionText text.now) }
    ensures fault { IfErr result (IsFaultOf whole_function_text text.now) }
{
    let (shape, rest) = function_text_at(alloc, text)?;
    end_at(Spelling::Lenient, rest)?;
    Ok(shape)
}

/// The function whose function text is at the front, and what follows the line `end`.
fn function_text_at(alloc: Global, text: &[u8]) -> Result<(Shape, &[u8]), PartFault>
    ensures { IsReading function_text text.now result }
{
    if begins_with_line(Spelling::Lenient, text, b"gj-function 2") {
        breaks_text_at(alloc, text)
    } else {
        points_text_at(alloc, text)
    }
}

/// The function whose text by points, or as one of a family, is at the front, and what follows the
/// line `end`.
fn points_text_at(alloc: Global, text: &[u8]) -> Result<(Shape, &[u8]), PartFault>
    ensures { IsReading points_text text.now result }
{
    let rest = words_at(Spelling::Lenient, text, b"gj-function 1")?;
    let (shape, rest) = body_at(alloc, rest)?;
    let rest = words_at(Spelling::Lenient, rest, b"end")?;
    Ok((shape, rest))
}

/// The function whose text by breakpoints is at the front, and what follows the line `end`.
fn breaks_text_at(alloc: Global, text: &[u8]) -> Result<(Shape, &[u8]), PartFault>
    ensures { IsReading breaks_text text.now result }
{
    let rest = words_at(Spelling::Lenient, text, b"gj-function 2")?;
    breaks_at(alloc, rest)
}
