//! Lines of an answer.
ghost use Rattle.std.specs.Prelude.{◌≡◌, ◌++◌, codes, decimal, IfOk};
ghost use Rattle.gj_function_lines.specs.FunctionLines.{line};
ghost use Rattle.gj_top.specs.Lines.{refused_line};

use gj_lex::Reason;
use std::alloc::{AllocError, Global};

/// A line that ends with the word.
pub(crate) fn worded_line(alloc: Global, front: &[u8], word: &str) -> Result<Vec<u8>, AllocError>
    ensures { IfOk result (λ text. text.items ≡ line (front.now ++ word.now)) }
{
    let mut text = Vec::from_slice(alloc, front)?;
    text.extend_from_slice(word.as_bytes())?;
    text.push(b'\n')?;
    Ok(text)
}

/// A line that names a line or a record of the input by its number, and says something of it.
pub(crate) fn numbered_line(
    alloc: Global,
    front: &[u8],
    at_line: u64,
    word: &str,
) -> Result<Vec<u8>, AllocError>
    ensures { IfOk result (λ text. text.items ≡ line
        (front.now ++ decimal at_line ++ codes " " ++ word.now)) }
{
    let number = at_line.to_string(alloc)?;
    let mut text = Vec::from_slice(alloc, front)?;
    text.extend_from_slice(number.as_bytes())?;
    text.push(b' ')?;
    text.extend_from_slice(word.as_bytes())?;
    text.push(b'\n')?;
    Ok(text)
}

/// The line that refuses an input for a line of it.
pub(crate) fn refusal(alloc: Global, at_line: u64, reason: Reason) -> Result<Vec<u8>, AllocError>
    ensures { IfOk result (λ text. text.items ≡ refused_line at_line reason) }
{
    numbered_line(alloc, b"refused line ", at_line, reason.word())
}
