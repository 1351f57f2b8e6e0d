//! Words of a line.

ghost use Rattle.std.specs.Prelude.{◌≡◌, ◌≤◌, not, length, map, IfOk, IfNone, IfSome};
ghost use Rattle.std.specs.List.{position};
ghost use Rattle.gj_lex.specs.Words.{AllBlank, AreWords, IsNextWord, is_blank};
ghost use Rattle.gj_lex.specs.Words.{word_text, word_texts};

use std::alloc::{AllocError, Global};

/// The start and the end of each word of the line, in order: of each run of bytes other than space
/// and tab.
pub fn words_of(alloc: Global, line: &[u8]) -> Result<Vec<(usize, usize)>, AllocError>
    ensures spans { IfOk result (λ words. AreWords line.now 0 words.items) }
    ensures texts { IfOk result (λ words.
        map (word_text line.now) words.items ≡ word_texts line.now) }
{
    let mut words = Vec::new(alloc);
    let mut place = 0;
    while let Some((start, end)) = next_word(line, place) {
        words.push((start, end))?;
        place = end;
    }
    Ok(words)
}

/// The start and the end of the first word from a place on.
fn next_word(line: &[u8], from: usize) -> Option<(usize, usize)>
    requires { from ≤ length line.now }
    ensures none { IfNone result (AllBlank line.now from (length line.now)) }
    ensures word { IfSome result (λ word. IsNextWord line.now from word.0 word.1) }
{
    let start = from + first_byte(&line[from..])?;
    let behind = &line[start..];
    let len = first_blank(behind).unwrap_or(behind.len());
    Some((start, start + len))
}

/// Where the first space or tab stands.
#[inline]
pub fn first_blank(bytes: &[u8]) -> Option<usize>
    ensures { result ≡ position is_blank bytes.now }
{
    bytes.iter().position(|byte| matches!(*byte, b' ' | b'\t'))
}

/// Where the first byte other than space and tab stands.
#[inline]
pub fn first_byte(bytes: &[u8]) -> Option<usize>
    ensures { result ≡ position (λ b. not (is_blank b)) bytes.now }
{
    bytes.iter().position(|byte| !matches!(*byte, b' ' | b'\t'))
}
