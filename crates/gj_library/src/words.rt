//! The words of a call.
ghost use Rattle.std.specs.Prelude.{◌≡◌, ◌==◌, map, IfOk, string_bytes};
ghost use Rattle.std.specs.List.{slice_split};
ghost use Rattle.gj_library.specs.Call.{AreWordsOf};

use std::alloc::{AllocError, Global};

/// The words that the bytes hold, with one blank between two; none if the bytes are not UTF-8.
pub(crate) fn words_of(alloc: Global, bytes: &[u8]) -> Result<Vec<String>, AllocError>
    ensures { IfOk result (λ words. AreWordsOf bytes.now words.items) }
{
    match str::from_utf8(bytes) {
        Ok(text) => pieces_of(alloc, text),
        Err(_) => Ok(Vec::new(alloc)),
    }
}

/// The pieces of a text between its blanks.
fn pieces_of(alloc: Global, text: &str) -> Result<Vec<String>, AllocError>
    ensures { IfOk result (λ words. map string_bytes words.items ≡ slice_split
        (λ b. b == 32) text.now) }
{
    let pieces = slices_of(alloc, text)?;
    let mut words = Vec::new(alloc);
    for piece in &pieces {
        words.push(String::from_str(alloc, piece)?)?;
    }
    Ok(words)
}

/// The same, without copies.
fn slices_of(alloc: Global, text: &str) -> Result<Vec<&str>, AllocError>
    ensures { IfOk result (λ pieces. map (λ piece. piece.now) pieces.items ≡ slice_split
        (λ b. b == 32) text.now) }
{
    text.split(' ').collect(alloc)
}
