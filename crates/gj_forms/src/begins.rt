//! How a text begins.
ghost use Rattle.std.specs.Prelude.{◌≡◌, ◌↔◌, ◌<◌, ◌++◌, IsTrue, IfSome, IfNone, OnSome, length};
ghost use Rattle.std.specs.Prelude.{slice_index, ℕ, List};
ghost use Rattle.gj_lex.specs.Words.{word_texts};
ghost use Rattle.gj_forms.specs.TextLines.{HasLine};
ghost use Rattle.gj_forms.specs.Parts.{BeginsWithLine, BeginsWithWord};

use crate::fields::{behind_name, split_word};
use crate::text_lines::{TextLine, line_at, words_at};
use gj_lex::Spelling;

/// Whether the next line of the text has these words and no others. It takes no memory.
pub fn begins_with_line(spelling: Spelling, text: &[u8], words: &[u8]) -> bool
    ensures { IsTrue result ↔ BeginsWithLine spelling (word_texts words.now) text.now }
{
    if let Some((word, _)) = split_word(words) {
        if !may_begin_with(spelling, text, word) {
            return false;
        }
    }
    words_at(spelling, text, words).is_ok()
}

/// Whether the next line of the text begins with this word. It takes no memory.
pub fn begins_with_word(spelling: Spelling, text: &[u8], word: &[u8]) -> bool
    ensures { IsTrue result ↔ BeginsWithWord spelling word.now text.now }
{
    line_with_word(spelling, text, word).is_some()
}

/// The next line of the text, if its first word is this word. It takes no memory.
pub fn line_with_word<'a>(spelling: Spelling, text: &'a [u8], word: &[u8]) -> Option<TextLine<'a>>
    ensures found { IfSome result (λ l. HasLine spelling text.now l.start.now
        (word_texts l.bytes.now) l.rest.now) }
    ensures begins { OnSome result (BeginsWithWord spelling word.now text.now) }
    ensures none { IfNone result (BeginsWithWord spelling word.now text.now → ⊥) }
{
    if !may_begin_with(spelling, text, word) {
        return None;
    }
    match line_at(spelling, text) {
        Ok(line) => {
            behind_name(line.bytes, word)?;
            Some(line)
        }
        Err(_) => None,
    }
}

/// What stands behind this text, if the bytes begin with it. It takes no memory.
///
/// A text of a few bytes is sought byte by byte, in less than a call of `strip_prefix` takes.
#[inline]
pub fn behind_text<'a>(bytes: &'a [u8], text: &[u8]) -> Option<&'a [u8]>
    ensures found { IfSome result (λ rest. bytes.now ≡ text.now ++ rest.now) }
    ensures none { IfNone result ((rest : List ℕ) → bytes.now ≡ text.now ++ rest → ⊥) }
{
    let mut rest = bytes;
    for byte in text {
        let (first, behind) = rest.split_first()?;
        if *first != *byte {
            return None;
        }
        rest = behind;
    }
    Some(rest)
}

/// Whether the next line of the text can begin with this word, by the first byte of the text: a
/// strict line begins with its first word.
fn may_begin_with(spelling: Spelling, text: &[u8], word: &[u8]) -> bool
    ensures { BeginsWithWord spelling word.now text.now → IsTrue result }
{
    match spelling {
        Spelling::Lenient => true,
        Spelling::Strict => !text.is_empty() && !word.is_empty() && text[0] == word[0],
    }
}
