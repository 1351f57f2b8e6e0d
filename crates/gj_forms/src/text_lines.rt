//! The lines of a text, in either spelling.

ghost use Rattle.std.specs.Prelude.{◌≡◌, ◌≢◌, ◌-◌, ◌==◌, ◌↔◌, ◌<◌, ◌∷◌, ◌++◌, [], ℕ, List, All};
ghost use Rattle.std.specs.Prelude.{length, drop, slice_index, IfSome, IfNone, IfOk, IfErr, OnOk};
ghost use Rattle.std.specs.Prelude.{IsTrue, not};
ghost use Rattle.std.specs.List.{position_or_len, slice_split};
ghost use Rattle.gj_lex.specs.Words.{is_blank, word_texts};
ghost use Rattle.gj_forms.specs.TextLines.{AreBytesOf, HasFirstWords, HasNextLine, IsSkipped};
ghost use Rattle.gj_forms.specs.TextLines.{IsSkippedText, HasLine, HasNothing, IsWord};
ghost use Rattle.gj_forms.specs.TextLines.{HasStrictLine, IsLineNumber};
ghost use Rattle.gj_forms.specs.Parts.{line_part, words_rule, IsPassing, IsRefusal, IsNoLine};
ghost use Rattle.gj_forms.specs.Parts.{IsTail};

use crate::fault::PartFault;
use crate::fields::has_words;
use gj_lex::{Reason, Spelling, first_byte, first_line_feed};
use memchr::memchr_iter;

/// A line of a text.
#[derive(Clone, Copy, Debug)]
pub struct TextLine<'a> {
    /// The text from the line on.
    pub start: &'a [u8],
    /// The bytes of the line, without its LF; in lenient spelling without a CR before that.
    pub bytes: &'a [u8],
    /// What follows the line.
    pub rest: &'a [u8],
}

impl<'a> TextLine<'a> {
    /// What was read of the line, with what follows it, or the fault of the line for this reason.
    pub fn with_rest<T>(self, read: Result<T, Reason>) -> Result<(T, &'a [u8]), PartFault>
        ensures found { IfOk result (λ r. (read ≡ Ok r.0) × (r.1.now ≡ self.entry.rest.now)) }
        ensures fault { IfErr result (λ e. (reason : Reason) × (read ≡ Err reason)
            × (e ≡ PartFault.Refused (length self.entry.start.now) reason)) }
    {
        match read {
            Ok(thing) => Ok((thing, self.rest)),
            Err(reason) => Err(PartFault::at(self.start, reason)),
        }
    }
}

/// The next line of the text. If there is none, the fault is `Form`: in lenient spelling at the end
/// of the text, and in strict spelling at the bytes that are no line. It takes no memory.
pub fn line_at(spelling: Spelling, text: &[u8]) -> Result<TextLine<'_>, PartFault>
    ensures found { IfOk result (λ l. HasLine spelling text.now l.start.now
        (word_texts l.bytes.now) l.rest.now) }
    ensures fault { IfErr result (IsNoLine spelling text.now) }
{
    match spelling {
        Spelling::Lenient => next_lenient_line(text).ok_or(PartFault::at(b"", Reason::Form)),
        Spelling::Strict => strict_line(text).ok_or(PartFault::at(text, Reason::Form)),
    }
}

/// What follows the next line of the text, if that has the words of `words` and no others. It takes
/// no memory.
pub fn words_at<'a>(spelling: Spelling, text: &'a [u8], words: &[u8]) -> Result<&'a [u8], PartFault>
    ensures passed { IsPassing (line_part spelling (words_rule (word_texts words.now)))
        text.now result }
    ensures no_memory { IfErr result IsRefusal }
{
    let line = line_at(spelling, text)?;
    if !has_words(line.bytes, words) {
        return Err(PartFault::at(line.start, Reason::Form));
    }
    Ok(line.rest)
}

/// Nothing follows: no byte, or in lenient spelling only lines that are skipped. If something
/// follows, the fault is `Tail`. It takes no memory.
pub fn end_at(spelling: Spelling, text: &[u8]) -> Result<(), PartFault>
    ensures ended { OnOk result (HasNothing spelling text.now) }
    ensures fault { IfErr result (IsTail spelling text.now) }
{
    match spelling {
        Spelling::Lenient => match next_lenient_line(text) {
            None => Ok(()),
            Some(line) => Err(PartFault::at(line.start, Reason::Tail)),
        },
        Spelling::Strict => {
            if !text.is_empty() {
                return Err(PartFault::at(text, Reason::Tail));
            }
            Ok(())
        }
    }
}

/// The number of the line from which on so many bytes of the text are left.
pub fn line_number(text: &[u8], left: usize) -> u64
    ensures { IsLineNumber text.now (drop (length text.now - left) text.now) result }
{
    let front = &text[..text.len().saturating_sub(left)];
    memchr_iter(b'\n', front).count() as u64 + 1
}

// ---- lenient lines

/// The first line of the text that is not skipped.
fn next_lenient_line(text: &[u8]) -> Option<TextLine<'_>>
    ensures found { IfSome result (λ l. HasNextLine l.start.now
        (word_texts l.bytes.now) l.rest.now text.now) }
    ensures none { IfNone result (IsSkippedText text.now) }
{
    let mut left = text;
    while !left.is_empty() {
        if begins_comment(left) {
            left = behind_comment(left);
        } else {
            let line = first_line(left);
            if !is_skipped(line.bytes) {
                return Some(line);
            }
            left = line.rest;
        }
    }
    None
}

/// Whether the text begins with a comment: its first byte other than space and tab is `#`.
#[inline(always)]
fn begins_comment(text: &[u8]) -> bool
    requires { 0 < length text.now }
    ensures { IsTrue result ↔
        (slice_index text.now (position_or_len (λ b. not (is_blank b)) text.now) ≡ 35) }
{
    if text[0] == b'#' {
        return true;
    }
    match first_byte(text) {
        Some(place) => text[place] == b'#',
        None => false,
    }
}

/// What follows the first line of the text, if that is a comment: it is skipped.
fn behind_comment(text: &[u8]) -> &[u8]
    requires { slice_index text.now (position_or_len (λ b. not (is_blank b)) text.now) ≡ 35 }
    ensures { (words : List (List ℕ)) × HasFirstWords text.now words result.now × IsSkipped words }
{
    match first_line_feed(text) {
        Some(end) => &text[end + 1..],
        None => b"",
    }
}

/// The first line of the text, skipped or not: up to its first LF, or all of a text without LF.
fn first_line(text: &[u8]) -> TextLine<'_>
    requires { 0 < length text.now }
    ensures start { result.start.now ≡ text.now }
    ensures words { HasFirstWords text.now (word_texts result.bytes.now) result.rest.now }
{
    match first_line_feed(text) {
        Some(end) => TextLine {
            start: text,
            bytes: without_return(&text[..end]),
            rest: &text[end + 1..],
        },
        None => TextLine {
            start: text,
            bytes: text,
            rest: b"",
        },
    }
}

/// The line without the CR at its end, if one stands there.
fn without_return(line: &[u8]) -> &[u8]
    ensures { (rest : List ℕ) → AreBytesOf (line.now ++ 10 ∷ rest) line.now result.now }
{
    match line.split_last() {
        Some((b'\r', front)) => front,
        _ => line,
    }
}

/// Whether a line is skipped: it has no word, or its first word begins with `#`.
fn is_skipped(bytes: &[u8]) -> bool
    ensures { IsTrue result ↔ IsSkipped (word_texts bytes.now) }
{
    match first_byte(bytes) {
        Some(place) => bytes[place] == b'#',
        None => true,
    }
}

// ---- strict lines

/// The strict line at the front of the text.
fn strict_line(text: &[u8]) -> Option<TextLine<'_>>
    ensures found { IfSome result (λ l. (l.start.now ≡ text.now) ×
        HasStrictLine text.now (word_texts l.bytes.now) l.rest.now) }
    ensures none { IfNone result ((words : List (List ℕ)) (rest : List ℕ) →
        HasStrictLine text.now words rest → ⊥) }
{
    let end = first_line_feed(text)?;
    let bytes = &text[..end];
    if !is_strict(bytes) {
        return None;
    }
    Some(TextLine {
        start: text,
        bytes,
        rest: &text[end + 1..],
    })
}

/// Whether the bytes are words with one space between them, and have no CR at their end.
fn is_strict(bytes: &[u8]) -> bool
    ensures { IsTrue result ↔ (All IsWord (slice_split (λ b. b == 32) bytes.now)
        × (slice_index bytes.now (length bytes.now - 1) ≢ 13)) }
{
    !ends_with_return(bytes) && are_words(bytes)
}

/// Whether a CR stands at the end of the bytes.
fn ends_with_return(bytes: &[u8]) -> bool
    ensures { IsTrue result ↔ (slice_index bytes.now (length bytes.now - 1) ≡ 13) }
{
    matches!(bytes.last(), Some(b'\r'))
}

/// Whether the bytes are words with one space between them.
fn are_words(bytes: &[u8]) -> bool
    ensures { IsTrue result ↔ All IsWord (slice_split (λ b. b == 32) bytes.now) }
{
    let mut start = 0;
    for (place, byte) in bytes.iter().enumerate() {
        if *byte == b' ' {
            if place == start {
                return false;
            }
            start = place + 1;
        } else if *byte == b'\t' || *byte == b'\n' {
            return false;
        }
    }
    start < bytes.len()
}
