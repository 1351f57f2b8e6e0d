//! Lines of a source, one after another.

ghost use Rattle.std.specs.Prelude.{◌≡◌, ◌↔◌, ◌≤◌, length, IfSome, IfNone, IsNone, OnSome};
ghost use Rattle.std.specs.List.{after_first, before_first, position, slice_range};
ghost use Rattle.gj_lex.specs.Lines.{GivesLine, IsLine, is_line_feed, rest_of};

use crate::line_feeds::first_line_feed;
use std::marker::Model;

/// A line of a source: the bytes from `start` up to `end`. Lines are numbered from 1.
#[derive(Clone, Copy, Debug, PartialEq, Eq)]
pub struct LineSpan {
    pub number: u64,
    pub start: usize,
    pub end: usize,
}

/// Goes over the lines of a source. Contracts see it as the source, the position of the next byte
/// and the number of lines so far.
#[derive(Drop)]
pub struct Cursor<'a> {
    bytes: &'a [u8],
    position: usize,
    lines: u64,
}

impl<'a> Model for Cursor<'a> {
    ghost use Rattle.std.specs.Prelude.{◌≤◌, length};
    ghost use Rattle.gj_lex.specs.Lines.{CursorState};

    ghost Value = { CursorState };

    ghost view = { λ c. record { source = c.bytes.now; position = c.position; lines = c.lines } };

    ghost invariant = { λ c. (c.lines ≤ c.position) × (c.position ≤ length c.bytes.now) };
}

impl<'a> Cursor<'a> {
    /// A cursor before the first byte of the source.
    pub fn new(bytes: &'a [u8]) -> Cursor<'a>
        ensures { result ≡ record { source = bytes.now; position = 0; lines = 0 } }
    {
        Cursor {
            bytes,
            position: 0,
            lines: 0,
        }
    }

    /// What is left of the source.
    pub fn rest(&self) -> &'a [u8]
        ensures { result.now ≡ rest_of self.now }
    {
        &self.bytes[self.position..]
    }

    /// The next line of the source. It ends before its LF or at the end of the source, and keeps a
    /// CR. None exactly if no byte is left. It takes no memory.
    pub fn next_line(&mut self) -> Option<LineSpan>
        ensures none { IsNone result ↔ (self.old.position ≡ length self.old.source) }
        ensures ended { IfNone result (self.new ≡ self.old) }
        ensures line { IfSome result (GivesLine self.old self.new) }
        ensures bytes { IfSome result (λ span. slice_range self.old.source span.start span.end ≡
            before_first is_line_feed (rest_of self.old)) }
        ensures rest { OnSome result
            (rest_of self.new ≡ after_first is_line_feed (rest_of self.old)) }
    {
        if self.position == self.bytes.len() {
            return None;
        }
        let start = self.position;
        let end = line_end(self.bytes, start);
        self.position = (end + 1).min(self.bytes.len());
        self.lines += 1;
        Some(LineSpan {
            number: self.lines,
            start,
            end,
        })
    }
}

/// Where the line that begins at `start` ends.
fn line_end(bytes: &[u8], start: usize) -> usize
    requires { start ≤ length bytes.now }
    ensures { IsLine bytes.now start result }
{
    match first_line_feed(&bytes[start..]) {
        Some(len) => start + len,
        None => bytes.len(),
    }
}
