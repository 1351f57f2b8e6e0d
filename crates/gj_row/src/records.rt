//! The records of a text, one after the other.
//!
//! A text with a quote is read by `csv`. In any other the records are its lines, and the fields of
//! a line stand between commas.
ghost use Rattle.std.specs.Prelude.{◌≡◌, [], IfOk, IfSome, IfNone, All, true, false, not};
ghost use Rattle.std.specs.List.{position};
ghost use Rattle.csv.specs.Reading.{strip_bom};
ghost use Rattle.gj_row.specs.Reading.{IsAtEnd, IsFirstLine, ReaderStandsBehind, StandsBehind};
ghost use Rattle.gj_row.specs.Reading.{StepsOver, fields_in, is_line_end};

use crate::fields::Fields;
use csv::{Reader, ReaderBuilder};
use memchr::{memchr, memchr2};
use std::alloc::{AllocError, Global};

/// What is left of the records of a text.
#[derive(Drop)]
pub(crate) enum Records<'a> {
    /// The records of a text with quotes. What reads them has a buffer of 8 KB, for which no other
    /// text makes room.
    Quoted(Box<Reader<&'a [u8]>>),
    /// The rest of a text that has none.
    Plain(&'a [u8]),
}

/// The records of the text.
pub(crate) fn records_of(alloc: Global, bytes: &[u8]) -> Result<Records<'_>, AllocError>
    ensures { IfOk result (StandsBehind bytes.now []) }
{
    match memchr(b'"', bytes) {
        Some(_) => quoted_records(alloc, bytes),
        None => Ok(Records::Plain(without_mark(bytes))),
    }
}

/// The records of the text, as `csv` reads them.
// A call keeps the reader out of the frame of its caller.
#[inline(never)]
fn quoted_records(alloc: Global, bytes: &[u8]) -> Result<Records<'_>, AllocError>
    ensures { IfOk result (StandsBehind bytes.now []) }
{
    let reader = Box::new(alloc, reader_of(alloc, bytes))?;
    Ok(Records::Quoted(reader))
}

/// What reads the records of the text.
fn reader_of(alloc: Global, bytes: &[u8]) -> Reader<&[u8]>
    ensures { ReaderStandsBehind bytes.now [] result }
{
    ReaderBuilder::new()
        .has_headers(false)
        .flexible(true)
        .from_reader(alloc, bytes)
}

/// The text without a byte order mark at its start.
fn without_mark(bytes: &[u8]) -> &[u8]
    ensures { result.now ≡ strip_bom bytes.now }
{
    if bytes.len() >= 3 && bytes[0] == 0xEF && bytes[1] == 0xBB && bytes[2] == 0xBF {
        return &bytes[3..];
    }
    bytes
}

/// Reads the next record of a text into the fields, and says whether there is one.
///
/// Each error of `csv` is answered as want of memory: that reading from a slice fails in another
/// way is left open by its contract, and never comes.
pub(crate) fn next_record<'a>(
    records: &mut Records<'a>,
    fields: &mut Fields<'a>,
) -> Result<bool, AllocError>
    ensures some { IfOk result (λ found. found ≡ true →
        StepsOver records.old (fields_in fields.new) records.new) }
    ensures end { IfOk result (λ found. found ≡ false → IsAtEnd records.old) }
{
    match records {
        Records::Quoted(reader) => {
            fields.line = None;
            let Ok(found) = reader.read_byte_record(&mut fields.read) else {
                return Err(AllocError);
            };
            Ok(found)
        }
        Records::Plain(left) => match first_line(*left) {
            Some((line, after)) => {
                *left = after;
                fields.line = Some(line);
                Ok(true)
            }
            None => Ok(false),
        },
    }
}

/// The first line of the text that is not blank, and what follows it, from the byte on that ends
/// it.
fn first_line(text: &[u8]) -> Option<(&[u8], &[u8])>
    ensures some { IfSome result (λ r. IsFirstLine text.now r.0.now r.1.now) }
    ensures none { IfNone result (All (λ b. is_line_end b ≡ true) text.now) }
{
    let start = line_start(text)?;
    let left = &text[start..];
    let end = line_end(left).unwrap_or(left.len());
    Some((&left[..end], &left[end..]))
}

/// Where the first byte stands that ends no line.
fn line_start(text: &[u8]) -> Option<usize>
    ensures { result ≡ position (λ b. not (is_line_end b)) text.now }
{
    text.iter().position(|byte| !matches!(*byte, b'\r' | b'\n'))
}

/// Where the first byte stands that ends a line.
fn line_end(text: &[u8]) -> Option<usize>
    ensures { result ≡ position is_line_end text.now }
{
    memchr2(b'\r', b'\n', text)
}
