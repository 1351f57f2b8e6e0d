//! The words in the fields of a record.
ghost use Rattle.std.specs.Prelude.{◌≡◌, ◌<◌, ◌≤◌, ◌+◌, ◌^◌, ◌∷◌, [], Some, IfOk, IsTrue};
ghost use Rattle.std.specs.Prelude.{length, replicate, reverse, slice_get, take, not};
ghost use Rattle.std.specs.List.{count_by, position, position_or_len};
ghost use Rattle.csv.specs.Records.{fields_of};
ghost use Rattle.gj_lex.specs.Words.{is_blank};
ghost use Rattle.gj_row.specs.TableauText.{word_of, without_blanks_before};
ghost use Rattle.gj_row.specs.Reading.{fields_behind, fields_in, fields_of_line, is_comma};
ghost use Rattle.gj_row.specs.Reading.{words_in, words_of_fields};

use csv::ByteRecord;
use std::alloc::{AllocError, Global};
use std::simd::prelude::*;

/// So many bytes are counted at once, in numbers of one byte.
const PART: usize = 240;

/// The fields of a record.
#[derive(Drop)]
pub(crate) struct Fields<'a> {
    /// As `csv` read them.
    pub(crate) read: ByteRecord,
    /// The line in which they stand between commas, if the text has no quote.
    pub(crate) line: Option<&'a [u8]>,
}

/// Before the first record.
pub(crate) fn no_fields<'a>(alloc: Global) -> Fields<'a>
    ensures { fields_in result ≡ [] }
{
    Fields {
        read: ByteRecord::new(alloc),
        line: None,
    }
}

/// How many fields there are.
pub(crate) fn field_count(fields: &Fields<'_>) -> usize
    ensures { result ≡ length (fields_in fields.now) }
{
    match fields.line {
        Some(line) => commas(line) + 1,
        None => fields.read.len(),
    }
}

/// How many commas stand in the line.
fn commas(line: &[u8]) -> usize
    ensures count { result ≡ count_by is_comma line.now }
    ensures few { result < 2 ^ 63 }
{
    let mut count = 0;
    let mut left = line;
    while left.len() > PART {
        let (part, rest) = left.split_at(PART);
        let few = commas_in_part(part);
        count += few;
        left = rest;
    }
    let last = commas_in_part(left);
    count + last
}

/// How many commas stand in at most 240 bytes, so that one byte counts them.
fn commas_in_part(part: &[u8]) -> usize
    requires { length part.now ≤ 240 }
    ensures { result ≡ count_by is_comma part.now }
{
    let mut count = 0_u8;
    for byte in part {
        count += u8::from(*byte == b',');
    }
    usize::from(count)
}

/// The word in the first field.
pub(crate) fn first_word<'a>(fields: &'a Fields<'_>) -> &'a [u8]
    requires { 0 < length (fields_in fields.now) }
    ensures { slice_get (words_of_fields fields.now) 0 ≡ Some result.now }
{
    match fields.line {
        Some(line) => word_of(first_field(line).0),
        None => word_at(&fields.read, 0),
    }
}

/// The first field of the line, and what follows the comma behind it.
pub(crate) fn first_field(line: &[u8]) -> (&[u8], Option<&[u8]>)
    ensures { fields_of_line line.now ≡ result.0.now ∷ fields_behind result.1 }
{
    match first_comma(line) {
        Some(end) => (&line[..end], Some(&line[end + 1..])),
        None => (line, None),
    }
}

/// How many commas the line begins with.
pub(crate) fn leading_commas(line: &[u8]) -> usize
    ensures count { result ≡ position_or_len (λ b. not (is_comma b)) line.now }
    ensures within { result ≤ length line.now }
{
    if line.is_empty() || line[0] != b',' {
        return 0;
    }
    let left = behind_parts_of_commas(line);
    let more = first_filled(left).unwrap_or(left.len());
    line.len() - left.len() + more
}

/// What the line has behind the parts of 16 commas that it begins with.
fn behind_parts_of_commas(line: &[u8]) -> &[u8]
    ensures count { position_or_len (λ b. not (is_comma b)) line.now + length result.now ≡
        length line.now + position_or_len (λ b. not (is_comma b)) result.now }
    ensures shorter { length result.now ≤ length line.now }
{
    let mut left = line;
    while left.len() >= 16 && begins_with_commas(left) {
        left = &left[16..];
    }
    left
}

/// Whether the first 16 bytes are commas. They are compared at once.
fn begins_with_commas(line: &[u8]) -> bool
    requires { 16 ≤ length line.now }
    ensures { IsTrue result → take 16 line.now ≡ replicate 16 44 }
{
    u8x16::from_slice(line).simd_eq(u8x16::splat(b',')).all()
}

/// Where the first byte stands that is no comma.
fn first_filled(line: &[u8]) -> Option<usize>
    ensures { result ≡ position (λ b. not (is_comma b)) line.now }
{
    line.iter().position(|byte| *byte != b',')
}

/// Where the first comma stands.
fn first_comma(line: &[u8]) -> Option<usize>
    ensures { result ≡ position is_comma line.now }
{
    line.iter().position(|byte| *byte == b',')
}

/// The record with the fields of the line.
pub(crate) fn record_of_line(alloc: Global, line: &[u8]) -> Result<ByteRecord, AllocError>
    ensures { IfOk result (λ row. fields_of row ≡ fields_of_line line.now) }
{
    let mut fields = ByteRecord::new(alloc);
    let mut left = Some(line);
    while let Some(rest) = left {
        let (field, behind) = first_field(rest);
        fields.push_field(field)?;
        left = behind;
    }
    Ok(fields)
}

/// The word in the field at this place.
pub(crate) fn word_at(fields: &ByteRecord, place: usize) -> &[u8]
    requires { place < length (fields_of fields.now) }
    ensures { slice_get (words_in fields.now) place ≡ Some result.now }
{
    match fields.get(place) {
        Some(field) => word_of(field),
        None => unreachable!(),
    }
}

/// The word in the field: what is left without the spaces and tabs at both its ends.
pub(crate) fn word_of(field: &[u8]) -> &[u8]
    ensures { result.now ≡ word_of field.now }
{
    if field.is_empty() {
        return field;
    }
    without_blanks_behind(without_blanks_before(field))
}

/// From the first byte on that is no space or tab.
fn without_blanks_before(field: &[u8]) -> &[u8]
    ensures { result.now ≡ without_blanks_before field.now }
{
    &field[first_visible(field).unwrap_or(field.len())..]
}

/// Up to the last byte that is no space or tab.
fn without_blanks_behind(field: &[u8]) -> &[u8]
    ensures { result.now ≡ reverse (without_blanks_before (reverse field.now)) }
{
    &field[..field.len() - last_visible(field).unwrap_or(field.len())]
}

/// How many bytes stand before the first that is no space or tab.
fn first_visible(field: &[u8]) -> Option<usize>
    ensures { result ≡ position (λ b. not (is_blank b)) field.now }
{
    field.iter().position(|byte| !matches!(*byte, b' ' | b'\t'))
}

/// How many bytes stand behind the last that is no space or tab.
fn last_visible(field: &[u8]) -> Option<usize>
    ensures { result ≡ position (λ b. not (is_blank b)) (reverse field.now) }
{
    field
        .iter()
        .rev()
        .position(|byte| !matches!(*byte, b' ' | b'\t'))
}
