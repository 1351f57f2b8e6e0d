//! The numbers of a row.
ghost use Rattle.std.specs.Prelude.{◌≡◌, ◌<◌, ◌≤◌, ◌+◌, ◌++◌, pos, Some, IfOk, IfErr, IfSome};
ghost use Rattle.std.specs.Prelude.{IfNone, OnOk, length, drop, map, ◌∷◌, []};
ghost use Rattle.csv.specs.Records.{fields_of};
ghost use Rattle.gj_frac.specs.declared.Frac.{Frac};
ghost use Rattle.gj_frac.specs.Fraction.{IsRatio};
ghost use Rattle.gj_lex.specs.SpelledNumbers.{IsFractionWord};
ghost use Rattle.gj_lex.specs.declared.spelling.Spelling.{Spelling};
ghost use Rattle.gj_shape.specs.Limits.{denominator_bound, greatest_number};
ghost use Rattle.gj_shape.specs.Denominators.{Extends};
ghost use Rattle.gj_row.specs.TableauLimits.{most_columns, most_entries};
ghost use Rattle.gj_row.specs.TableauText.{SpellsEntry, entry_at, is_zero, word_of};
ghost use Rattle.gj_row.specs.FirstFault.{HasNumberFault};
ghost use Rattle.gj_row.specs.Reading.{StopsNumber, StopsEntry, StopsAtFirst, BeginsWithEntry};
ghost use Rattle.gj_row.specs.Reading.{HasRead, NamesReason, fields_behind, fields_in};
ghost use Rattle.gj_row.specs.Reading.{fields_of_line, words_in, words_of_fields};

use crate::faults::{RecordFault, RowReason};
use crate::fields::{Fields, first_field, leading_commas, word_at, word_of};
use crate::limits::within;
use crate::tableau::Entry;
use csv::ByteRecord;
use gj_frac::Frac;
use gj_lex::{Spelling, fraction_of, leading_decimal, leading_ratio};
use std::alloc::{AllocError, Global};

/// The greatest number of entries of a tableau that are not 0.
const MOST_ENTRIES: usize = 100_000;

/// The right side and the entries of a row.
#[derive(Drop)]
pub(crate) struct Numbers {
    /// The right side.
    pub(crate) rhs: Frac,
    /// The least common denominator of all numbers of the row.
    pub(crate) scale: u32,
    /// The entries that are not 0.
    pub(crate) entries: Vec<Entry>,
}

/// The numbers that stand behind the name, if the rows before it have `used` entries that are
/// not 0. Room is made for at most `likely` entries of a line before it is read.
pub(crate) fn numbers_of(
    alloc: Global,
    fields: &Fields<'_>,
    used: usize,
    likely: usize,
) -> Result<Numbers, RecordFault>
    requires wide { 2 ≤ length (fields_in fields.now) }
    requires narrow { length (fields_in fields.now) ≤ most_columns + 2 }
    requires few { used ≤ most_entries }
    ensures found { IfOk result (λ n. HasRead used (drop 1 (words_of_fields fields.now))
        n.rhs n.scale n.entries.items) }
    ensures refused { IfErr result
        (NamesReason (HasNumberFault used (drop 1 (words_of_fields fields.now)))) }
{
    let Some(line) = fields.line else {
        return numbers_in(alloc, &fields.read, used);
    };
    match first_field(line).1 {
        Some(numbers) => numbers_in_line(alloc, numbers, used, likely),
        None => unreachable!(),
    }
}

/// The numbers that stand in the line, if the rows before it have `used` entries that are not 0.
/// Room is made for at most `likely` entries before they are read.
// Its loop needs all registers: it stays a function of its own.
#[inline(never)]
fn numbers_in_line(
    alloc: Global,
    line: &[u8],
    used: usize,
    likely: usize,
) -> Result<Numbers, RecordFault>
    requires narrow { length (fields_of_line line.now) ≤ most_columns + 1 }
    requires few { used ≤ most_entries }
    ensures found { IfOk result (λ n. HasRead used (map word_of (fields_of_line line.now))
        n.rhs n.scale n.entries.items) }
    ensures refused { IfErr result
        (NamesReason (HasNumberFault used (map word_of (fields_of_line line.now)))) }
{
    let (right, behind) = first_field(line);
    let (rhs, mut scale) = right_side(word_of(right))?;
    let mut entries = Vec::with_capacity(alloc, room_in(line, likely))?;
    let mut column = 0;
    let mut left = behind;
    while let Some(rest) = left {
        let empty = leading_commas(rest);
        column += empty as u32;
        let front = &rest[empty..];
        match first_decimal(front) {
            Some((x, next)) => {
                scale = with_number(&mut entries, scale, used, column, Some(x))?;
                left = next;
            }
            None => {
                let (multiple, next) = with_first(&mut entries, scale, used, column, front)?;
                scale = multiple;
                left = next;
            }
        }
        column += 1;
    }
    Ok(Numbers {
        rhs,
        scale,
        entries,
    })
}

/// The numbers that stand in the record behind the name, if the rows before it have `used` entries
/// that are not 0.
fn numbers_in(alloc: Global, fields: &ByteRecord, used: usize) -> Result<Numbers, RecordFault>
    requires wide { 2 ≤ length (fields_of fields.now) }
    requires narrow { length (fields_of fields.now) ≤ most_columns + 2 }
    requires few { used ≤ most_entries }
    ensures found { IfOk result (λ n. HasRead used
        (drop 1 (words_in fields.now)) n.rhs n.scale n.entries.items) }
    ensures refused { IfErr result (NamesReason (HasNumberFault used
        (drop 1 (words_in fields.now)))) }
{
    let (rhs, mut scale) = right_side(word_at(fields, 1))?;
    let mut entries = Vec::with_capacity(alloc, room_in_record(fields))?;
    for place in 2..fields.len() {
        let word = word_at(fields, place);
        let number = entry_number(word);
        scale = with_number(&mut entries, scale, used, (place - 2) as u32, number)?;
    }
    Ok(Numbers {
        rhs,
        scale,
        entries,
    })
}

/// How many entries of a record to make room for: as many as there are columns, but no more than
/// its bytes would spell by eight each, so that a row whose fields are mostly empty takes no room
/// for all columns.
fn room_in_record(fields: &ByteRecord) -> usize
    requires { 2 ≤ length (fields_of fields.now) }
{
    (fields.len() - 2).min(fields.as_slice().len() / 8)
}

/// How many entries of a line to make room for: at most `likely`, and at most one for each eight of
/// its bytes.
fn room_in(line: &[u8], likely: usize) -> usize {
    (line.len() / 8).min(likely)
}

/// The number that the first field of the line spells, and what follows the comma behind it, if the
/// field is a short decimal without a blank, as most are: it is read where it stands, before its
/// end is known.
#[inline(always)]
fn first_decimal(line: &[u8]) -> Option<(Frac, Option<&[u8]>)>
    ensures { IfSome result (λ r. BeginsWithEntry line.now r.0 (fields_behind r.1)) }
{
    let (x, rest) = leading_decimal(line)?;
    match rest.split_first() {
        None => Some((x, None)),
        Some((b',', behind)) => Some((x, Some(behind))),
        Some((_, _)) => None,
    }
}

/// The number that the first field of the line spells, and what follows the comma behind it, if the
/// field is a fraction of two short numbers without a blank. It is read where it stands.
#[inline(always)]
fn first_ratio(line: &[u8]) -> Option<(Frac, Option<&[u8]>)>
    ensures { IfSome result (λ r. BeginsWithEntry line.now r.0 (fields_behind r.1)) }
{
    let (x, rest) = leading_ratio(line)?;
    match rest.split_first() {
        None => Some((x, None)),
        Some((b',', behind)) => Some((x, Some(behind))),
        Some((_, _)) => None,
    }
}

/// Adds the number that the first field of the line spells, in whatever form, as the entry for the
/// column, unless it is 0, and gives the least common denominator with it, and what follows the
/// comma behind the field. The reason is `Number` if the field spells none.
// What is no short decimal comes here. A call keeps it out of the registers of the loop over these.
#[inline(never)]
fn with_first<'a>(
    entries: &mut Vec<Entry>,
    scale: u32,
    used: usize,
    column: u32,
    line: &'a [u8],
) -> Result<(u32, Option<&'a [u8]>), RecordFault>
    requires low { 0 < scale }
    requires high { scale < denominator_bound }
    requires few { used + length entries.old.items ≤ most_entries }
    ensures found { IfOk result (λ r. (x : Frac) ×
        BeginsWithEntry line.now x (fields_behind r.1) ×
        Extends greatest_number scale x r.0
        × (entries.new.items ≡ entries.old.items ++ entry_at column x) ×
        (used + length entries.new.items ≤ most_entries)) }
    ensures refused { IfErr result (NamesReason (StopsAtFirst line.now scale
        (used + length entries.old.items))) }
{
    match first_ratio(line) {
        Some((x, behind)) => {
            let multiple = with_number(entries, scale, used, column, Some(x))?;
            Ok((multiple, behind))
        }
        None => with_field(entries, scale, used, column, line),
    }
}

/// The same, for a field that is cut out first.
// Long numbers, fields with blanks and empty fields at the end come here.
#[inline(never)]
fn with_field<'a>(
    entries: &mut Vec<Entry>,
    scale: u32,
    used: usize,
    column: u32,
    line: &'a [u8],
) -> Result<(u32, Option<&'a [u8]>), RecordFault>
    requires low { 0 < scale }
    requires high { scale < denominator_bound }
    requires few { used + length entries.old.items ≤ most_entries }
    ensures found { IfOk result (λ r. (x : Frac) ×
        BeginsWithEntry line.now x (fields_behind r.1) ×
        Extends greatest_number scale x r.0
        × (entries.new.items ≡ entries.old.items ++ entry_at column x) ×
        (used + length entries.new.items ≤ most_entries)) }
    ensures refused { IfErr result (NamesReason (StopsAtFirst line.now scale
        (used + length entries.old.items))) }
{
    let (field, behind) = first_field(line);
    let number = entry_number(word_of(field));
    let multiple = with_number(entries, scale, used, column, number)?;
    Ok((multiple, behind))
}

/// Adds the number as the entry for the column, unless it is 0, and gives the least common
/// denominator with it. The reason is `Number` if there is none.
// Each field passes it.
#[inline(always)]
fn with_number(
    entries: &mut Vec<Entry>,
    scale: u32,
    used: usize,
    column: u32,
    number: Option<Frac>,
) -> Result<u32, RecordFault>
    requires low { 0 < scale }
    requires high { scale < denominator_bound }
    requires few { used + length entries.old.items ≤ most_entries }
    ensures found { IfOk result (λ m. (x : Frac) × (number ≡ Some x) ×
        Extends greatest_number scale x m
        × (entries.new.items ≡ entries.old.items ++ entry_at column x) ×
        (used + length entries.new.items ≤ most_entries)) }
    ensures refused { IfErr result (NamesReason (StopsEntry (λ x. number ≡ Some x) scale
        (used + length entries.old.items))) }
{
    let (x, multiple) = within(scale, number)?;
    if is_zero(x) {
        return Ok(multiple);
    }
    if used + entries.len() >= MOST_ENTRIES {
        return Err(RecordFault::Refused(RowReason::Entries));
    }
    push_entry(entries, Entry { column, value: x })?;
    Ok(multiple)
}

/// Adds the entry. Where there is room for it, as mostly, it needs no call.
#[inline(always)]
fn push_entry(entries: &mut Vec<Entry>, entry: Entry) -> Result<(), AllocError>
    ensures { OnOk result (entries.new.items ≡ entries.old.items ++ entry ∷ []) }
{
    if entries.len() < entries.capacity() {
        entries.push_reserved(entry);
        return Ok(());
    }
    entries.push(entry)?;
    Ok(())
}

/// Whether the number is 0.
fn is_zero(x: Frac) -> bool
    ensures { result ≡ is_zero x }
{
    x.num() == 0
}

/// The right side that the word spells, and its denominator.
fn right_side(word: &[u8]) -> Result<(Frac, u32), RowReason>
    ensures found { IfOk result (λ r. IsFractionWord Spelling.Lenient word.now r.0 ×
        Extends greatest_number 1 r.0 r.1) }
    ensures refused { IfErr result (StopsNumber (IsFractionWord Spelling.Lenient word.now) 1) }
{
    within(1, fraction_of(Spelling::Lenient, word))
}

/// The number that the word spells as an entry: 0 if it is empty.
fn entry_number(word: &[u8]) -> Option<Frac>
    ensures found { IfSome result (SpellsEntry word.now) }
    ensures none { IfNone result ((x : Frac) → SpellsEntry word.now x → ⊥) }
{
    if word.is_empty() {
        return Frac::new(0, 1);
    }
    fraction_of(Spelling::Lenient, word)
}
