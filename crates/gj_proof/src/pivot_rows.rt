//! The groups of a row, its steps and its pivot, read.
ghost use Rattle.std.specs.Prelude.{◌≡◌, ◌≤◌, [], ◌∷◌, codes, IfOk, IfErr};
ghost use Rattle.gj_lex.specs.Words.{word_texts};
ghost use Rattle.gj_forms.specs.Parts.{IsListReading, IsReading};
ghost use Rattle.gj_lex.specs.declared.reason.Reason.TheVariants.{Number};
ghost use Rattle.gj_forms.specs.LineForms.{AreLine, BreaksForm};
ghost use Rattle.gj_shape.specs.Limits.{greatest_order};
ghost use Rattle.gj_proof.specs.ProofGrammar.{row_name_form, column_form, form_part, steps_part};
ghost use Rattle.gj_proof.specs.ProofGrammar.{group_part, groups_part};

use crate::fields::count_below;
use crate::pivot::PivotRow;
use gj_forms::{
    PartFault, begins_with_line, begins_with_word, field_of, has_words, line_at, two_fields_of,
};
use gj_lex::{Reason, Spelling};
use gj_shape::{GREATEST_ORDER, List, RowName};
use std::alloc::Global;

/// The groups up to a line `end`, for a function of this order, and that line with what follows it.
pub(crate) fn groups_at(
    alloc: Global,
    text: &[u8],
    order: u32,
) -> Result<(Vec<PivotRow>, &[u8]), PartFault>
    ensures { IsListReading (groups_part order) text.now result }
{
    let mut rows = Vec::new(alloc);
    let mut rest = text;
    while !begins_with_line(Spelling::Strict, rest, b"end") {
        let (row, behind) = group_at(alloc, rest, order)?;
        rows.push(row)?;
        rest = behind;
    }
    Ok((rows, rest))
}

/// The group in the next lines, and what follows them.
fn group_at(alloc: Global, text: &[u8], order: u32) -> Result<(PivotRow, &[u8]), PartFault>
    ensures { IsReading (group_part order) text.now result }
{
    let (name, rest) = row_name_at(text, order)?;
    let (columns, rest) = steps_at(alloc, rest, GREATEST_ORDER)?;
    let (pivot, rest) = column_at(rest, b"pivot", GREATEST_ORDER)?;
    let reduce = List::of(columns);
    Ok((
        PivotRow {
            name,
            reduce,
            pivot,
        },
        rest,
    ))
}

/// The steps in the next lines, as long as these begin with `reduce`, each of them a column below
/// the limit, and what follows them.
pub fn steps_at(alloc: Global, text: &[u8], limit: u32) -> Result<(Vec<u32>, &[u8]), PartFault>
    ensures { IsListReading (steps_part limit) text.now result }
{
    let mut columns = Vec::new(alloc);
    let mut rest = text;
    while begins_with_word(Spelling::Strict, rest, b"reduce") {
        let (column, behind) = column_at(rest, b"reduce", limit)?;
        columns.push(column)?;
        rest = behind;
    }
    Ok((columns, rest))
}

/// The column below the limit in the next line, behind the word, and what follows the line. It
/// takes no memory.
pub fn column_at<'a>(text: &'a [u8], word: &[u8], limit: u32) -> Result<(u32, &'a [u8]), PartFault>
    ensures { IsReading (form_part (column_form word.now limit)) text.now result }
{
    let line = line_at(Spelling::Strict, text)?;
    line.with_rest(column_in(line.bytes, word, limit))
}

/// The column below the limit of the line, behind the word.
fn column_in(line: &[u8], word: &[u8], limit: u32) -> Result<u32, Reason>
    ensures found { IfOk result (AreLine (column_form word.now limit) (word_texts line.now)) }
    ensures fault { IfErr result (BreaksForm (column_form word.now limit) (word_texts line.now)) }
{
    let Some(column) = field_of(line, word) else {
        return Err(Reason::Form);
    };
    count_below(column, limit)
}

/// The name of the row in the next line, and what follows the line. It takes no memory.
fn row_name_at(text: &[u8], order: u32) -> Result<(RowName, &[u8]), PartFault>
    ensures { IsReading (form_part (row_name_form order)) text.now result }
{
    let line = line_at(Spelling::Strict, text)?;
    line.with_rest(row_name_in(line.bytes, order))
}

/// The name of the row that the line tells.
fn row_name_in(line: &[u8], order: u32) -> Result<RowName, Reason>
    ensures found { IfOk result (AreLine (row_name_form order) (word_texts line.now)) }
    ensures fault { IfErr result (BreaksForm (row_name_form order) (word_texts line.now)) }
{
    if has_words(line, b"row period") {
        return Ok(RowName::Period);
    }
    if has_words(line, b"row f") {
        return Ok(RowName::F);
    }
    let Some((first, second)) = two_fields_of(line, b"row") else {
        return Err(Reason::Form);
    };
    let a = count_below(first, order)?;
    let b = count_below(second, order)?;
    if a < 1 || b < a {
        return Err(Reason::Number);
    }
    Ok(RowName::Pair(a, b))
}
