//! The groups of a row, its steps and its pivot, read.
ghost use Rattle.gj_forms.specs.Parts.{IsListReading, IsReading};
ghost use Rattle.gj_limit_proof.specs.LimitGrammar.{group_part, groups_part};

use crate::bounds::GREATEST_COLUMNS;
use crate::claim::LimitPivotRow;
use crate::rows::row_at;
use gj_forms::{PartFault, begins_with_line};
use gj_lex::Spelling;
use gj_proof::{column_at, steps_at};
use gj_shape::List;
use std::alloc::Global;

/// The groups up to a line `end`, for a function of this order, and that line with what follows it.
pub(crate) fn groups_at(
    alloc: Global,
    text: &[u8],
    order: u32,
) -> Result<(Vec<LimitPivotRow>, &[u8]), PartFault>
    ensures { IsListReading (groups_part order) text.now result }
{
    let mut rows = Vec::new(alloc);
    let mut rest = text;
    while !begins_with_line(Spelling::Strict, rest, b"end") {
        let (row, behind) = group_at(alloc, rest, order)?;
        rows.push(row)?;
        rest = behind;
    }
    Ok((rows, rest))
}

/// The group in the next lines, and what follows them.
fn group_at(alloc: Global, text: &[u8], order: u32) -> Result<(LimitPivotRow, &[u8]), PartFault>
    ensures { IsReading (group_part order) text.now result }
{
    let (name, rest) = row_at(text, order)?;
    let (columns, rest) = steps_at(alloc, rest, GREATEST_COLUMNS)?;
    let (pivot, rest) = column_at(rest, b"pivot", GREATEST_COLUMNS)?;
    let reduce = List::of(columns);
    Ok((
        LimitPivotRow {
            name,
            reduce,
            pivot,
        },
        rest,
    ))
}
