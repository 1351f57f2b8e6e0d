//! The lines of groups, printed.
ghost use Rattle.std.specs.Prelude.{◌≡◌, ◌++◌, ◌∷◌, [], flat_map, OnOk};
ghost use Rattle.gj_limit_proof.specs.Sides.{sides_word};
ghost use Rattle.gj_limit_proof.specs.LimitText.{group_line, group_text};

use crate::claim::LimitPivotRow;
use crate::sides::sides_word;
use gj_lex::print_count;
use gj_limit_system::LimitRow;
use gj_proof::{push_column, push_reductions};
use gj_shape::FaceKind;
use std::alloc::AllocError;

/// Appends the lines of groups.
pub(crate) fn push_groups(out: &mut Vec<u8>, rows: &[LimitPivotRow]) -> Result<(), AllocError>
    ensures { OnOk result (out.new.items ≡ out.old.items ++ flat_map group_text rows.now) }
{
    for row in rows {
        push_group(out, row)?;
    }
    Ok(())
}

/// Appends the lines of a group: its row, its steps and its pivot.
fn push_group(out: &mut Vec<u8>, row: &LimitPivotRow) -> Result<(), AllocError>
    ensures { OnOk result (out.new.items ≡ out.old.items ++ group_text row.now) }
{
    push_row(out, row.name)?;
    push_reductions(out, row.reduce.as_slice())?;
    push_column(out, b"pivot ", row.pivot)
}

/// Appends the first line of a group.
fn push_row(out: &mut Vec<u8>, row: LimitRow) -> Result<(), AllocError>
    ensures { OnOk result (out.new.items ≡ out.old.items ++ group_line row) }
{
    match row {
        LimitRow::F => out.extend_from_slice(b"row f\n"),
        LimitRow::Tight { kind, corner, a, b } => {
            out.extend_from_slice(b"row ")?;
            print_count(out, a)?;
            if kind == FaceKind::Vertex {
                return push_column(out, b" ", b);
            }
            out.push(b' ')?;
            print_count(out, b)?;
            push_sides(out, kind, corner)
        }
    }
}

/// Appends a space, the word of the sides of a limit and the end of the line.
fn push_sides(out: &mut Vec<u8>, kind: FaceKind, corner: u32) -> Result<(), AllocError>
    ensures { OnOk result (out.new.items ≡
        out.old.items ++ 32 ∷ sides_word kind corner ++ 10 ∷ []) }
{
    out.push(b' ')?;
    out.extend_from_slice(sides_word(kind, corner))?;
    out.push(b'\n')?;
    Ok(())
}
