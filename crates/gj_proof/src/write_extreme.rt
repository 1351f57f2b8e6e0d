//! The lines of an extreme function and those of halves, printed.
ghost use Rattle.std.specs.Prelude.{◌≡◌, ◌++◌, All, codes, decimal, flat_map, zip, OnOk};
ghost use Rattle.std.specs.Fmt.{signed_decimal};
ghost use Rattle.gj_frac.specs.Fraction.{Fits};
ghost use Rattle.gj_shape.specs.Perturbation.{AreHalvesInBounds};
ghost use Rattle.gj_function_lines.specs.FunctionLines.{line};
ghost use Rattle.gj_proof.specs.ProofText.{group_line, reduction_line, modulus_text, extreme_text};
ghost use Rattle.gj_forms.specs.LineForms.{bytes_of};
ghost use Rattle.gj_proof.specs.ProofText.{halves_fields, halves_line, pair_line, group_text};
ghost use Rattle.gj_proof.specs.ProofText.{halves_text};

use crate::numbers::{MODULUS, Numbers};
use crate::pivot::PivotRow;
use gj_function_lines::push_cover_lines;
use gj_lex::print_count;
use gj_shape::{CoverLine, Halves, RowName};
use itoa::Buffer;
use std::alloc::AllocError;

/// Appends the lines of a proof that a function is extreme by rows of these numbers: those of the
/// covered intervals, that of the modulus, and those of the groups.
pub(crate) fn push_extreme_lines(
    out: &mut Vec<u8>,
    numbers: Numbers,
    lines: &[CoverLine],
    rows: &[PivotRow],
) -> Result<(), AllocError>
    ensures { OnOk result (out.new.items ≡ out.old.items ++ extreme_text numbers
        lines.now rows.now) }
{
    push_cover_lines(out, lines)?;
    push_modulus(out, numbers)?;
    push_groups(out, rows)
}

/// Appends the line of the modulus, by residues.
pub fn push_modulus(out: &mut Vec<u8>, numbers: Numbers) -> Result<(), AllocError>
    ensures { OnOk result (out.new.items ≡ out.old.items ++ modulus_text numbers) }
{
    match numbers {
        Numbers::Whole => Ok(()),
        Numbers::Residues => {
            out.extend_from_slice(b"modulus")?;
            push_whole_line(out, MODULUS)
        }
    }
}

/// Appends the lines of groups.
fn push_groups(out: &mut Vec<u8>, rows: &[PivotRow]) -> Result<(), AllocError>
    ensures { OnOk result (out.new.items ≡ out.old.items ++ flat_map group_text rows.now) }
{
    for row in rows {
        push_group(out, row)?;
    }
    Ok(())
}

/// Appends the lines of a group: its row, its steps and its pivot.
fn push_group(out: &mut Vec<u8>, row: &PivotRow) -> Result<(), AllocError>
    ensures { OnOk result (out.new.items ≡ out.old.items ++ group_text row.now) }
{
    push_row_name(out, row.name)?;
    push_reductions(out, row.reduce.as_slice())?;
    push_column(out, b"pivot ", row.pivot)
}

/// Appends the first line of a group.
fn push_row_name(out: &mut Vec<u8>, name: RowName) -> Result<(), AllocError>
    ensures { OnOk result (out.new.items ≡ out.old.items ++ group_line name) }
{
    match name {
        RowName::Period => out.extend_from_slice(b"row period\n"),
        RowName::F => out.extend_from_slice(b"row f\n"),
        RowName::Pair(a, b) => {
            out.extend_from_slice(b"row ")?;
            print_count(out, a)?;
            push_column(out, b" ", b)
        }
    }
}

/// Appends the lines of steps.
pub fn push_reductions(out: &mut Vec<u8>, columns: &[u32]) -> Result<(), AllocError>
    ensures { OnOk result (out.new.items ≡ out.old.items ++ flat_map reduction_line columns.now) }
{
    for column in columns {
        push_column(out, b"reduce ", *column)?;
    }
    Ok(())
}

/// Appends a word, a count and the end of the line.
pub fn push_column(out: &mut Vec<u8>, word: &[u8], column: u32) -> Result<(), AllocError>
    ensures { OnOk result (out.new.items ≡ out.old.items ++ line (word.now ++ decimal column)) }
{
    out.extend_from_slice(word)?;
    print_count(out, column)?;
    out.push(b'\n')?;
    Ok(())
}

/// Appends the lines of halves: `halves N S`, and a line `pair A B` for the values of both at each
/// index. An error says that memory ran out; `out` may then have a part of them.
pub fn push_halves(out: &mut Vec<u8>, halves: &Halves) -> Result<(), AllocError>
    requires { AreHalvesInBounds halves.now }
    ensures { OnOk result (out.new.items ≡ out.old.items ++ halves_text halves.now) }
{
    push_halves_line(out, halves)?;
    push_pairs(out, halves.first.as_slice(), halves.second.as_slice())
}

/// Appends the line `halves N S`, with the order and the scale of halves. An error says that memory
/// ran out; `out` may then have a part of it.
pub fn push_halves_line(out: &mut Vec<u8>, halves: &Halves) -> Result<(), AllocError>
    requires { AreHalvesInBounds halves.now }
    ensures { OnOk result (out.new.items ≡ out.old.items ++ halves_line halves.now) }
{
    push_halves_head(out, halves.order, halves.scale)
}

/// Appends the line `halves N S` of this order and this scale. An error says that memory ran out;
/// `out` may then have a part of it.
pub fn push_halves_head(out: &mut Vec<u8>, order: u32, scale: i128) -> Result<(), AllocError>
    ensures { OnOk result (out.new.items ≡ out.old.items ++ bytes_of (halves_fields order scale)) }
{
    out.extend_from_slice(b"halves ")?;
    print_count(out, order)?;
    push_whole_line(out, scale)
}

/// Appends the lines of the halves' values.
fn push_pairs(out: &mut Vec<u8>, first: &[i128], second: &[i128]) -> Result<(), AllocError>
    requires first { All Fits first.now }
    requires second { All Fits second.now }
    ensures { OnOk result (out.new.items ≡ out.old.items ++ flat_map pair_line
        (zip first.now second.now)) }
{
    for (x, y) in first.iter().zip(second) {
        push_pair(out, *x, *y)?;
    }
    Ok(())
}

/// Appends the line of a pair of values.
fn push_pair(out: &mut Vec<u8>, x: i128, y: i128) -> Result<(), AllocError>
    ensures { OnOk result (out.new.items ≡ out.old.items ++ pair_line (x, y)) }
{
    out.extend_from_slice(b"pair ")?;
    push_whole(out, x)?;
    push_whole_line(out, y)
}

/// Appends a space, a whole number and the end of the line.
fn push_whole_line(out: &mut Vec<u8>, n: i128) -> Result<(), AllocError>
    ensures { OnOk result (out.new.items ≡ out.old.items ++ line (codes " " ++ signed_decimal n)) }
{
    out.push(b' ')?;
    push_whole(out, n)?;
    out.push(b'\n')?;
    Ok(())
}

/// Appends a whole number.
pub fn push_whole(out: &mut Vec<u8>, n: i128) -> Result<(), AllocError>
    ensures { OnOk result (out.new.items ≡ out.old.items ++ signed_decimal n) }
{
    let mut buffer = Buffer::new();
    out.extend_from_slice(buffer.format(n).as_bytes())
}
