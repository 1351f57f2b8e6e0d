//! Cuts, printed.
ghost use Rattle.std.specs.Prelude.{◌≡◌, ◌++◌, flat_map, OnOk};
ghost use Rattle.gj_forms.specs.LineForms.{line_of};
ghost use Rattle.gj_problem_text.specs.CutText.{cut_form, free_form, name_at, cut_term_line};
ghost use Rattle.gj_problem_text.specs.CutText.{cut_lines};
ghost use Rattle.gj_safe_cut.specs.declared.cut.SafeCut.TheVariants.{Cut};

use gj_frac::Frac;
use gj_lex::{Name, print_frac};
use gj_problem::{Entry, Inequality};
use gj_safe_cut::SafeCut;
use std::alloc::{AllocError, Global};

/// Appends the lines of a cut, or of why there is none.
pub(crate) fn push_cut(
    alloc: Global,
    out: &mut Vec<u8>,
    names: &[Name],
    cut: &SafeCut,
) -> Result<(), AllocError>
    ensures { OnOk result (out.new.items ≡ out.old.items ++ cut_lines names.now cut.now) }
{
    match cut {
        SafeCut::Cut(inequality) => push_inequality(alloc, out, names, inequality),
        SafeCut::Integral => out.extend_from_slice(b"skip integral\n"),
        SafeCut::OtherFraction => out.extend_from_slice(b"skip other\n"),
        SafeCut::Free(column) => push_free(out, names, *column),
        SafeCut::Wide => out.extend_from_slice(b"skip wide\n"),
    }
}

/// Appends the lines of an inequality.
fn push_inequality(
    alloc: Global,
    out: &mut Vec<u8>,
    names: &[Name],
    cut: &Inequality,
) -> Result<(), AllocError>
    ensures { OnOk result (out.new.items ≡ out.old.items ++ cut_lines names.now (Cut cut.now)) }
{
    push_right_side(alloc, out, cut.right)?;
    push_terms(alloc, out, names, cut.entries.as_slice())?;
    Ok(())
}

/// Appends the line of a right side.
fn push_right_side(alloc: Global, out: &mut Vec<u8>, right: Frac) -> Result<(), AllocError>
    ensures { OnOk result (out.new.items ≡ out.old.items ++ line_of cut_form right) }
{
    out.extend_from_slice(b"cut ")?;
    print_frac(alloc, out, right)?;
    out.push(b'\n')?;
    Ok(())
}

/// Appends a line for each entry.
fn push_terms(
    alloc: Global,
    out: &mut Vec<u8>,
    names: &[Name],
    entries: &[Entry],
) -> Result<(), AllocError>
    ensures { OnOk result (out.new.items
        ≡ out.old.items ++ flat_map (cut_term_line names.now) entries.now) }
{
    for entry in entries {
        push_term(alloc, out, names, *entry)?;
    }
    Ok(())
}

/// Appends the line of an entry.
fn push_term(
    alloc: Global,
    out: &mut Vec<u8>,
    names: &[Name],
    entry: Entry,
) -> Result<(), AllocError>
    ensures { OnOk result (out.new.items ≡ out.old.items ++ cut_term_line names.now entry) }
{
    out.extend_from_slice(b"term ")?;
    out.extend_from_slice(name_at(names, entry.column))?;
    out.push(b' ')?;
    print_frac(alloc, out, entry.value)?;
    out.push(b'\n')?;
    Ok(())
}

/// Appends the line of a free column.
fn push_free(out: &mut Vec<u8>, names: &[Name], column: u32) -> Result<(), AllocError>
    ensures { OnOk result (out.new.items
        ≡ out.old.items ++ line_of free_form (name_at names.now column)) }
{
    out.extend_from_slice(b"skip free ")?;
    out.extend_from_slice(name_at(names, column))?;
    out.push(b'\n')?;
    Ok(())
}

/// The name of the column with this index.
fn name_at(names: &[Name], column: u32) -> &[u8]
    ensures { result.now ≡ name_at names.now column }
{
    match names.get(column as usize) {
        Some(name) => name.bytes(),
        None => b"",
    }
}
