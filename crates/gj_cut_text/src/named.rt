//! The lines of cuts, with the names of the columns of their terms.
ghost use Rattle.std.specs.Prelude.{◌≡◌, ◌≤◌, ◌<◌, ◌++◌, All, List, OnOk};
ghost use Rattle.std.specs.Prelude.{drop, flat_map, length};
ghost use Rattle.std.specs.List.{AllZip};
ghost use Rattle.gj_proof.specs.ProofText.{row_text};
ghost use Rattle.gj_proof.specs.declared.cut.CutLine.TheVariants.{Cut};
ghost use Rattle.gj_proof.specs.declared.cut.CutTerm.{CutTerm};
ghost use Rattle.gj_cut_text.specs.MixedLines.{IsNamedTerm, named_line, weight_line};

use gj_cut::Term;
use gj_lex::Name;
use gj_proof::{NAMED_SPACE, push_cut_head, write_named};
use gj_row::Row;
use std::alloc::AllocError;

/// The length of the longest word, `weight `.
const WORD_SPACE: usize = 7;

/// The length of the longest line of a term.
const LINE_SPACE: usize = WORD_SPACE + NAMED_SPACE;

/// So many lines are appended at a time at most. Room for so many is less than 2 KB, and that is
/// cleared fast.
const FEW: usize = 4;

/// Room for so many lines.
const FEW_SPACE: usize = FEW * LINE_SPACE;

/// Appends the lines of a row with a cut of these terms, with the names of their columns. An error
/// says that memory ran out; `out` may then have a part of them.
// Its loop prints numbers in line: joined with the other it would call for each.
#[inline(never)]
pub fn push_cut_row(
    out: &mut Vec<u8>,
    columns: &[Name],
    row: &Row,
    terms: &[Term],
) -> Result<(), AllocError>
    requires { All (λ t. t.column < length columns.now) terms.now }
    ensures { OnOk result ((named : List CutTerm) × AllZip (IsNamedTerm columns.now) terms.now named
        × (out.new.items ≡ out.old.items ++ row_text (Cut row.now.basic row.now.rhs named))) }
{
    push_cut_head(out, &row.basic, row.rhs)?;
    push_lines(out, b"term ", columns, terms)?;
    Ok(())
}

/// Appends the lines of the weights of continuous columns, with the names of these.
#[inline(never)]
pub(crate) fn push_weights(
    out: &mut Vec<u8>,
    columns: &[Name],
    weights: &[Term],
) -> Result<(), AllocError>
    requires { All (λ t. t.column < length columns.now) weights.now }
    ensures { OnOk result ((named : List CutTerm)
        × AllZip (IsNamedTerm columns.now) weights.now named
        × (out.new.items ≡ out.old.items ++ flat_map weight_line named)) }
{
    push_any_lines(out, b"weight ", columns, weights)?;
    Ok(())
}

/// Appends the lines of terms with this word. Without terms no room is cleared.
#[inline(always)]
fn push_any_lines(
    out: &mut Vec<u8>,
    word: &[u8],
    columns: &[Name],
    terms: &[Term],
) -> Result<(), AllocError>
    requires word { length word.now ≤ WORD_SPACE }
    requires columns { All (λ t. t.column < length columns.now) terms.now }
    ensures { OnOk result (out.new.items
        ≡ out.old.items ++ flat_map (named_line word.now columns.now) terms.now) }
{
    if terms.is_empty() {
        return Ok(());
    }
    push_lines(out, word, columns, terms)
}

/// Appends the lines of terms with this word, a few at a time, so that room is asked for once for
/// all of them.
#[inline(always)]
fn push_lines(
    out: &mut Vec<u8>,
    word: &[u8],
    columns: &[Name],
    terms: &[Term],
) -> Result<(), AllocError>
    requires word { length word.now ≤ WORD_SPACE }
    requires columns { All (λ t. t.column < length columns.now) terms.now }
    ensures { OnOk result (out.new.items
        ≡ out.old.items ++ flat_map (named_line word.now columns.now) terms.now) }
{
    let mut text = [0; FEW_SPACE];
    let mut left = terms;
    while !left.is_empty() {
        let (few, rest) = left.split_at(left.len().min(FEW));
        let start = write_lines(&mut text, word, columns, few);
        out.extend_from_slice(&text[start..])?;
        left = rest;
    }
    Ok(())
}

/// Writes the lines of a few terms at the end of the text, the last line first, and says where they
/// begin.
#[inline(always)]
fn write_lines(text: &mut [u8], word: &[u8], columns: &[Name], terms: &[Term]) -> usize
    requires word { length word.now ≤ WORD_SPACE }
    requires columns { All (λ t. t.column < length columns.now) terms.now }
    requires few { length terms.now ≤ FEW }
    requires space { length text.old ≡ FEW_SPACE }
    ensures written { drop result text.new ≡ flat_map (named_line word.now columns.now) terms.now }
    ensures begins { result ≤ length text.new }
    ensures space { length text.new ≡ length text.old }
{
    let mut start = FEW_SPACE;
    let mut left = terms.len();
    while left > 0 {
        left -= 1;
        let term = &terms[left];
        let name = &columns[term.column as usize];
        start = write_named(text, start, word, name, term.entry, term.cut);
    }
    start
}
