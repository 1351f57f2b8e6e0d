//! The lines of cuts, printed.
ghost use Rattle.std.specs.Prelude.{◌≡◌, ◌≤◌, ◌+◌, ◌++◌, ◌∷◌, [], ℕ, List};
ghost use Rattle.std.specs.Prelude.{codes, drop, flat_map, length};
ghost use Rattle.std.specs.Prelude.{OnOk};
ghost use Rattle.gj_lex.specs.NumberText.{fraction_text};
ghost use Rattle.gj_proof.specs.ProofText.{AreSubjectLines, subject_of_rule, row_line, term_line};
ghost use Rattle.gj_proof.specs.ProofText.{terms_of, row_text};
ghost use Rattle.gj_proof.specs.declared.cut.CutLine.TheVariants.{Cut, Skip};

use crate::cut::{CutLine, CutRule, CutTerm, SkipReason};
use gj_forms::{write_pair, write_word};
use gj_frac::Frac;
use gj_function_lines::push_function_lines;
use gj_lex::{Name, write_spaced};
use std::alloc::{AllocError, Global};

/// The length of the longest end of a line of a name and two fractions: the name, the fractions,
/// each with a space before it, and a line feed.
pub const NAMED_SPACE: usize = 255 + 163;

/// The length of the longest start of a row: `skip `, a name, a space and a fraction.
const ROW_SPACE: usize = 5 + 255 + 81;

/// The length of the longest line of a term.
const LINE_SPACE: usize = 5 + NAMED_SPACE;

/// Appends the lines of a rule: `rule gmic`, or those of its function. An error says that memory
/// ran out; `out` may then have a part of them.
pub fn push_rule_lines(alloc: Global, out: &mut Vec<u8>, rule: &CutRule) -> Result<(), AllocError>
    ensures { OnOk result ((lines : List ℕ) × AreSubjectLines (subject_of_rule rule.now) lines
        × (out.new.items ≡ out.old.items ++ lines)) }
{
    match rule {
        CutRule::Gmic => out.extend_from_slice(b"rule gmic\n"),
        CutRule::Table(shape) => push_function_lines(alloc, out, shape),
    }
}

/// Appends the lines of all rows, each with its terms.
pub(crate) fn push_rows(out: &mut Vec<u8>, rows: &[CutLine]) -> Result<(), AllocError>
    ensures { OnOk result (out.new.items ≡ out.old.items ++ flat_map row_text rows.now) }
{
    for row in rows {
        push_row(out, row)?;
    }
    Ok(())
}

/// Appends the lines of a row. An error says that memory ran out; `out` may then have a part of
/// them.
fn push_row(out: &mut Vec<u8>, row: &CutLine) -> Result<(), AllocError>
    ensures { OnOk result (out.new.items ≡ out.old.items ++ row_text row.now) }
{
    match row {
        CutLine::Cut(name, right, terms) => {
            push_cut_head(out, name, *right)?;
            push_terms(out, terms.as_slice())
        }
        CutLine::Skip(name, right, reason) => push_skip_line(out, name, *right, *reason),
    }
}

/// Appends the first line of a row with a cut, of the name of its basic variable and its right
/// side; those of the terms come behind it. An error says that memory ran out; `out` may then have
/// a part of it.
pub fn push_cut_head(out: &mut Vec<u8>, name: &Name, right: Frac) -> Result<(), AllocError>
    ensures { OnOk result (out.new.items ≡ out.old.items ++ row_line (Cut name.now right [])) }
{
    push_row_start(out, b"cut ", name, right)?;
    out.push(b'\n')?;
    Ok(())
}

/// Appends the one line of a row that is passed over, of the name of its basic variable, its right
/// side and why it has no cut. An error says that memory ran out; `out` may then have a part of it.
pub fn push_skip_line(
    out: &mut Vec<u8>,
    name: &Name,
    right: Frac,
    reason: SkipReason,
) -> Result<(), AllocError>
    ensures { OnOk result (out.new.items ≡ out.old.items ++ row_text (Skip name.now right reason)) }
{
    push_row_start(out, b"skip ", name, right)?;
    out.extend_from_slice(b" ")?;
    out.extend_from_slice(reason.word().as_bytes())?;
    out.push(b'\n')?;
    Ok(())
}

/// Appends the lines of terms.
fn push_terms(out: &mut Vec<u8>, terms: &[CutTerm]) -> Result<(), AllocError>
    ensures { OnOk result (out.new.items ≡ out.old.items ++ flat_map term_line terms.now) }
{
    for term in terms {
        push_term(out, term)?;
    }
    Ok(())
}

/// Appends the line of a term.
fn push_term(out: &mut Vec<u8>, term: &CutTerm) -> Result<(), AllocError>
    ensures { OnOk result (out.new.items ≡ out.old.items ++ term_line term.now) }
{
    let mut text = [0; LINE_SPACE];
    let start = write_named(
        &mut text, LINE_SPACE, b"term ", &term.name, term.entry, term.cut,
    );
    out.extend_from_slice(&text[start..])
}

/// Writes a line of a word, a name and two fractions into the text so that it ends before `end`,
/// and says where it begins. The word has the space behind it.
///
/// So several lines can be written, the last one first, before they are appended at once.
#[inline(always)]
pub fn write_named(text: &mut [u8], end: usize, word: &[u8], name: &Name, x: Frac, y: Frac) -> usize
    requires room { length word.now + NAMED_SPACE ≤ end }
    requires within { end ≤ length text.old }
    ensures written { drop result text.new ≡ (word.now ++ name.now ++ 32 ∷ fraction_text x
        ++ 32 ∷ fraction_text y ++ 10 ∷ []) ++ drop end text.old }
    ensures begins { result ≤ end }
    ensures room { end ≤ result + (length word.now + NAMED_SPACE) }
    ensures space { length text.new ≡ length text.old }
{
    let numbers = write_pair(text, end, x, y);
    let start = write_word(text, numbers, name.bytes());
    write_word(text, start, word)
}

/// Appends the word of a row with the space behind it, a name, a space and a fraction. An error
/// says that memory ran out.
fn push_row_start(out: &mut Vec<u8>, word: &[u8], name: &Name, x: Frac) -> Result<(), AllocError>
    requires { length word.now ≤ 5 }
    ensures { OnOk result (out.new.items ≡ out.old.items ++
        (word.now ++ name.now ++ codes " " ++ fraction_text x)) }
{
    let mut text = [0; ROW_SPACE];
    let right = write_spaced(&mut text, ROW_SPACE, x);
    let start = write_word(&mut text, right, name.bytes());
    let start = write_word(&mut text, start, word);
    out.extend_from_slice(&text[start..])
}
