//! The first line of a group, read.
ghost use Rattle.std.specs.Prelude.{◌≡◌, ◌<◌, ℕ, List, length, IfOk, IfErr, IfSome, IfNone};
ghost use Rattle.gj_lex.specs.Words.{word_texts};
ghost use Rattle.gj_forms.specs.Parts.{IsReading};
ghost use Rattle.gj_forms.specs.LineForms.{AreLine, BreaksForm};
ghost use Rattle.gj_shape.specs.Faces.{corners_of};
ghost use Rattle.gj_shape.specs.declared.faces.FaceKind.{FaceKind};
ghost use Rattle.gj_proof.specs.ProofGrammar.{form_part};
ghost use Rattle.gj_limit_proof.specs.LimitGrammar.{row_form};
ghost use Rattle.gj_limit_proof.specs.RowWords.{texts_of_row};

use crate::bounds::are_points_within;
use crate::sides::sides_of_word;
use crate::three_words::split_three;
use gj_forms::{PartFault, behind_name, has_no_word, has_words, line_at, two_fields_of};
use gj_lex::{Reason, Spelling};
use gj_limit_system::LimitRow;
use gj_proof::count_below;
use gj_shape::FaceKind;

/// The words of the first line of a group that differ from line to line.
#[derive(Clone, Copy)]
pub(crate) struct RowWords<'a> {
    pub kind: FaceKind,
    pub corner: u32,
    pub first: &'a [u8],
    pub second: &'a [u8],
}

/// The row in the next line, and what follows the line. It takes no memory.
pub(crate) fn row_at(text: &[u8], order: u32) -> Result<(LimitRow, &[u8]), PartFault>
    ensures { IsReading (form_part (row_form order)) text.now result }
{
    let line = line_at(Spelling::Strict, text)?;
    line.with_rest(row_in(line.bytes, order))
}

/// The row that the line tells.
fn row_in(line: &[u8], order: u32) -> Result<LimitRow, Reason>
    ensures found { IfOk result (AreLine (row_form order) (word_texts line.now)) }
    ensures fault { IfErr result (BreaksForm (row_form order) (word_texts line.now)) }
{
    if has_words(line, b"row f") {
        return Ok(LimitRow::F);
    }
    let Some(words) = row_words(line) else {
        return Err(Reason::Form);
    };
    let a = count_below(words.first, order)?;
    let b = count_below(words.second, order)?;
    if !are_points_within(order, words.kind, a, b) {
        return Err(Reason::Number);
    }
    Ok(LimitRow::Tight {
        kind: words.kind,
        corner: words.corner,
        a,
        b,
    })
}

/// The words of the line, if they are of a limit that names a row.
fn row_words(line: &[u8]) -> Option<RowWords<'_>>
    ensures found { IfSome result (λ w. word_texts line.now
        ≡ texts_of_row w.kind w.corner w.first.now w.second.now) }
    ensures corner { IfSome result (λ w. w.corner < length (corners_of w.kind 0 0)) }
    ensures none { IfNone result ((kind : FaceKind) (corner : ℕ) (first second : List ℕ) →
        word_texts line.now ≡ texts_of_row kind corner first second → ⊥) }
{
    if let Some((first, second)) = two_fields_of(line, b"row") {
        return Some(RowWords {
            kind: FaceKind::Vertex,
            corner: 0,
            first,
            second,
        });
    }
    let (words, rest) = split_three(behind_name(line, b"row")?)?;
    if !has_no_word(rest) {
        return None;
    }
    let (kind, corner) = sides_of_word(words.third)?;
    Some(RowWords {
        kind,
        corner,
        first: words.first,
        second: words.second,
    })
}
