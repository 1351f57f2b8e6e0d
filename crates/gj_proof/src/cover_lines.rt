//! The lines of covered intervals, read.
ghost use Rattle.std.specs.Prelude.{◌≡◌, ◌≢◌, ◌≤◌, ◌++◌, [], ◌∷◌, ℕ, codes, IfOk, IfErr, IfSome};
ghost use Rattle.std.specs.Prelude.{◌<◌, IfNone, decimal};
ghost use Rattle.gj_lex.specs.Words.{word_texts};
ghost use Rattle.gj_forms.specs.Parts.{IsListReading, IsReading};
ghost use Rattle.gj_forms.specs.LineForms.{AreOfForm, AreLine, BreaksForm};
ghost use Rattle.gj_shape.specs.Limits.{greatest_order};
ghost use Rattle.gj_shape.specs.declared.faces.FaceKind.{FaceKind};
ghost use Rattle.gj_shape.specs.declared.faces.FaceKind.TheVariants.{Vertex};
ghost use Rattle.gj_function_lines.specs.FaceLines.{face_word, cover_line};
ghost use Rattle.gj_proof.specs.ProofText.{IsCoverLineBelow};
ghost use Rattle.gj_proof.specs.ProofGrammar.{cover_form, form_part, covered_part};

use crate::fields::{count_below, five_fields_of, split_at_byte};
use gj_forms::{PartFault, behind_text, line_at};
use gj_function_lines::face_word;
use gj_lex::{Reason, Spelling, behind_byte, printed_number};
use gj_shape::{CoverLine, Face, FaceKind};
use std::alloc::Global;

/// The kinds of faces that are no vertices.
const EDGES_AND_TRIANGLES: [FaceKind; 5] = [
    FaceKind::Horizontal,
    FaceKind::Vertical,
    FaceKind::Diagonal,
    FaceKind::Lower,
    FaceKind::Upper,
];

/// The words of the line of a covered interval that differ from line to line.
#[derive(Clone, Copy)]
pub(crate) struct CoverWords<'a> {
    pub kind: FaceKind,
    pub interval: &'a [u8],
    pub from: &'a [u8],
    pub a: &'a [u8],
    pub b: &'a [u8],
}

/// The lines of all intervals of a function of this order, and what follows them. The fault is that
/// of the first line that is none.
pub fn cover_lines_at(
    alloc: Global,
    text: &[u8],
    order: u32,
) -> Result<(Vec<CoverLine>, &[u8]), PartFault>
    requires { order ≤ greatest_order }
    ensures { IsListReading (covered_part order) text.now result }
{
    let mut lines = Vec::new(alloc);
    let mut rest = text;
    for _ in 0..order {
        let (line, behind) = cover_line_at(rest, order)?;
        lines.push(line)?;
        rest = behind;
    }
    Ok((lines, rest))
}

/// The line of a covered interval that comes next, and what follows it. It takes no memory.
fn cover_line_at(text: &[u8], order: u32) -> Result<(CoverLine, &[u8]), PartFault>
    requires { order ≤ greatest_order }
    ensures { IsReading (form_part (cover_form order)) text.now result }
{
    if let Some((line, rest)) = printed_cover_line(text, order) {
        return Ok((line, rest));
    }
    let line = line_at(Spelling::Strict, text)?;
    line.with_rest(cover_line_in(line.bytes, order))
}

/// The line of a covered interval that the text begins with as it is printed, and what follows it.
/// It is read in one pass.
fn printed_cover_line(text: &[u8], order: u32) -> Option<(CoverLine, &[u8])>
    ensures { IfSome result (λ r. (text.now ≡ cover_line r.0 ++ r.1.now) ×
        IsCoverLineBelow order r.0) }
{
    let words = behind_text(text, b"cover ")?;
    let (interval, words) = printed_count_below(words, order, b' ')?;
    let (from, words) = printed_count_below(words, order, b' ')?;
    let (kind, words) = split_at_byte(words, b' ')?;
    let (a, words) = printed_count_below(words, order, b' ')?;
    let (b, rest) = printed_count_below(words, order, b'\n')?;
    let kind = face_kind(kind)?;
    let face = Face { kind, a, b };
    Some((
        CoverLine {
            interval,
            from,
            face,
        },
        rest,
    ))
}

/// The count below the limit with whose digits and this byte the text begins, and what follows
/// these.
fn printed_count_below(text: &[u8], limit: u32, mark: u8) -> Option<(u32, &[u8])>
    ensures { IfSome result (λ r. (text.now ≡ decimal r.0 ++ mark ∷ r.1.now) × (r.0 < limit)) }
{
    let (count, rest) = printed_number::<false>(text)?;
    if count >= u64::from(limit) {
        return None;
    }
    Some((count as u32, behind_byte(rest, mark)?))
}

/// What the line of a covered interval tells.
fn cover_line_in(line: &[u8], order: u32) -> Result<CoverLine, Reason>
    ensures found { IfOk result (AreLine (cover_form order) (word_texts line.now)) }
    ensures fault { IfErr result (BreaksForm (cover_form order) (word_texts line.now)) }
{
    let Some(words) = cover_words(line) else {
        return Err(Reason::Form);
    };
    let interval = count_below(words.interval, order)?;
    let from = count_below(words.from, order)?;
    let a = count_below(words.a, order)?;
    let b = count_below(words.b, order)?;
    let face = Face {
        kind: words.kind,
        a,
        b,
    };
    Ok(CoverLine {
        interval,
        from,
        face,
    })
}

/// The words of the line, if they are of a covered interval.
fn cover_words(line: &[u8]) -> Option<CoverWords<'_>>
    ensures found { IfSome result (λ w. word_texts line.now
        ≡ codes "cover" ∷ w.interval.now ∷ w.from.now ∷ face_word w.kind ∷ w.a.now ∷ w.b.now ∷ []) }
    ensures kind { IfSome result (λ w. w.kind ≢ Vertex) }
    ensures none { IfNone result ((q : ℕ) → AreOfForm (cover_form q) (word_texts line.now) → ⊥) }
{
    let (interval, from, word, a, b) = five_fields_of(line, b"cover")?;
    let kind = face_kind(word)?;
    Some(CoverWords {
        kind,
        interval,
        from,
        a,
        b,
    })
}

/// The kind of face, no vertex, that the word names.
fn face_kind(word: &[u8]) -> Option<FaceKind>
    ensures found { IfSome result (λ kind. (word.now ≡ face_word kind) × (kind ≢ Vertex)) }
    ensures none { IfNone result ((kind : FaceKind) → word.now ≡ face_word kind →
        kind ≢ Vertex → ⊥) }
{
    for kind in EDGES_AND_TRIANGLES {
        if word == face_word(kind) {
            return Some(kind);
        }
    }
    None
}
