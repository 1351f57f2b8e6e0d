//! The text.
ghost use Rattle.std.specs.Prelude.{ℕ, ◌≡◌, ◌+◌, ◌<◌, ◌≤◌, ◌++◌, IfOk, OnOk};
ghost use Rattle.gj_shape.specs.FunctionData.{FunctionData};
ghost use Rattle.gj_shape.specs.Limits.{greatest_order};
ghost use Rattle.gj_shape.specs.WalkOrder.{faces_of, faces_of_square};
ghost use Rattle.gj_faces.specs.Added.{faces_of_row};
ghost use Rattle.gj_function_lines.specs.FunctionLines.{line};
ghost use Rattle.gj_function_lines.specs.FaceLines.{face_text};
ghost use Rattle.gj_limit_faces.specs.TightLimits.{AreTightLimitsOf};
ghost use Rattle.gj_limit_faces_text.specs.AdditiveRows.{AreRowsAt, one_less};
ghost use Rattle.gj_limit_faces_text.specs.AppendedFaces.{AppendsMaximal};
ghost use Rattle.gj_limit_faces_text.specs.LimitFacesText.{IsLimitFacesText};

use crate::additive_row::AdditiveRow;
use crate::parts::is_maximal;
use gj_function_lines::{face_word, push_cover_lines, push_order_line};
use gj_lex::print_counts;
use gj_limit_cover::cover_by_limits;
use gj_limit_faces::TightLimits;
use gj_shape::{Face, FaceKind, Shape};
use gj_verdict_text::push_uncovered_lines;
use std::alloc::{AllocError, Global};

/// The kinds of faces, in walk order.
const KINDS: [FaceKind; 6] = [
    FaceKind::Vertex,
    FaceKind::Horizontal,
    FaceKind::Vertical,
    FaceKind::Diagonal,
    FaceKind::Lower,
    FaceKind::Upper,
];

/// The text of the maximal additive faces of a function that may jump in walk order, its cover
/// lines, and its uncovered intervals, all by the limits of its slack.
///
/// The only error is want of memory.
pub fn limit_faces_text(alloc: Global, shape: &Shape) -> Result<Vec<u8>, AllocError>
    ensures { IfOk result (λ text. IsLimitFacesText shape.now text.items) }
{
    let cover = cover_by_limits(alloc, shape)?;
    let limits = TightLimits::new(alloc, shape)?;
    let mut text = Vec::from_slice(alloc, b"gj-faces 1\n")?;
    push_order_line(&mut text, shape.order())?;
    push_maximal_faces(&mut text, shape, &limits)?;
    push_cover_lines(&mut text, cover.lines.as_slice())?;
    push_uncovered_lines(&mut text, cover.component.as_slice(), shape.order())?;
    text.extend_from_slice(b"end\n")?;
    Ok(text)
}

/// Appends the lines of the maximal additive faces, row by row.
fn push_maximal_faces(
    out: &mut Vec<u8>,
    shape: &Shape,
    limits: &TightLimits,
) -> Result<(), AllocError>
    requires { AreTightLimitsOf shape.now limits.now }
    ensures { OnOk result (AppendsMaximal shape.now (faces_of shape.now.order)
        out.old.items out.new.items) }
{
    for a in 0..shape.order() {
        push_row(out, shape, limits, a)?;
    }
    Ok(())
}

/// Appends those of the squares (a, b) with this a.
fn push_row(
    out: &mut Vec<u8>,
    shape: &Shape,
    limits: &TightLimits,
    a: u32,
) -> Result<(), AllocError>
    requires limits { AreTightLimitsOf shape.now limits.now }
    requires within { a < shape.now.order }
    ensures { OnOk result (AppendsMaximal shape.now (faces_of_row shape.now.order a)
        out.old.items out.new.items) }
{
    let order = shape.order();
    let here = AdditiveRow::of(shape, limits, a);
    let before = AdditiveRow::of(shape, limits, one_less(a, order));
    for b in 0..order {
        push_square(out, &here, &before, a, b, one_less(b, order))?;
    }
    Ok(())
}

/// The index before this one, modulo the order.
fn one_less(index: u32, order: u32) -> u32
    requires within { index < order }
    requires few { order ≤ greatest_order }
    ensures value { result ≡ one_less order index }
    ensures below { result < order }
{
    if index == 0 { order - 1 } else { index - 1 }
}

/// Appends those of the square (a, b), by the row of a and the one before it, and the index before
/// b.
fn push_square(
    out: &mut Vec<u8>,
    here: &AdditiveRow,
    before: &AdditiveRow,
    a: u32,
    b: u32,
    back: u32,
) -> Result<(), AllocError>
    requires within { b < greatest_order }
    requires behind { back < greatest_order }
    ensures { OnOk result ((f : FunctionData) → AreRowsAt f a b back here.now before.now →
        AppendsMaximal f (faces_of_square a b) out.old.items out.new.items) }
{
    for kind in KINDS {
        if is_maximal(here, before, kind, b, back) {
            push_face_line(out, Face { kind, a, b })?;
        }
    }
    Ok(())
}

/// Appends the line of the face.
fn push_face_line(out: &mut Vec<u8>, face: Face) -> Result<(), AllocError>
    ensures { OnOk result (out.new.items ≡ out.old.items ++ line (face_text face)) }
{
    out.extend_from_slice(face_word(face.kind))?;
    print_counts(out, face.a, face.b, b'\n')
}
