//! The text.
ghost use Rattle.std.specs.Prelude.{◌≡◌, length, IfOk, OnOk};
ghost use Rattle.gj_shape.specs.FunctionData.{IsContinuous};
ghost use Rattle.gj_faces.specs.TightPairs.{AreTightPairsOf};
ghost use Rattle.gj_verdict_text.specs.FacesText.{ArePushed, AreRowsPushed, IsFacesText};

use crate::face_lines::{ends_below, push_face_lines, starts_of};
use gj_cover::cover_of_pairs;
use gj_faces::{TightPairs, push_maximal_row};
use gj_function_lines::{push_cover_lines, push_order_line};
use gj_lex::push_count_line;
use gj_shape::Shape;
use std::alloc::{AllocError, Global};

/// The text of the maximal additive faces of a continuous function in walk order, its cover lines,
/// and its uncovered intervals.
///
/// The only error is want of memory.
pub fn faces_text(alloc: Global, shape: &Shape) -> Result<Vec<u8>, AllocError>
    requires { IsContinuous shape.now }
    ensures { IfOk result (λ text. IsFacesText shape.now text.items) }
{
    let pairs = TightPairs::new(alloc, shape)?;
    let cover = cover_of_pairs(alloc, shape, &pairs)?;
    let mut text = Vec::from_slice(alloc, b"gj-faces 1\n")?;
    push_order_line(&mut text, shape.order())?;
    push_maximal_faces(alloc, &mut text, shape, &pairs)?;
    push_cover_lines(&mut text, cover.lines.as_slice())?;
    push_uncovered_lines(&mut text, cover.component.as_slice(), shape.order())?;
    text.extend_from_slice(b"end\n")?;
    Ok(text)
}

/// Appends the lines of the maximal additive faces. They are looked for row by row, so that no list
/// of all is kept.
fn push_maximal_faces(
    alloc: Global,
    out: &mut Vec<u8>,
    shape: &Shape,
    pairs: &TightPairs,
) -> Result<(), AllocError>
    requires { AreTightPairsOf shape.now pairs.now }
    ensures { OnOk result (AreRowsPushed shape.now shape.now.order out.old.items out.new.items) }
{
    let ends = ends_below(alloc, shape.order())?;
    let mut row = Vec::new(alloc);
    for a in 0..shape.order() {
        row.clear();
        push_maximal_row(&mut row, shape, pairs, a)?;
        push_face_lines(out, &starts_of(a), ends.as_slice(), row.as_slice())?;
    }
    Ok(())
}

/// Appends a line for each interval without a component, ascending, of as many as the order. An error
/// says that memory ran out; `out` may then have a part of them.
pub fn push_uncovered_lines(
    out: &mut Vec<u8>,
    component: &[Option<u32>],
    order: u32,
) -> Result<(), AllocError>
    requires { length component.now ≡ order }
    ensures { OnOk result (ArePushed component.now order out.old.items out.new.items) }
{
    for interval in 0..order {
        if component[interval as usize].is_none() {
            push_count_line(out, b"uncovered ", interval)?;
        }
    }
    Ok(())
}
