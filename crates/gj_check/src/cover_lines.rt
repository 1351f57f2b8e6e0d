//! The rule `cover`: each cover line opens a component, or puts an interval into the component of
//! another.
ghost use Rattle.std.specs.Prelude.{ℕ, ◌≡◌, ◌↔◌, ◌+◌, ◌<◌, ◌≤◌, ◌++◌, List, All, IsTrue, IfOk};
ghost use Rattle.std.specs.Prelude.{length};
ghost use Rattle.gj_shape.specs.Limits.{greatest_order};
ghost use Rattle.gj_shape.specs.Additive.{IsAdditive, IsTight};
ghost use Rattle.gj_shape.specs.Cover.{IsOneOf, links_of, triangle_projections};
ghost use Rattle.gj_shape.specs.declared.extremality.CoverLine.{CoverLine};
ghost use Rattle.gj_theory.specs.CoverRules.{MeetsCoverRule};
ghost use Rattle.gj_proof.specs.ProofText.{IsCoverLineBelow};
ghost use Rattle.gj_check.specs.CoverLines.{HaveLines, IsCoverOutcome};

use gj_check_minimal::adds_up;
use gj_shape::{CoverLine, Face, FaceKind, Shape};
use std::alloc::{AllocError, Global};

/// The components of all intervals, by cover lines.
#[derive(Drop)]
pub(crate) struct Components {
    /// The number of the component of each interval, from 0.
    pub(crate) number: Vec<u32>,
    /// How many components there are.
    pub(crate) count: u32,
}

/// What comes of cover lines.
#[derive(Drop)]
pub(crate) enum Covered {
    /// All meet the rule.
    Whole(Components),
    /// The line with this index is the first that does not.
    BrokenAt(usize),
}

/// The components by as many cover lines as there are intervals, or the first of these lines that
/// breaks the rule.
pub(crate) fn components_by(
    alloc: Global,
    shape: &Shape,
    lines: &[CoverLine],
) -> Result<Covered, AllocError>
    requires count { length lines.now ≡ shape.now.order }
    requires lines { All (IsCoverLineBelow shape.now.order) lines.now }
    ensures { IfOk result (IsCoverOutcome shape.now lines.now) }
{
    let order = shape.order() as usize;
    let mut has_line = vec![in alloc; false; order]?;
    let mut number = vec![in alloc; 0u32; order]?;
    let mut count = 0u32;
    for (index, line) in lines.iter().enumerate() {
        if !meets_rule(shape, has_line.as_slice(), *line) {
            return Ok(Covered::BrokenAt(index));
        }
        let interval = line.interval as usize;
        has_line[interval] = true;
        if line.from == line.interval {
            number[interval] = count;
            count += 1;
        } else {
            number[interval] = number[line.from as usize];
        }
    }
    Ok(Covered::Whole(Components { number, count }))
}

/// Whether the line meets the rule behind lines that these intervals have.
fn meets_rule(shape: &Shape, has_line: &[bool], line: CoverLine) -> bool
    requires lines { length has_line.now ≡ shape.now.order }
    requires line { IsCoverLineBelow shape.now.order line }
    ensures { (before : List CoverLine) → HaveLines before has_line.now →
        (IsTrue result ↔ MeetsCoverRule shape.now.order (IsTight shape.now) before line) }
{
    let order = shape.order();
    if has_line[line.interval as usize] {
        return false;
    }
    if !is_additive(shape, line.face) {
        return false;
    }
    if line.from == line.interval {
        return covers(line.face, line.interval, order);
    }
    if !has_line[line.from as usize] {
        return false;
    }
    joins(line.face, line.interval, line.from, order)
}

/// Whether each corner of the face is tight.
fn is_additive(shape: &Shape, face: Face) -> bool
    requires first { face.a < greatest_order }
    requires second { face.b < greatest_order }
    ensures { IsTrue result ↔ IsAdditive (IsTight shape.now) face.kind face.a face.b }
{
    let a = face.a as usize;
    let b = face.b as usize;
    match face.kind {
        FaceKind::Vertex => is_tight(shape, a, b),
        FaceKind::Horizontal => is_tight(shape, a, b) && is_tight(shape, a + 1, b),
        FaceKind::Vertical => is_tight(shape, a, b) && is_tight(shape, a, b + 1),
        FaceKind::Diagonal => has_tight_diagonal(shape, a, b),
        FaceKind::Lower => has_tight_diagonal(shape, a, b) && is_tight(shape, a, b),
        FaceKind::Upper => has_tight_diagonal(shape, a, b) && is_tight(shape, a + 1, b + 1),
    }
}

/// Whether both ends of the diagonal of the square (a, b) are tight.
fn has_tight_diagonal(shape: &Shape, a: usize, b: usize) -> bool
    requires first { a < greatest_order }
    requires second { b < greatest_order }
    ensures { IsTrue result ↔ (IsTight shape.now (a + 1) b × IsTight shape.now a (b + 1)) }
{
    is_tight(shape, a + 1, b) && is_tight(shape, a, b + 1)
}

/// Whether the values at a/q and b/q add up to the value at their sum.
fn is_tight(shape: &Shape, a: usize, b: usize) -> bool
    requires first { a ≤ greatest_order }
    requires second { b ≤ greatest_order }
    ensures { IsTrue result ↔ IsTight shape.now a b }
{
    let values = shape.value_numerators();
    let order = values.len();
    adds_up(
        values[a % order],
        values[b % order],
        values[(a + b) % order],
    )
}

/// Whether the face is a triangle that projects on the interval.
fn covers(face: Face, interval: u32, order: u32) -> bool
    requires order { order ≤ greatest_order }
    requires first { face.a < order }
    requires second { face.b < order }
    ensures { IsTrue result ↔
        IsOneOf order (triangle_projections face.kind face.a face.b) interval }
{
    match face.kind {
        FaceKind::Lower | FaceKind::Upper => meets_interval(face, interval, order),
        _ => false,
    }
}

/// Whether the face is an edge that links both intervals, or a triangle that projects on both.
fn joins(face: Face, first: u32, second: u32, order: u32) -> bool
    requires order { order ≤ greatest_order }
    requires first { face.a < order }
    requires second { face.b < order }
    ensures { IsTrue result
        ↔ (IsOneOf order (links_of face.kind face.a face.b ++ triangle_projections face.kind
        face.a face.b) first
        × IsOneOf order (links_of face.kind face.a face.b ++ triangle_projections face.kind
        face.a face.b) second) }
{
    meets_interval(face, first, order) && meets_interval(face, second, order)
}

/// Whether the interval is one of those that the edge links, or on which the triangle projects.
fn meets_interval(face: Face, interval: u32, order: u32) -> bool
    requires order { order ≤ greatest_order }
    requires first { face.a < order }
    requires second { face.b < order }
    ensures { IsTrue result
        ↔ IsOneOf order (links_of face.kind face.a face.b ++ triangle_projections face.kind face.a
        face.b) interval }
{
    let a = face.a;
    let b = face.b;
    match face.kind {
        FaceKind::Vertex => false,
        FaceKind::Horizontal => is_one_of(&[a, a + b], interval, order),
        FaceKind::Vertical => is_one_of(&[b, a + b], interval, order),
        FaceKind::Diagonal => is_one_of(&[a, b], interval, order),
        FaceKind::Lower => is_one_of(&[a, b, a + b], interval, order),
        FaceKind::Upper => is_one_of(&[a, b, a + b + 1], interval, order),
    }
}

/// Whether the interval is one of these, modulo the order.
fn is_one_of(intervals: &[u32], interval: u32, order: u32) -> bool
    requires { 0 < order }
    ensures { IsTrue result ↔ IsOneOf order intervals.now interval }
{
    intervals.iter().any(|a| a % order == interval % order)
}
