//! Tight corners of one face, and the intervals that its edges link.
ghost use Rattle.std.specs.Prelude.{◌≡◌, ◌⊎◌, ◌↔◌, ◌+◌, ◌*◌, ◌<◌, length, IsTrue};
ghost use Rattle.gj_shape.specs.Faces.{corners_of};
ghost use Rattle.gj_jumps.specs.LimitCover.{IsTightAt};
ghost use Rattle.gj_limit_cover.specs.LimitCover.{LinksAlong, LinksBy, IsAdditiveFace, Covers};
ghost use Rattle.gj_limit_cover.specs.LimitCover.{ProjectsOn};

use gj_complex::Square;
use gj_shape::{Face, FaceKind, Shape, wrapped};

/// Whether the limit of the slack from inside the face is 0 at this corner of it.
pub(crate) fn is_tight(shape: &Shape, face: Face, corner: u32) -> bool
    requires first { face.a < shape.now.order }
    requires second { face.b < shape.now.order }
    requires corner { corner < length (corners_of face.kind 0 0) }
    ensures { IsTrue result ↔ IsTightAt shape.now face.kind face.a face.b corner }
{
    Square::of(shape, face.a, face.b).limit(face.kind, corner) == 0
}

/// Two corners of a face, by their positions.
#[derive(Clone, Copy, Drop)]
pub(crate) struct Edge {
    pub(crate) first: u32,
    pub(crate) second: u32,
}

/// Whether two corners of the face are tight, and the edge between them links these intervals, if
/// it links `near` and `far`, modulo the order.
fn links_along(shape: &Shape, face: Face, edge: Edge, near: u32, far: u32, i: u32, j: u32) -> bool
    requires first { face.a < shape.now.order }
    requires second { face.b < shape.now.order }
    requires first_corner { edge.first < length (corners_of face.kind 0 0) }
    requires second_corner { edge.second < length (corners_of face.kind 0 0) }
    requires near { near < 2 * shape.now.order }
    requires far { far < 2 * shape.now.order }
    requires start { i < shape.now.order }
    requires end { j < shape.now.order }
    ensures { IsTrue result ↔ LinksAlong shape.now.order (IsTightAt shape.now)
        face.kind face.a face.b edge.first edge.second near far i j }
{
    let order = shape.order();
    if wrapped(near, order) != i {
        return false;
    }
    if wrapped(far, order) != j {
        return false;
    }
    if !is_tight(shape, face, edge.first) {
        return false;
    }
    is_tight(shape, face, edge.second)
}

/// Whether one of the three edges of a triangle does so: the one with y fixed, the one with x
/// fixed, or the one with x + y fixed.
fn links_by_triangle(
    shape: &Shape,
    face: Face,
    level: Edge,
    upright: Edge,
    slope: Edge,
    sum: u32,
    i: u32,
    j: u32,
) -> bool
    requires first { face.a < shape.now.order }
    requires second { face.b < shape.now.order }
    requires triangle { length (corners_of face.kind 0 0) ≡ 3 }
    requires level_edge { (level.first < 3) × (level.second < 3) }
    requires upright_edge { (upright.first < 3) × (upright.second < 3) }
    requires slope_edge { (slope.first < 3) × (slope.second < 3) }
    requires sum { sum < 2 * shape.now.order }
    requires start { i < shape.now.order }
    requires end { j < shape.now.order }
    ensures { IsTrue result ↔ (
        LinksAlong shape.now.order (IsTightAt shape.now) face.kind face.a face.b
        level.first level.second face.a sum i j ⊎
        LinksAlong shape.now.order (IsTightAt shape.now) face.kind face.a face.b
        upright.first upright.second face.b sum i j ⊎
        LinksAlong shape.now.order (IsTightAt shape.now) face.kind face.a face.b
        slope.first slope.second face.a face.b i j) }
{
    if links_along(shape, face, level, face.a, sum, i, j) {
        return true;
    }
    if links_along(shape, face, upright, face.b, sum, i, j) {
        return true;
    }
    links_along(shape, face, slope, face.a, face.b, i, j)
}

/// The edge between two corners.
fn edge_between(first: u32, second: u32) -> Edge
    ensures { result ≡ record { first = first; second = second } }
{
    Edge { first, second }
}

/// Whether an edge of the face links the interval i, as the one of x or of y, and j, as the one of
/// the sum or, along an edge with the sum fixed, of y.
pub(crate) fn links(shape: &Shape, face: Face, i: u32, j: u32) -> bool
    requires first { face.a < shape.now.order }
    requires second { face.b < shape.now.order }
    requires start { i < shape.now.order }
    requires end { j < shape.now.order }
    ensures { IsTrue result ↔ LinksBy shape.now.order (IsTightAt shape.now) face.kind face.a face.b
        i j }
{
    let order = shape.order();
    let sum = face.a + face.b;
    match face.kind {
        FaceKind::Vertex => false,
        FaceKind::Horizontal => links_along(shape, face, edge_between(0, 1), face.a, sum, i, j),
        FaceKind::Vertical => links_along(shape, face, edge_between(0, 1), face.b, sum, i, j),
        FaceKind::Diagonal => links_along(shape, face, edge_between(0, 1), face.a, face.b, i, j),
        FaceKind::Lower => links_by_triangle(
            shape,
            face,
            edge_between(0, 1),
            edge_between(0, 2),
            edge_between(1, 2),
            sum,
            i,
            j,
        ),
        FaceKind::Upper => links_by_triangle(
            shape,
            face,
            edge_between(1, 2),
            edge_between(0, 2),
            edge_between(0, 1),
            sum + 1,
            i,
            j,
        ),
    }
}

/// Whether all corners of the face are tight.
pub(crate) fn is_additive(shape: &Shape, face: Face) -> bool
    requires first { face.a < shape.now.order }
    requires second { face.b < shape.now.order }
    ensures { IsTrue result ↔ IsAdditiveFace (IsTightAt shape.now) face.kind face.a face.b }
{
    match face.kind {
        FaceKind::Vertex => is_tight(shape, face, 0),
        FaceKind::Horizontal => is_tight(shape, face, 0) && is_tight(shape, face, 1),
        FaceKind::Vertical => is_tight(shape, face, 0) && is_tight(shape, face, 1),
        FaceKind::Diagonal => is_tight(shape, face, 0) && is_tight(shape, face, 1),
        FaceKind::Lower => is_tight_triangle(shape, face),
        FaceKind::Upper => is_tight_triangle(shape, face),
    }
}

/// Whether all corners of the triangle are tight.
fn is_tight_triangle(shape: &Shape, face: Face) -> bool
    requires first { face.a < shape.now.order }
    requires second { face.b < shape.now.order }
    requires triangle { length (corners_of face.kind 0 0) ≡ 3 }
    ensures { IsTrue result ↔ (IsTightAt shape.now face.kind face.a face.b 0 ×
        IsTightAt shape.now face.kind face.a face.b 1 ×
        IsTightAt shape.now face.kind face.a face.b 2) }
{
    if !is_tight(shape, face, 0) {
        return false;
    }
    if !is_tight(shape, face, 1) {
        return false;
    }
    is_tight(shape, face, 2)
}

/// Whether the interval i is one of the three projections, if the intervals of x and of y are a and
/// b, and that of their sum is `sum`, modulo the order.
fn projects_on(order: u32, a: u32, b: u32, sum: u32, i: u32) -> bool
    requires first { a < order }
    requires second { b < order }
    requires sum { sum < 2 * order }
    requires interval { i < order }
    ensures { IsTrue result ↔ ProjectsOn order a b sum i }
{
    if a == i {
        return true;
    }
    if b == i {
        return true;
    }
    wrapped(sum, order) == i
}

/// Whether the triangle has all corners tight and projects on the interval.
pub(crate) fn is_covering(shape: &Shape, face: Face, i: u32) -> bool
    requires first { face.a < shape.now.order }
    requires second { face.b < shape.now.order }
    requires interval { i < shape.now.order }
    ensures { IsTrue result ↔ Covers shape.now.order (IsTightAt shape.now)
        face.kind face.a face.b i }
{
    let order = shape.order();
    let sum = face.a + face.b;
    match face.kind {
        FaceKind::Lower => {
            projects_on(order, face.a, face.b, sum, i) && is_tight_triangle(shape, face)
        }
        FaceKind::Upper => {
            projects_on(order, face.a, face.b, sum + 1, i) && is_tight_triangle(shape, face)
        }
        _ => false,
    }
}
