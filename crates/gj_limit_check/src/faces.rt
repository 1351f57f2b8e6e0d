//! Faces at whose corners the slack tends to 0, and the intervals that they link or cover.
ghost use Rattle.std.specs.Prelude.{◌≡◌, ◌↔◌, ◌*◌, ◌<◌, length, IsTrue};
ghost use Rattle.gj_jumps.specs.LimitCover.{IsTightAt};
ghost use Rattle.gj_limit_cover.specs.LimitCover.{Covers, Joins, LinksAlong, LinksBy, ProjectsOn};
ghost use Rattle.gj_shape.specs.Faces.{corners_of};

use gj_complex::Square;
use gj_shape::{Face, FaceKind, Shape, wrapped};

/// An edge of a face: the positions of its two corners among those of the face, and the intervals
/// that it links, below twice the order.
#[derive(Clone, Copy)]
struct Edge {
    first: u32,
    second: u32,
    near: u32,
    far: u32,
}

/// The edge with these corners and intervals.
fn edge_between(first: u32, second: u32, near: u32, far: u32) -> Edge
    ensures { result ≡ record { first = first; second = second; near = near; far = far } }
{
    Edge {
        first,
        second,
        near,
        far,
    }
}

/// Whether an edge of the face, at whose ends the slack tends to 0 from inside the face, links the
/// two intervals.
pub(crate) fn joins(shape: &Shape, face: Face, first: u32, second: u32) -> bool
    requires a { face.a < shape.now.order }
    requires b { face.b < shape.now.order }
    requires first { first < shape.now.order }
    requires second { second < shape.now.order }
    ensures { IsTrue result ↔ Joins shape.now.order (IsTightAt shape.now) face.kind face.a face.b
        first second }
{
    if links(shape, face, first, second) {
        return true;
    }
    links(shape, face, second, first)
}

/// Whether such an edge links the interval `near`, of x or of y, to the interval `far`, of x + y or
/// of y.
fn links(shape: &Shape, face: Face, near: u32, far: u32) -> bool
    requires a { face.a < shape.now.order }
    requires b { face.b < shape.now.order }
    requires near { near < shape.now.order }
    requires far { far < shape.now.order }
    ensures { IsTrue result ↔ LinksBy shape.now.order (IsTightAt shape.now) face.kind face.a face.b
        near far }
{
    let order = shape.order();
    let (a, b) = (face.a, face.b);
    match face.kind {
        FaceKind::Vertex => false,
        FaceKind::Horizontal => links_along(
            shape,
            order,
            face,
            edge_between(0, 1, a, a + b),
            near,
            far,
        ),
        FaceKind::Vertical => links_along(
            shape,
            order,
            face,
            edge_between(0, 1, b, a + b),
            near,
            far,
        ),
        FaceKind::Diagonal => links_along(shape, order, face, edge_between(0, 1, a, b), near, far),
        FaceKind::Lower => {
            if links_along(shape, order, face, edge_between(0, 1, a, a + b), near, far) {
                return true;
            }
            if links_along(shape, order, face, edge_between(0, 2, b, a + b), near, far) {
                return true;
            }
            links_along(shape, order, face, edge_between(1, 2, a, b), near, far)
        }
        FaceKind::Upper => {
            if links_along(
                shape,
                order,
                face,
                edge_between(1, 2, a, a + b + 1),
                near,
                far,
            ) {
                return true;
            }
            if links_along(
                shape,
                order,
                face,
                edge_between(0, 2, b, a + b + 1),
                near,
                far,
            ) {
                return true;
            }
            links_along(shape, order, face, edge_between(0, 1, a, b), near, far)
        }
    }
}

/// Whether the slack tends to 0 at both ends of the edge, and it links the interval `near` to the
/// interval `far`.
fn links_along(shape: &Shape, order: u32, face: Face, edge: Edge, near: u32, far: u32) -> bool
    requires order { order ≡ shape.now.order }
    requires a { face.a < shape.now.order }
    requires b { face.b < shape.now.order }
    requires first { edge.first < length (corners_of face.kind 0 0) }
    requires second { edge.second < length (corners_of face.kind 0 0) }
    requires from { edge.near < 2 * shape.now.order }
    requires to { edge.far < 2 * shape.now.order }
    requires near { near < shape.now.order }
    requires far { far < shape.now.order }
    ensures { IsTrue result ↔ LinksAlong shape.now.order (IsTightAt shape.now) face.kind face.a
        face.b edge.first edge.second edge.near edge.far near far }
{
    if wrapped(edge.near, order) != near {
        return false;
    }
    if wrapped(edge.far, order) != far {
        return false;
    }
    if !is_tight(shape, face, edge.first) {
        return false;
    }
    is_tight(shape, face, edge.second)
}

/// Whether the slack tends to 0 at this corner of the face, from inside it.
fn is_tight(shape: &Shape, face: Face, corner: u32) -> bool
    requires a { face.a < shape.now.order }
    requires b { face.b < shape.now.order }
    requires corner { corner < length (corners_of face.kind 0 0) }
    ensures { IsTrue result ↔ IsTightAt shape.now face.kind face.a face.b corner }
{
    Square::of(shape, face.a, face.b).limit(face.kind, corner) == 0
}

/// Whether the face is a triangle at all corners of which the slack tends to 0, and projects on the
/// interval.
pub(crate) fn covers(shape: &Shape, face: Face, interval: u32) -> bool
    requires a { face.a < shape.now.order }
    requires b { face.b < shape.now.order }
    requires interval { interval < shape.now.order }
    ensures { IsTrue result ↔ Covers shape.now.order (IsTightAt shape.now) face.kind face.a face.b
        interval }
{
    let order = shape.order();
    let sum = face.a + face.b;
    match face.kind {
        FaceKind::Lower => covers_with(shape, order, face, sum, interval),
        FaceKind::Upper => covers_with(shape, order, face, sum + 1, interval),
        _ => false,
    }
}

/// The same of a triangle whose points have their sums in this interval, modulo the order.
fn covers_with(shape: &Shape, order: u32, face: Face, sum: u32, interval: u32) -> bool
    requires order { order ≡ shape.now.order }
    requires a { face.a < shape.now.order }
    requires b { face.b < shape.now.order }
    requires triangle { length (corners_of face.kind 0 0) ≡ 3 }
    requires sum { sum < 2 * shape.now.order }
    requires interval { interval < shape.now.order }
    ensures { IsTrue result ↔ ((IsTightAt shape.now face.kind face.a face.b 0
        × IsTightAt shape.now face.kind face.a face.b 1
        × IsTightAt shape.now face.kind face.a face.b 2)
        × ProjectsOn shape.now.order face.a face.b sum interval) }
{
    if !projects_on(order, face, sum, interval) {
        return false;
    }
    if !is_tight(shape, face, 0) {
        return false;
    }
    if !is_tight(shape, face, 1) {
        return false;
    }
    is_tight(shape, face, 2)
}

/// Whether the interval is that of x, of y or of x + y.
fn projects_on(order: u32, face: Face, sum: u32, interval: u32) -> bool
    requires a { face.a < order }
    requires b { face.b < order }
    requires sum { sum < 2 * order }
    requires interval { interval < order }
    ensures { IsTrue result ↔ ProjectsOn order face.a face.b sum interval }
{
    if face.a == interval {
        return true;
    }
    if face.b == interval {
        return true;
    }
    wrapped(sum, order) == interval
}
