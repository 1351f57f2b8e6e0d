//! The faces of cover lines: the first in walk order that joins two intervals or covers one.
ghost use Rattle.std.specs.Prelude.{ℕ, ◌≡◌, ◌⊎◌, ◌↔◌, ◌+◌, ◌%◌, ◌<◌, ◌≤◌, ◌^◌, IsTrue};
ghost use Rattle.std.specs.Prelude.{IfSome, IfNone};
ghost use Rattle.gj_shape.specs.Cover.{IsFirstFace};
ghost use Rattle.gj_shape.specs.declared.faces.FaceKind.{FaceKind};
ghost use Rattle.gj_loops.specs.IndexSets.{has};
ghost use Rattle.gj_cover.specs.FirstFound.{AddsFirst, FindsFirst, IsFaceReached, IsThis};
ghost use Rattle.gj_jumps.specs.LimitCover.{IsTightAt};
ghost use Rattle.gj_limit_faces.specs.Joins.{AreJoinsOf};
ghost use Rattle.gj_limit_cover.specs.LimitCover.{Covers, IsDirectlyCovered, AreJoined, JoinsAs};
ghost use Rattle.gj_limit_cover.specs.LimitCover.{ProjectsOn};
ghost use Rattle.gj_limit_cover.specs.LimitCover.{IsJoiningFace};
ghost use Rattle.gj_limit_cover.specs.FirstFaces.{LinksAs, IsOneOfThree, IsSquareBelow};

use crate::corners::{is_additive, is_covering, links};
use gj_limit_faces::Joins;
use gj_loops::IndexSet;
use gj_shape::{Face, FaceKind, Shape};

/// The face of a line that joins two intervals: the first in walk order that joins them with all
/// its corners tight or, if no face does so, the first that joins them.
pub(crate) fn joining_face(shape: &Shape, i: u32, j: u32) -> Option<Face>
    requires start { i < shape.now.order }
    requires end { j < shape.now.order }
    ensures found { IfSome result (IsJoiningFace shape.now.order (IsTightAt shape.now) i j) }
    ensures none { IfNone result (AreJoined shape.now.order (IsTightAt shape.now) i j → ⊥) }
{
    if let Some(face) = first_joining(shape, i, j, true) {
        return Some(face);
    }
    first_joining(shape, i, j, false)
}

/// The first face in walk order that joins the two intervals; with all its corners tight, if that
/// is asked for.
fn first_joining(shape: &Shape, i: u32, j: u32, is_asked: bool) -> Option<Face>
    requires start { i < shape.now.order }
    requires end { j < shape.now.order }
    ensures found { IfSome result (IsFirstFace shape.now.order
        (JoinsAs shape.now.order (IsTightAt shape.now) is_asked i j)) }
    ensures none { IfNone result ((kind : FaceKind) (a b : ℕ) →
        JoinsAs shape.now.order (IsTightAt shape.now) is_asked i j kind a b → ⊥) }
{
    let order = shape.order();
    let mut found = None;
    add_links(shape, &mut found, i, j, difference(j, i, order), is_asked);
    add_links(shape, &mut found, j, i, difference(i, j, order), is_asked);
    found
}

/// Makes a face that was found the first of it and those that link i to j, which is the step away.
fn add_links(shape: &Shape, found: &mut Option<Face>, i: u32, j: u32, step: u32, is_asked: bool)
    requires start { i < shape.now.order }
    requires end { j < shape.now.order }
    requires below { step < shape.now.order }
    requires step { (i + step) % shape.now.order ≡ j }
    ensures { AddsFirst (IsSquareBelow shape.now.order)
        (LinksAs shape.now.order (IsTightAt shape.now) is_asked i j) found.old found.new }
{
    let short = difference(step, 1, shape.order());
    add_three(
        shape,
        found,
        FaceKind::Horizontal,
        (i, step),
        (i, short),
        i,
        j,
        is_asked,
    );
    add_three(
        shape,
        found,
        FaceKind::Vertical,
        (step, i),
        (short, i),
        i,
        j,
        is_asked,
    );
    add_three(
        shape,
        found,
        FaceKind::Diagonal,
        (i, j),
        (i, j),
        i,
        j,
        is_asked,
    );
}

/// Makes a face that was found the first of it and three faces, if they link i to j: the edge of
/// this kind and the lower triangle of one square, and the upper triangle of another.
fn add_three(
    shape: &Shape,
    found: &mut Option<Face>,
    kind: FaceKind,
    square: (u32, u32),
    other: (u32, u32),
    i: u32,
    j: u32,
    is_asked: bool,
)
    requires square { (square.0 < shape.now.order) × (square.1 < shape.now.order) }
    requires other { (other.0 < shape.now.order) × (other.1 < shape.now.order) }
    requires start { i < shape.now.order }
    requires end { j < shape.now.order }
    ensures { AddsFirst (IsOneOfThree kind square.0 square.1 other.0 other.1)
        (LinksAs shape.now.order (IsTightAt shape.now) is_asked i j) found.old found.new }
{
    add_face(
        shape,
        found,
        face_of(kind, square.0, square.1),
        i,
        j,
        is_asked,
    );
    add_face(
        shape,
        found,
        face_of(FaceKind::Lower, square.0, square.1),
        i,
        j,
        is_asked,
    );
    add_face(
        shape,
        found,
        face_of(FaceKind::Upper, other.0, other.1),
        i,
        j,
        is_asked,
    );
}

/// The face of this kind of the square (a, b).
fn face_of(kind: FaceKind, a: u32, b: u32) -> Face
    ensures { result ≡ record { kind = kind; a = a; b = b } }
{
    Face { kind, a, b }
}

/// Makes a face that was found the first of it and this face, if it links i to j.
fn add_face(shape: &Shape, found: &mut Option<Face>, face: Face, i: u32, j: u32, is_asked: bool)
    requires first { face.a < shape.now.order }
    requires second { face.b < shape.now.order }
    requires start { i < shape.now.order }
    requires end { j < shape.now.order }
    ensures { AddsFirst (IsThis face.kind face.a face.b)
        (LinksAs shape.now.order (IsTightAt shape.now) is_asked i j) found.old found.new }
{
    if is_reached(*found, face.kind, face.a, face.b) {
        return;
    }
    if links_as(shape, face, i, j, is_asked) {
        *found = Some(face);
    }
}

/// Whether the face links i to j; with all its corners tight, if that is asked for.
fn links_as(shape: &Shape, face: Face, i: u32, j: u32, is_asked: bool) -> bool
    requires first { face.a < shape.now.order }
    requires second { face.b < shape.now.order }
    requires start { i < shape.now.order }
    requires end { j < shape.now.order }
    ensures { IsTrue result ↔ LinksAs shape.now.order (IsTightAt shape.now) is_asked i j face.kind
        face.a face.b }
{
    if !links(shape, face, i, j) {
        return false;
    }
    if !is_asked {
        return true;
    }
    is_additive(shape, face)
}

/// Whether a face was found that is not behind the face of this kind of the square (a, b) in walk
/// order.
fn is_reached(found: Option<Face>, kind: FaceKind, a: u32, b: u32) -> bool
    ensures { IsTrue result ↔ IsFaceReached found kind a b }
{
    let Some(face) = found else {
        return false;
    };
    if face.a != a {
        return face.a < a;
    }
    if face.b != b {
        return face.b < b;
    }
    face.kind.position() <= kind.position()
}

/// The index that is reached from the second index by the first, modulo q: the difference.
fn difference(to: u32, from: u32, q: u32) -> u32
    requires few { q < 2 ^ 30 }
    requires end { to < q }
    requires start { from < q }
    ensures below { result < q }
    ensures value { (from + result) % q ≡ to }
{
    if from <= to { to - from } else { to + q - from }
}

/// The first triangle in walk order that covers the interval.
pub(crate) fn covering_face(shape: &Shape, joins: &Joins, i: u32) -> Option<Face>
    requires joins { AreJoinsOf shape.now joins.now }
    requires interval { i < shape.now.order }
    ensures found { IfSome result (IsFirstFace shape.now.order
        (λ kind a b. Covers shape.now.order (IsTightAt shape.now) kind a b i)) }
    ensures none { IfNone result (IsDirectlyCovered shape.now.order (IsTightAt shape.now) i → ⊥) }
{
    for a in 0..shape.order() {
        if let Some(face) = covering_in_row(shape, joins, a, i) {
            return Some(face);
        }
    }
    None
}

/// The first triangle of the squares (a, b) that covers the interval.
fn covering_in_row(shape: &Shape, joins: &Joins, a: u32, i: u32) -> Option<Face>
    requires joins { AreJoinsOf shape.now joins.now }
    requires within { a < shape.now.order }
    requires interval { i < shape.now.order }
    ensures { FindsFirst (λ c b. (c ≡ a) × (b < shape.now.order))
        (λ kind c b. Covers shape.now.order (IsTightAt shape.now) kind c b i) result }
{
    let order = shape.order();
    let row = joins.row(a);
    let triangles = row.lower.or(&row.upper);
    let squares = triangles.and(&squares_onto(a, i, order));
    let mut from = 0;
    'squares: while let Some(place) = squares.first_from(from) {
        let b = place as u32;
        let lower = face_of(FaceKind::Lower, a, b);
        if is_covering(shape, lower, i) {
            return Some(lower);
        }
        let upper = face_of(FaceKind::Upper, a, b);
        if is_covering(shape, upper, i) {
            return Some(upper);
        }
        from = place + 1;
    }
    None
}

/// The indices b for which a triangle of the square (a, b) projects on the interval: all if a is
/// the interval, and else three.
fn squares_onto(a: u32, i: u32, order: u32) -> IndexSet
    requires few { order ≤ 1_000 }
    requires within { a < order }
    requires interval { i < order }
    ensures { (b : ℕ) → b < order → IsTrue (has result b) ↔
        (ProjectsOn order a b (a + b) i ⊎ ProjectsOn order a b (a + b + 1) i) }
{
    if a == i {
        return IndexSet::below(order as usize);
    }
    let step = difference(i, a, order);
    let short = difference(step, 1, order);
    let mut squares = IndexSet::empty();
    squares.insert(i as usize);
    squares.insert(step as usize);
    squares.insert(short as usize);
    squares
}
