//! The first face in walk order that joins two intervals or covers one.
ghost use Rattle.std.specs.Prelude.{◌≡◌, ◌≢◌, ◌⊎◌, ◌↔◌, ◌+◌, ◌%◌, ◌<◌, ◌^◌, IsTrue, IfSome, IfNone};
ghost use Rattle.std.specs.Prelude.{MatchOption, None};
ghost use Rattle.gj_shape.specs.Additive.{IsAdditive};
ghost use Rattle.gj_shape.specs.Cover.{IsFirstFace, IsDirectlyCovered};
ghost use Rattle.gj_cover.specs.Table.{IsTightInTable, JoinsBy, AreJoinedBy, CoversBy};
ghost use Rattle.gj_cover.specs.FirstFound.{FindsFirst, IsThis, IsFaceReached, AddsFirst};
ghost use Rattle.gj_cover.specs.FirstFound.{IsEarlier, IsInRowBefore};
ghost use Rattle.gj_cover.specs.Links.{LeadsBy, Leads, IsPairInRow, IsAcross};

use crate::squares::covering_in_square;
use crate::table::Table;
use crate::triangles::{covering_across, covering_row};
use gj_shape::{Face, FaceKind};

/// The first face in walk order that joins two different intervals.
///
/// A triangle that projects on both has an edge that links them, in its own square and before it,
/// unless it is an upper one and one of the two is its sum.
pub(crate) fn first_joining(table: &Table, i: u32, j: u32) -> Option<Face>
    requires first { i < table.now.order }
    requires second { j < table.now.order }
    requires different { i ≢ j }
    ensures found { IfSome result (IsFirstFace table.now.order (JoinsBy table.now i j)) }
    ensures none { IfNone result (AreJoinedBy table.now i j → ⊥) }
{
    if i < j {
        joining_either(table, i, j)
    } else {
        joining_either(table, j, i)
    }
}

/// The first of the faces that lead from one of the intervals to the other. It looks first at those
/// that lead to the second.
fn joining_either(table: &Table, first: u32, second: u32) -> Option<Face>
    requires start { first < table.now.order }
    requires end { second < table.now.order }
    ensures { AddsFirst (Leads table.now.order first second) (IsAdditive
        (IsTightInTable table.now)) None result }
{
    let mut found = None;
    add_joining(table, &mut found, first, second);
    add_joining(table, &mut found, second, first);
    found
}

/// Makes a face that was found the first of it and the additive ones that lead from one interval to
/// the other: the edges that link both with `to` behind `from`, and the upper triangles that
/// project on both with `to` as the sum.
#[inline(always)]
fn add_joining(table: &Table, found: &mut Option<Face>, from: u32, to: u32)
    requires start { from < table.now.order }
    requires end { to < table.now.order }
    ensures { AddsFirst (LeadsBy table.now.order from to) (IsAdditive
        (IsTightInTable table.now)) found.old found.new }
{
    let q = table.order();
    let step = difference(to, from, q);
    let short = difference(step, 1, q);
    if is_in_row_before(*found, from, step, short) {
        return;
    }
    add_face(table, found, FaceKind::Upper, from, short);
    add_face(table, found, FaceKind::Horizontal, from, step);
    add_face(table, found, FaceKind::Diagonal, from, to);
    add_face(table, found, FaceKind::Upper, short, from);
    add_face(table, found, FaceKind::Vertical, step, from);
}

/// Whether a face was found whose first index is less than each of these.
#[inline(always)]
fn is_in_row_before(found: Option<Face>, first: u32, second: u32, third: u32) -> bool
    ensures { IsTrue result → IsInRowBefore found first second third }
{
    let Some(face) = found else {
        return false;
    };
    face.a < first && face.a < second && face.a < third
}

/// Makes a face that was found the first of it and the face of this kind of the square (a, b), if
/// that is additive.
#[inline(always)]
fn add_face(table: &Table, found: &mut Option<Face>, kind: FaceKind, a: u32, b: u32)
    requires first { a < table.now.order }
    requires second { b < table.now.order }
    ensures { AddsFirst (IsThis kind a b) (IsAdditive (IsTightInTable table.now))
        found.old found.new }
{
    if is_reached(*found, kind, a, b) {
        return;
    }
    if table.is_additive(kind, a, b) {
        *found = Some(Face { kind, a, b });
    }
}

/// Whether a face was found that is not behind the face of this kind of the square (a, b) in walk
/// order.
fn is_reached(found: Option<Face>, kind: FaceKind, a: u32, b: u32) -> bool
    ensures { IsTrue result ↔ IsFaceReached found kind a b }
{
    let Some(face) = found else {
        return false;
    };
    if face.a != a {
        return face.a < a;
    }
    if face.b != b {
        return face.b < b;
    }
    face.kind.position() <= kind.position()
}

/// The first triangle in walk order that covers the interval.
pub(crate) fn first_covering(table: &Table, i: u32) -> Option<Face>
    requires { i < table.now.order }
    ensures found { IfSome result (IsFirstFace table.now.order (CoversBy table.now i)) }
    ensures none { IfNone result (IsDirectlyCovered table.now.order
        (IsTightInTable table.now) i → ⊥) }
{
    earlier(first_in_row(table, i), first_across(table, i))
}

/// The first triangle that covers the interval i in the squares (i, b).
fn first_in_row(table: &Table, i: u32) -> Option<Face>
    requires { i < table.now.order }
    ensures { FindsFirst (IsPairInRow table.now.order i) (CoversBy table.now i) result }
{
    let Some(b) = covering_row(table, i).first() else {
        return None;
    };
    covering_in_square(table, i, b as u32, i)
}

/// The first triangle that covers the interval i in the squares (a, b) of other rows. Of one row
/// only the squares (a, i), (a, i - a) and (a, i - 1 - a) have one.
fn first_across(table: &Table, i: u32) -> Option<Face>
    requires { i < table.now.order }
    ensures { FindsFirst (IsAcross table.now.order i) (CoversBy table.now i) result }
{
    let Some(a) = covering_across(table, i).first() else {
        return None;
    };
    let a = a as u32;
    let q = table.order();
    let step = difference(i, a, q);
    let short = difference(step, 1, q);
    let found = covering_in_square(table, a, i, i);
    let found = earlier(found, covering_in_square(table, a, step, i));
    earlier(found, covering_in_square(table, a, short, i))
}

/// The first of two faces in walk order, if two of one square are one face; a face is before None.
fn earlier(first: Option<Face>, second: Option<Face>) -> Option<Face>
    ensures { MatchOption first (result ≡ second) (λ f. MatchOption second (result ≡ first)
        (λ g. ((result ≡ first) × (IsEarlier g f → ⊥)) ⊎ ((result ≡ second) × IsEarlier g f))) }
{
    let (Some(f), Some(g)) = (first, second) else {
        return first.or(second);
    };
    if g.a < f.a || g.a == f.a && g.b < f.b {
        second
    } else {
        first
    }
}

/// The index that is reached from the second index by the first, modulo q: the difference.
pub(crate) fn difference(to: u32, from: u32, q: u32) -> u32
    requires few { q < 2 ^ 30 }
    requires end { to < q }
    requires start { from < q }
    ensures below { result < q }
    ensures value { (from + result) % q ≡ to }
{
    if from <= to { to - from } else { to + q - from }
}
