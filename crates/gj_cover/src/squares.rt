//! Triangles of one square that cover an interval.
ghost use Rattle.std.specs.Prelude.{◌≡◌, ◌↔◌, ◌<◌, ◌++◌, [], IsTrue};
ghost use Rattle.gj_shape.specs.Cover.{IsOneOf, links_of, triangle_projections};
ghost use Rattle.gj_shape.specs.Given.{IsOrder};
ghost use Rattle.gj_cover.specs.Table.{CoversBy};
ghost use Rattle.gj_cover.specs.FirstFound.{FindsFirst};

use crate::table::Table;
use gj_complex::projections;
use gj_shape::{Face, FaceKind};

/// The first triangle of the square (a, b) that covers the interval i.
pub(crate) fn covering_in_square(table: &Table, a: u32, b: u32, i: u32) -> Option<Face>
    requires first { a < table.now.order }
    requires second { b < table.now.order }
    requires interval { i < table.now.order }
    ensures { FindsFirst (λ c d. (c ≡ a) × (d ≡ b)) (CoversBy table.now i) result }
{
    let lower = Face {
        kind: FaceKind::Lower,
        a,
        b,
    };
    if is_covering(table, lower, i) {
        return Some(lower);
    }
    let upper = Face {
        kind: FaceKind::Upper,
        a,
        b,
    };
    if is_covering(table, upper, i) {
        return Some(upper);
    }
    None
}

/// Whether the triangle is additive and covers the interval i.
fn is_covering(table: &Table, face: Face, i: u32) -> bool
    requires first { face.a < table.now.order }
    requires second { face.b < table.now.order }
    requires interval { i < table.now.order }
    requires triangle { links_of face.kind face.a face.b ≡ [] }
    ensures { IsTrue result ↔ CoversBy table.now i face.kind face.a face.b }
{
    if !table.is_additive(face.kind, face.a, face.b) {
        return false;
    }
    has_interval(face, i, table.order())
}

/// Whether the interval i is one that the edge links or on which the triangle projects, in the
/// complex of order q.
fn has_interval(face: Face, i: u32, q: u32) -> bool
    requires order { IsOrder q }
    requires first { face.a < q }
    requires second { face.b < q }
    requires interval { i < q }
    ensures { IsTrue result ↔ IsOneOf q
        (links_of face.kind face.a face.b ++ triangle_projections face.kind face.a face.b) i }
{
    let onto = projections(face, q);
    if onto.x == Some(i) {
        return true;
    }
    if onto.y == Some(i) {
        return true;
    }
    onto.sum == Some(i)
}
