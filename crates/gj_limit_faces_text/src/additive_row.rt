//! The faces of one row of squares on which the slack is 0.
ghost use Rattle.std.specs.Prelude.{ℕ, ◌≡◌, ◌↔◌, ◌<◌, length, IsTrue};
ghost use Rattle.gj_shape.specs.Faces.{corners_of};
ghost use Rattle.gj_loops.specs.IndexSets.{has};
ghost use Rattle.gj_jumps.specs.LimitCover.{IsTightAt};
ghost use Rattle.gj_limit_faces.specs.TightLimits.{AreTightLimitsOf};

use gj_limit_faces::TightLimits;
use gj_loops::IndexSet;
use gj_shape::{FaceKind, Shape};

/// Of the squares (a, b) with one a the indices b below the order of those on whose face of each
/// kind the slack is 0.
#[derive(Clone, Copy, Drop)]
pub(crate) struct AdditiveRow {
    vertex: IndexSet,
    horizontal: IndexSet,
    vertical: IndexSet,
    diagonal: IndexSet,
    lower: IndexSet,
    upper: IndexSet,
}

impl AdditiveRow {
    ghost use Rattle.gj_shape.specs.Limits.{greatest_order};
    ghost use Rattle.gj_limit_faces_text.specs.AdditiveRows.{IsAdditiveRow, set_of};

    /// Those of row a.
    pub(crate) fn of(shape: &Shape, limits: &TightLimits, a: u32) -> AdditiveRow
        requires limits { AreTightLimitsOf shape.now limits.now }
        requires within { a < shape.now.order }
        ensures { IsAdditiveRow shape.now a result }
    {
        AdditiveRow {
            vertex: limits.row(shape, FaceKind::Vertex, 0, a),
            horizontal: on_edge(shape, limits, FaceKind::Horizontal, a),
            vertical: on_edge(shape, limits, FaceKind::Vertical, a),
            diagonal: on_edge(shape, limits, FaceKind::Diagonal, a),
            lower: on_triangle(shape, limits, FaceKind::Lower, a),
            upper: on_triangle(shape, limits, FaceKind::Upper, a),
        }
    }

    /// Whether the slack is 0 on the face of this kind of the square (a, b).
    pub(crate) fn has(&self, kind: FaceKind, b: u32) -> bool
        requires { b < greatest_order }
        ensures { result ≡ has (set_of self.now kind) b }
    {
        let place = b as usize;
        match kind {
            FaceKind::Vertex => self.vertex.contains(place),
            FaceKind::Horizontal => self.horizontal.contains(place),
            FaceKind::Vertical => self.vertical.contains(place),
            FaceKind::Diagonal => self.diagonal.contains(place),
            FaceKind::Lower => self.lower.contains(place),
            FaceKind::Upper => self.upper.contains(place),
        }
    }
}

/// The indices b below the order for which the slack is 0 at both ends of the edge of this kind.
fn on_edge(shape: &Shape, limits: &TightLimits, kind: FaceKind, a: u32) -> IndexSet
    requires limits { AreTightLimitsOf shape.now limits.now }
    requires edge { length (corners_of kind 0 0) ≡ 2 }
    requires within { a < shape.now.order }
    ensures { (b : ℕ) → IsTrue (has result b) ↔ ((b < shape.now.order) ×
        IsTightAt shape.now kind a b 0 × IsTightAt shape.now kind a b 1) }
{
    let first = limits.row(shape, kind, 0, a);
    first.and(&limits.row(shape, kind, 1, a))
}

/// The indices b below the order for which the slack is 0 at all corners of the triangle of this
/// kind.
fn on_triangle(shape: &Shape, limits: &TightLimits, kind: FaceKind, a: u32) -> IndexSet
    requires limits { AreTightLimitsOf shape.now limits.now }
    requires triangle { length (corners_of kind 0 0) ≡ 3 }
    requires within { a < shape.now.order }
    ensures { (b : ℕ) → IsTrue (has result b) ↔ ((b < shape.now.order) ×
        IsTightAt shape.now kind a b 0 × IsTightAt shape.now kind a b 1 ×
        IsTightAt shape.now kind a b 2) }
{
    let first = limits.row(shape, kind, 0, a);
    let second = first.and(&limits.row(shape, kind, 1, a));
    second.and(&limits.row(shape, kind, 2, a))
}
