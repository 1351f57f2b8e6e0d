//! The edges that link two intervals, and the triangles on which the slack is 0, of one row.
ghost use Rattle.std.specs.Prelude.{ℕ, ◌≡◌, ◌↔◌, ◌<◌, length, IsTrue};
ghost use Rattle.gj_loops.specs.IndexSets.{has};
ghost use Rattle.gj_shape.specs.Faces.{corners_of};
ghost use Rattle.gj_jumps.specs.LimitCover.{IsTightAt};
ghost use Rattle.gj_limit_faces.specs.RowJoins.{AreRowJoins, IsTightAlong};
ghost use Rattle.gj_limit_faces.specs.TightLimits.{AreTightLimitsOf};
ghost use Rattle.gj_limit_faces.specs.ValueRows.{AreValueRows};

use crate::square_row::SquareRow;
use crate::tight_limits::TightLimits;
use gj_loops::IndexSet;
use gj_shape::{FaceKind, Shape};

/// Of the squares (a, b) with one a the indices b below the order of those whose edges link, and
/// whose triangles have the slack 0.
#[derive(Clone, Copy, Drop)]
pub struct RowJoins {
    /// Those for which the horizontal edge from (a, b) links the intervals a and a + b: the slack
    /// is 0 on it, or tends to 0 at both of its ends from inside the triangle above it or below it.
    pub horizontal: IndexSet,
    /// Those for which the diagonal edge links the intervals a and b.
    pub diagonal: IndexSet,
    /// Those for which the slack is 0 on the lower triangle.
    pub lower: IndexSet,
    /// Those for which the slack is 0 on the upper triangle.
    pub upper: IndexSet,
}

impl RowJoins {
    /// Those of row a, by what is known of the values.
    pub(crate) fn of(shape: &Shape, limits: &TightLimits, values: &SquareRow, a: u32) -> RowJoins
        requires limits { AreTightLimitsOf shape.now limits.now }
        requires values { AreValueRows shape.now a values.now }
        requires within { a < shape.now.order }
        ensures { AreRowJoins shape.now a result }
    {
        let order = shape.order() as usize;
        // the limits at the corners of the lower triangle, and at those of the upper one
        let first = values.row(shape, limits, FaceKind::Lower, 0, a);
        let east = values.row(shape, limits, FaceKind::Lower, 1, a);
        let north = values.row(shape, limits, FaceKind::Lower, 2, a);
        let upper_east = values.row(shape, limits, FaceKind::Upper, 0, a);
        let upper_north = values.row(shape, limits, FaceKind::Upper, 1, a);
        let last = values.row(shape, limits, FaceKind::Upper, 2, a);
        let level = along(shape, limits, values, FaceKind::Horizontal, a);
        let slope = along(shape, limits, values, FaceKind::Diagonal, a);
        let bottom = first.and(&east);
        let upper_top = upper_north.and(&last);
        let top = upper_top.turned_up(order);
        let level_or_bottom = level.or(&bottom);
        let any = level_or_bottom.or(&top);
        let within = IndexSet::below(order);
        let lower_slope = east.and(&north);
        let upper_slope = upper_east.and(&upper_north);
        let slope_or_lower = slope.or(&lower_slope);
        RowJoins {
            horizontal: any.and(&within),
            diagonal: slope_or_lower.or(&upper_slope),
            lower: first.and(&lower_slope),
            upper: upper_slope.and(&last),
        }
    }
}

/// The indices b below the order for which the slack is 0 at both ends of the edge of this kind.
fn along(
    shape: &Shape,
    limits: &TightLimits,
    values: &SquareRow,
    kind: FaceKind,
    a: u32,
) -> IndexSet
    requires limits { AreTightLimitsOf shape.now limits.now }
    requires values { AreValueRows shape.now a values.now }
    requires edge { length (corners_of kind 0 0) ≡ 2 }
    requires within { a < shape.now.order }
    ensures { (b : ℕ) → IsTrue (has result b) ↔
        ((b < shape.now.order) × IsTightAlong (IsTightAt shape.now) kind a b 0 1) }
{
    let first = values.row(shape, limits, kind, 0, a);
    first.and(&values.row(shape, limits, kind, 1, a))
}
