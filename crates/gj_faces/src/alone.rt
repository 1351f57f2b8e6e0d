//! Which faces of a row of squares are maximal.
use crate::tight_pairs::TightPairs;
use gj_loops::IndexSet;
use gj_shape::{FaceKind, Shape, wrapped};

/// For each kind the indices b below the order for which the face of the square (a, b) is a maximal
/// additive face, and those for which any is.
///
/// An additive face lies in the closure of one of higher dimension if one more pair around it is
/// tight.
#[derive(Drop)]
pub(crate) struct Alone {
    pub(crate) any: IndexSet,
    /// Those for which one is that is no triangle.
    pub(crate) edges: IndexSet,
    pub(crate) vertex: IndexSet,
    pub(crate) horizontal: IndexSet,
    pub(crate) vertical: IndexSet,
    pub(crate) diagonal: IndexSet,
    pub(crate) lower: IndexSet,
    pub(crate) upper: IndexSet,
}

impl Alone {
    ghost use Rattle.std.specs.Prelude.{ℕ, ◌≡◌, ◌<◌, false, IsTrue};
    ghost use Rattle.gj_loops.specs.IndexSets.{has};
    ghost use Rattle.gj_shape.specs.FunctionData.{FunctionData};
    ghost use Rattle.gj_shape.specs.Limits.{greatest_order};
    ghost use Rattle.gj_faces.specs.Alone.{AreAlone};
    ghost use Rattle.gj_faces.specs.Listed.{IsMaximalIn};
    ghost use Rattle.gj_faces.specs.TightPairs.{AreTightPairsOf};
    ghost use Rattle.gj_faces.specs.Triangles.{is_triangle};

    /// Those of row a.
    pub(crate) fn of(pairs: &TightPairs, shape: &Shape, a: u32) -> Alone
        requires pairs { AreTightPairsOf shape.now pairs.now }
        requires within { a < shape.now.order }
        ensures { AreAlone shape.now a result }
    {
        let period = shape.order();
        let order = period as usize;
        // in a plane with a to the east and b to the north
        let west = pairs.row(wrapped(a + (period - 1), period));
        let middle = pairs.row(a);
        let east = pairs.row(wrapped(a + 1, period));
        let north = middle.turned_down(order);
        let south = middle.turned_up(order);
        let north_west = west.turned_down(order);
        let south_east = east.turned_up(order);
        let north_east = east.turned_down(order);
        let low = middle.and(east);
        let high = east.and(&north);
        let beside = east
            .or(west)
            .or(&north)
            .or(&south)
            .or(&north_west)
            .or(&south_east);
        let vertex = middle.and_not(&beside);
        let horizontal = low.and_not(&north.or(&south_east));
        let vertical = middle.and(&north).and_not(&east.or(&north_west));
        let diagonal = high.and_not(&middle.or(&north_east));
        let lower = low.and(&north);
        let upper = high.and(&north_east);
        let edges = vertex.or(&horizontal).or(&vertical).or(&diagonal);
        Alone {
            any: edges.or(&lower).or(&upper),
            edges,
            vertex,
            horizontal,
            vertical,
            diagonal,
            lower,
            upper,
        }
    }

    /// The kind of the one maximal face of the square (a, b) that is no triangle.
    #[inline]
    pub(crate) fn edge_kind(&self, b: u32) -> FaceKind
        requires within { b < greatest_order }
        requires one { IsTrue (has self.now.edges b) }
        ensures plain { is_triangle result ≡ false }
        ensures maximal { (f : FunctionData) (a : ℕ) → AreAlone f a self.now → b < f.order →
            IsMaximalIn f (record { kind = result; a = a; b = b }) }
    {
        let place = b as usize;
        if self.vertex.contains(place) {
            FaceKind::Vertex
        } else if self.horizontal.contains(place) {
            FaceKind::Horizontal
        } else if self.vertical.contains(place) {
            FaceKind::Vertical
        } else {
            FaceKind::Diagonal
        }
    }
}
