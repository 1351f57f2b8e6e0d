//! The faces of the complex of a function.
ghost use Rattle.std.specs.Prelude.{◌≡◌, ◌<◌};

/// A kind of face of a square of the complex: one point, three kinds of edges, two kinds of
/// triangles.
#[derive(Clone, Copy, Debug, PartialEq, Eq)]
pub enum FaceKind {
    /// The corner (a/q, b/q).
    Vertex,
    /// The edge from (a/q, b/q) to ((a + 1)/q, b/q), on which y is fixed.
    Horizontal,
    /// The edge from (a/q, b/q) to (a/q, (b + 1)/q), on which x is fixed.
    Vertical,
    /// The edge from ((a + 1)/q, b/q) to (a/q, (b + 1)/q), on which x + y is fixed.
    Diagonal,
    /// The triangle with the corners (a/q, b/q), ((a + 1)/q, b/q) and (a/q, (b + 1)/q).
    Lower,
    /// The triangle with the corners ((a + 1)/q, (b + 1)/q), ((a + 1)/q, b/q) and (a/q, (b + 1)/q).
    Upper,
}

impl FaceKind {
    ghost use Rattle.gj_shape.specs.WalkOrder.{position_of_kind};

    /// The position of the kind among the faces of one square in walk order, from 0 to 5.
    pub fn position(self) -> u32
        ensures value { result ≡ position_of_kind self }
        ensures below { result < 6 }
    {
        match self {
            FaceKind::Vertex => 0,
            FaceKind::Horizontal => 1,
            FaceKind::Vertical => 2,
            FaceKind::Diagonal => 3,
            FaceKind::Lower => 4,
            FaceKind::Upper => 5,
        }
    }
}

/// A face of the square whose lower left corner is (a/q, b/q).
#[derive(Clone, Copy, Debug, PartialEq, Eq)]
pub struct Face {
    /// Which face of the square it is.
    pub kind: FaceKind,
    /// The first index of the square's lower left corner.
    pub a: u32,
    /// The second index of it.
    pub b: u32,
}
