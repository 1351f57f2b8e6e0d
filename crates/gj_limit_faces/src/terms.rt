//! What makes up a limit of the slack.
ghost use Rattle.std.specs.Prelude.{◌≡◌, ◌<◌, ◌≤◌, length};
ghost use Rattle.gj_shape.specs.Faces.{corners_of};
ghost use Rattle.gj_limit_faces.specs.Terms.{AreTermsOf, terms_at};

use gj_shape::FaceKind;

/// A limit of a function at a point, or its value there.
#[derive(Clone, Copy, Drop)]
pub enum Side {
    /// The limit from the left.
    Left,
    /// The value.
    Value,
    /// The limit from the right.
    Right,
}

/// The sides at x, at y and at x + y of which a limit of the slack at a corner is made, and where
/// the corner stands in its square.
#[derive(Clone, Copy, Drop)]
pub struct Terms {
    pub x: Side,
    pub y: Side,
    pub sum: Side,
    /// By how much x is above the first index of the square, from 0 to 1.
    pub right: u32,
    /// By how much y is above the second index of it, from 0 to 1.
    pub above: u32,
}

/// The terms with these sides and this place.
fn made_of(x: Side, y: Side, sum: Side, right: u32, above: u32) -> Terms
    ensures { result ≡ record { x = x; y = y; sum = sum; right = right; above = above } }
{
    Terms {
        x,
        y,
        sum,
        right,
        above,
    }
}

/// The terms of the limit from inside the faces of this kind at a corner.
pub fn terms_of(kind: FaceKind, corner: u32) -> Terms
    requires { corner < length (corners_of kind 0 0) }
    ensures value { AreTermsOf kind corner result }
    ensures table { result ≡ terms_at kind corner }
    ensures right { result.right ≤ 1 }
    ensures above { result.above ≤ 1 }
{
    match (kind, corner) {
        (FaceKind::Vertex, _) => made_of(Side::Value, Side::Value, Side::Value, 0, 0),
        (FaceKind::Horizontal, 0) => made_of(Side::Right, Side::Value, Side::Right, 0, 0),
        (FaceKind::Horizontal, _) => made_of(Side::Left, Side::Value, Side::Left, 1, 0),
        (FaceKind::Vertical, 0) => made_of(Side::Value, Side::Right, Side::Right, 0, 0),
        (FaceKind::Vertical, _) => made_of(Side::Value, Side::Left, Side::Left, 0, 1),
        (FaceKind::Diagonal, 0) => made_of(Side::Left, Side::Right, Side::Value, 1, 0),
        (FaceKind::Diagonal, _) => made_of(Side::Right, Side::Left, Side::Value, 0, 1),
        (FaceKind::Lower, 0) => made_of(Side::Right, Side::Right, Side::Right, 0, 0),
        (FaceKind::Lower, 1) => made_of(Side::Left, Side::Right, Side::Left, 1, 0),
        (FaceKind::Lower, _) => made_of(Side::Right, Side::Left, Side::Left, 0, 1),
        (FaceKind::Upper, 0) => made_of(Side::Left, Side::Right, Side::Right, 1, 0),
        (FaceKind::Upper, 1) => made_of(Side::Right, Side::Left, Side::Right, 0, 1),
        (FaceKind::Upper, _) => made_of(Side::Left, Side::Left, Side::Left, 1, 1),
    }
}
