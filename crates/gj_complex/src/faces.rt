//! Faces and their corners.
ghost use Rattle.std.specs.Prelude.{◌≡◌, ◌<◌, ◌^◌, get_or, length};
ghost use Rattle.gj_shape.specs.Faces.{corners_of};

use gj_shape::{Face, FaceKind};

/// How many corners a face of this kind has.
pub fn corners(kind: FaceKind) -> u32
    ensures { result ≡ length (corners_of kind 0 0) }
{
    match kind {
        FaceKind::Vertex => 1,
        FaceKind::Horizontal | FaceKind::Vertical | FaceKind::Diagonal => 2,
        FaceKind::Lower | FaceKind::Upper => 3,
    }
}

/// The coordinates of a corner of the face, in units of 1/q.
pub fn corner(face: Face, corner: u32) -> (u32, u32)
    requires corner { corner < length (corners_of face.kind face.a face.b) }
    requires first { face.a < 2 ^ 31 }
    requires second { face.b < 2 ^ 31 }
    ensures { result ≡ get_or (corners_of face.kind face.a face.b) corner (0, 0) }
{
    let (right, up) = (face.a + 1, face.b + 1);
    match (face.kind, corner) {
        (FaceKind::Diagonal | FaceKind::Upper, 0) => (right, face.b),
        (_, 0) => (face.a, face.b),
        (FaceKind::Horizontal | FaceKind::Lower, 1) => (right, face.b),
        (_, 1) => (face.a, up),
        (FaceKind::Lower, _) => (face.a, up),
        (_, _) => (right, up),
    }
}
