//! The limits of the slack at the corners of faces.
ghost use Rattle.std.specs.Prelude.{◌≡◌, ◌<◌, ◌^◌, length, get_or, pos, unsigned_abs};
ghost use Rattle.gj_frac.specs.Fraction.{IsRatio};
ghost use Rattle.gj_shape.specs.Faces.{corners_of, limits_of};

use crate::square::Square;
use gj_frac::Frac;
use gj_shape::{Face, Shape};

/// The limit of the slack from inside the face at one of its corners, times the common denominator.
///
/// The face lies in a square (a, b) with a and b below the order.
pub fn slack_num(shape: &Shape, face: Face, corner: u32) -> i128
    requires first { face.a < shape.now.order }
    requires second { face.b < shape.now.order }
    requires corner { corner < length (corners_of face.kind face.a face.b) }
    ensures value { result ≡ get_or (limits_of shape.now face.kind face.a face.b) corner (pos 0) }
    ensures fits { unsigned_abs result < 2 ^ 53 }
{
    i128::from(Square::of(shape, face.a, face.b).limit(face.kind, corner))
}

/// The limit of the slack from inside the face at one of its corners.
///
/// The face lies in a square (a, b) with a and b below the order.
pub fn slack(shape: &Shape, face: Face, corner: u32) -> Frac
    requires first { face.a < shape.now.order }
    requires second { face.b < shape.now.order }
    requires corner { corner < length (corners_of face.kind face.a face.b) }
    ensures { IsRatio result (get_or (limits_of shape.now face.kind face.a face.b) corner (pos 0))
        (pos shape.now.scale) }
{
    Frac::reduced(slack_num(shape, face, corner), shape.common_denominator())
}
