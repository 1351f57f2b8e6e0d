//! Whether a face is additive.
ghost use Rattle.std.specs.Prelude.{◌<◌, ◌↔◌, IsTrue};
ghost use Rattle.gj_shape.specs.Additive.{IsAdditive, IsTight};
ghost use Rattle.gj_shape.specs.FunctionData.{IsContinuous};

use gj_complex::{Square, corners};
use gj_shape::{Face, Shape};

/// Whether the face is additive: the slack of the continuous function is 0 at each of its corners.
///
/// The face lies in a square (a, b) with a and b below the order. It takes no memory.
pub fn is_additive(shape: &Shape, face: Face) -> bool
    requires continuous { IsContinuous shape.now }
    requires first { face.a < shape.now.order }
    requires second { face.b < shape.now.order }
    ensures { IsTrue result ↔ IsAdditive (IsTight shape.now) face.kind face.a face.b }
{
    let square = Square::of(shape, face.a, face.b);
    for corner in 0..corners(face.kind) {
        if square.limit(face.kind, corner) != 0 {
            return false;
        }
    }
    true
}
