//! The walk over all faces of the complex.
ghost use Rattle.std.specs.Prelude.{◌≡◌, ◌*◌, length, All};
ghost use Rattle.gj_shape.specs.Given.{IsOrder};
ghost use Rattle.gj_complex.specs.Walk.{faces_of, IsFaceOf};
ghost use Rattle.gj_complex.specs.Remaining.{faces_left};

use crate::face_walk::FaceWalk;

/// All 6 q q faces of the complex of order q, from 2 to 1,000, in walk order.
pub fn walk(q: u32) -> FaceWalk
    requires { IsOrder q }
    ensures all { faces_left result ≡ faces_of q }
    ensures count { length (faces_left result) ≡ 6 * (q * q) }
    ensures within { All (IsFaceOf q) (faces_left result) }
{
    FaceWalk::of_order(q)
}
