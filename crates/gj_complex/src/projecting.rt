//! The intervals onto which faces project.
ghost use Rattle.std.specs.Prelude.{◌≡◌, ◌<◌};
ghost use Rattle.gj_shape.specs.Given.{IsOrder};
ghost use Rattle.gj_complex.specs.Projections.{projections_of};

use crate::intervals::Projections;
use gj_shape::{Face, FaceKind, wrapped};

/// The intervals onto which the face projects, in the complex of order q, from 2 to 1,000.
///
/// The face lies in a square (a, b) with a and b below q.
pub fn projections(face: Face, q: u32) -> Projections
    requires order { IsOrder q }
    requires first { face.a < q }
    requires second { face.b < q }
    ensures { result ≡ projections_of q face.kind face.a face.b }
{
    let (a, b) = (face.a, face.b);
    let (x, y) = (Some(a), Some(b));
    let lower_sum = Some(wrapped(a + b, q));
    let upper_sum = Some(wrapped(a + b + 1, q));
    match face.kind {
        FaceKind::Vertex => Projections {
            x: None,
            y: None,
            sum: None,
        },
        FaceKind::Horizontal => Projections {
            x,
            y: None,
            sum: lower_sum,
        },
        FaceKind::Vertical => Projections {
            x: None,
            y,
            sum: lower_sum,
        },
        FaceKind::Diagonal => Projections { x, y, sum: None },
        FaceKind::Lower => Projections {
            x,
            y,
            sum: lower_sum,
        },
        FaceKind::Upper => Projections {
            x,
            y,
            sum: upper_sum,
        },
    }
}
