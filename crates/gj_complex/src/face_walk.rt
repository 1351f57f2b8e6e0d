//! All faces of the complex, in walk order.
ghost use Rattle.std.specs.Prelude.{◌≡◌, ◌≤◌, ◌<◌, IfSome};
ghost use Rattle.std.specs.Option.{ForSome};
ghost use Rattle.std.specs.Iterator.{YieldsFirst, item_count};
ghost use Rattle.gj_shape.specs.Given.{IsOrder};
ghost use Rattle.gj_complex.specs.Walk.{faces_of, faces_after, faces_from, kinds_after, kinds_from};
ghost use Rattle.gj_complex.specs.Walk.{IsFaceOf};

use gj_shape::{Face, FaceKind};

/// The faces of the complex that are left to give, in walk order.
///
/// In walk order a comes from 0, inside it b from 0, and inside a square the kinds come in the
/// order of `FaceKind`.
#[derive(Debug, Drop)]
pub struct FaceWalk {
    order: u32,
    next: Option<Face>,
    ghost few: { IsOrder order },
    ghost within: { ForSome next (IsFaceOf order) },
}

impl FaceWalk {
    ghost use Rattle.gj_complex.specs.Remaining.{faces_left};

    /// All faces of the complex of order q, from 2 to 1,000, in walk order.
    pub(crate) fn of_order(q: u32) -> FaceWalk
        requires { IsOrder q }
        ensures { faces_left result ≡ faces_of q }
    {
        FaceWalk {
            order: q,
            next: Some(Face {
                kind: FaceKind::Vertex,
                a: 0,
                b: 0,
            }),
        }
    }
}

impl Iterator for FaceWalk {
    type Item = Face;

    ghost use Rattle.gj_complex.specs.Remaining.{faces_left};

    ghost next_gives = { YieldsFirst faces_left };

    ghost remaining = { item_count faces_left };

    fn next(&mut self) -> Option<Face> {
        let face = self.next?;
        self.next = following(face, self.order);
        Some(face)
    }
}

/// The face that follows in walk order.
fn following(face: Face, order: u32) -> Option<Face>
    requires order { IsOrder order }
    requires within { IsFaceOf order face }
    ensures rest { faces_from order result ≡ faces_after order face }
    ensures within { IfSome result (IsFaceOf order) }
{
    let Face { kind, a, b } = face;
    if let Some(kind) = kind_after(kind) {
        return Some(Face { kind, a, b });
    }
    let kind = FaceKind::Vertex;
    if b + 1 < order {
        return Some(Face { kind, a, b: b + 1 });
    }
    if a + 1 < order {
        return Some(Face {
            kind,
            a: a + 1,
            b: 0,
        });
    }
    None
}

/// The kind that comes next in the same square.
fn kind_after(kind: FaceKind) -> Option<FaceKind>
    ensures { kinds_after kind ≡ kinds_from result }
{
    match kind {
        FaceKind::Vertex => Some(FaceKind::Horizontal),
        FaceKind::Horizontal => Some(FaceKind::Vertical),
        FaceKind::Vertical => Some(FaceKind::Diagonal),
        FaceKind::Diagonal => Some(FaceKind::Lower),
        FaceKind::Lower => Some(FaceKind::Upper),
        FaceKind::Upper => None,
    }
}
