//! The sides of a limit, as a word.
ghost use Rattle.std.specs.Prelude.{◌≡◌, ◌≢◌, ◌<◌, ℕ, IfSome, IfNone, length};
ghost use Rattle.gj_shape.specs.Faces.{corners_of};
ghost use Rattle.gj_shape.specs.declared.faces.FaceKind.{FaceKind};
ghost use Rattle.gj_shape.specs.declared.faces.FaceKind.TheVariants.{Vertex};
ghost use Rattle.gj_limit_proof.specs.Sides.{sides_word};

use gj_shape::FaceKind;

/// The corners of edges and triangles.
const CORNERS: [(FaceKind, u32); 12] = [
    (FaceKind::Horizontal, 0),
    (FaceKind::Horizontal, 1),
    (FaceKind::Vertical, 0),
    (FaceKind::Vertical, 1),
    (FaceKind::Diagonal, 0),
    (FaceKind::Diagonal, 1),
    (FaceKind::Lower, 0),
    (FaceKind::Lower, 1),
    (FaceKind::Lower, 2),
    (FaceKind::Upper, 0),
    (FaceKind::Upper, 1),
    (FaceKind::Upper, 2),
];

/// The word of the limit at this corner, seen from inside a face of this kind: the sides of the two
/// points and of their sum, `-` for the limit from the left, `0` for the value, `+` for the limit
/// from the right.
pub(crate) fn sides_word(kind: FaceKind, corner: u32) -> &'static [u8]
    ensures { result.now ≡ sides_word kind corner }
{
    match (kind, corner) {
        (FaceKind::Vertex, _) => b"000",
        (FaceKind::Horizontal, 0) => b"+0+",
        (FaceKind::Horizontal, _) => b"-0-",
        (FaceKind::Vertical, 0) => b"0++",
        (FaceKind::Vertical, _) => b"0--",
        (FaceKind::Diagonal, 0) => b"-+0",
        (FaceKind::Diagonal, _) => b"+-0",
        (FaceKind::Lower, 0) => b"+++",
        (FaceKind::Lower, 1) => b"-+-",
        (FaceKind::Lower, _) => b"+--",
        (FaceKind::Upper, 0) => b"-++",
        (FaceKind::Upper, 1) => b"+-+",
        (FaceKind::Upper, _) => b"---",
    }
}

/// The corner of an edge or a triangle that the word names, and the kind of that face.
pub(crate) fn sides_of_word(word: &[u8]) -> Option<(FaceKind, u32)>
    ensures found { IfSome result (λ r. (word.now ≡ sides_word r.0 r.1) × (r.0 ≢ Vertex) ×
        (r.1 < length (corners_of r.0 0 0))) }
    ensures none { IfNone result ((kind : FaceKind) (corner : ℕ) → kind ≢ Vertex →
        word.now ≡ sides_word kind corner → ⊥) }
{
    for (kind, corner) in CORNERS {
        if word == sides_word(kind, corner) {
            return Some((kind, corner));
        }
    }
    None
}
