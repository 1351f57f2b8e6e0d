//! Which faces are parts of others: in the border of one of higher dimension on which the slack is
//! 0, too.
ghost use Rattle.std.specs.Prelude.{ℕ, ◌≡◌, ◌↔◌, ◌<◌, IsTrue};
ghost use Rattle.gj_shape.specs.FunctionData.{FunctionData};
ghost use Rattle.gj_shape.specs.Limits.{greatest_order};
ghost use Rattle.gj_limit_faces_text.specs.AdditiveRows.{AreRowsAt, is_part};
ghost use Rattle.gj_limit_faces_text.specs.AdditiveRows.{is_edge_end, is_triangle_corner};
ghost use Rattle.gj_limit_faces_text.specs.LimitFacesText.{IsMaximalByLimits};

use crate::additive_row::AdditiveRow;
use gj_shape::FaceKind;

/// Whether the slack is 0 on the face of this kind of the square (a, b) and on no face of higher
/// dimension with it in its border: by the row of a, the row before it, b and the index before it,
/// modulo the order.
pub(crate) fn is_maximal(
    here: &AdditiveRow,
    before: &AdditiveRow,
    kind: FaceKind,
    b: u32,
    back: u32,
) -> bool
    requires within { b < greatest_order }
    requires behind { back < greatest_order }
    ensures { (f : FunctionData) (a : ℕ) → AreRowsAt f a b back here.now before.now →
        (IsTrue result ↔ IsMaximalByLimits f (record { kind = kind; a = a; b = b })) }
{
    here.has(kind, b) && !is_part(here, before, kind, b, back)
}

/// Whether the face is in the border of one of higher dimension on which the slack is 0.
fn is_part(here: &AdditiveRow, before: &AdditiveRow, kind: FaceKind, b: u32, back: u32) -> bool
    requires within { b < greatest_order }
    requires behind { back < greatest_order }
    ensures { result ≡ is_part here.now before.now kind b back }
{
    match kind {
        FaceKind::Vertex => {
            is_edge_end(here, before, b, back) || is_triangle_corner(here, before, b, back)
        }
        FaceKind::Horizontal => here.has(FaceKind::Lower, b) || here.has(FaceKind::Upper, back),
        FaceKind::Vertical => here.has(FaceKind::Lower, b) || before.has(FaceKind::Upper, b),
        FaceKind::Diagonal => here.has(FaceKind::Lower, b) || here.has(FaceKind::Upper, b),
        FaceKind::Lower | FaceKind::Upper => false,
    }
}

/// Whether the vertex is an end of an edge on which the slack is 0.
fn is_edge_end(here: &AdditiveRow, before: &AdditiveRow, b: u32, back: u32) -> bool
    requires within { b < greatest_order }
    requires behind { back < greatest_order }
    ensures { result ≡ is_edge_end here.now before.now b back }
{
    here.has(FaceKind::Horizontal, b)
        || before.has(FaceKind::Horizontal, b)
        || here.has(FaceKind::Vertical, b)
        || here.has(FaceKind::Vertical, back)
        || before.has(FaceKind::Diagonal, b)
        || here.has(FaceKind::Diagonal, back)
}

/// Whether the vertex is a corner of a triangle on which the slack is 0.
fn is_triangle_corner(here: &AdditiveRow, before: &AdditiveRow, b: u32, back: u32) -> bool
    requires within { b < greatest_order }
    requires behind { back < greatest_order }
    ensures { result ≡ is_triangle_corner here.now before.now b back }
{
    here.has(FaceKind::Lower, b)
        || before.has(FaceKind::Lower, b)
        || here.has(FaceKind::Lower, back)
        || before.has(FaceKind::Upper, b)
        || here.has(FaceKind::Upper, back)
        || before.has(FaceKind::Upper, back)
}
