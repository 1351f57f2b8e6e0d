//! Rows of squares, and the limits of the slack at the corners of their faces.
ghost use Rattle.std.specs.Prelude.{◌↔◌, ◌≤◌, ◌<◌, ◌≡◌, IsTrue};
ghost use Rattle.gj_check_minimal.specs.Tests.{IsSubadditiveRow};
ghost use Rattle.gj_limit_faces.specs.Terms.{by_side};
ghost use Rattle.gj_limit_check_halves.specs.Half.{IsHalf, data_of};
ghost use Rattle.gj_limit_check_halves.specs.RowTests.{PassesKind, PassesTerms};

use crate::half::Half;
use gj_complex::corners;
use gj_limit_faces::{Side, Terms, terms_of};
use gj_shape::{FaceKind, wrapped};

/// Whether no limit of the slack is negative in any square (a, b) with b from a on.
pub(crate) fn is_subadditive_row(half: Half<'_>, a: u32) -> bool
    requires half { IsHalf half }
    requires within { a < half.order }
    ensures { IsTrue result ↔ IsSubadditiveRow (data_of half.entry) a }
{
    if !passes_kind(half, FaceKind::Vertex, a) {
        return false;
    }
    if !passes_kind(half, FaceKind::Horizontal, a) {
        return false;
    }
    if !passes_kind(half, FaceKind::Vertical, a) {
        return false;
    }
    if !passes_kind(half, FaceKind::Diagonal, a) {
        return false;
    }
    if !passes_kind(half, FaceKind::Lower, a) {
        return false;
    }
    passes_kind(half, FaceKind::Upper, a)
}

/// The same of the faces of one kind.
fn passes_kind(half: Half<'_>, kind: FaceKind, a: u32) -> bool
    requires half { IsHalf half }
    requires within { a < half.order }
    ensures { IsTrue result ↔ PassesKind (data_of half.entry) kind a }
{
    for corner in 0..corners(kind) {
        if !passes_terms(half, terms_of(kind, corner), a) {
            return false;
        }
    }
    true
}

/// Whether no limit of the slack that these terms make is negative, for b from a on.
fn passes_terms(half: Half<'_>, terms: Terms, a: u32) -> bool
    requires half { IsHalf half }
    requires within { a < half.order }
    requires right { terms.right ≤ 1 }
    requires above { terms.above ≤ 1 }
    ensures { IsTrue result ↔ PassesTerms (data_of half.entry) terms a }
{
    let order = half.order;
    let x = wrapped(a + terms.right, order);
    let first = on_side(half, terms.x)[x as usize];
    let seconds = on_side(half, terms.y);
    let sums = on_side(half, terms.sum);
    for b in a..order {
        let y = wrapped(b + terms.above, order);
        let sum = wrapped(x + y, order);
        if first + seconds[y as usize] < sums[sum as usize] {
            return false;
        }
    }
    true
}

/// The limits from this side, or the values.
fn on_side<'a>(half: Half<'a>, side: Side) -> &'a [i128]
    ensures { result.now ≡ by_side side half.entry.left.now half.entry.value.now
        half.entry.right.now }
{
    match side {
        Side::Left => half.left,
        Side::Value => half.value,
        Side::Right => half.right,
    }
}
