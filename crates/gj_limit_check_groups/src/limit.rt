//! The rule `row`.
ghost use Rattle.std.specs.Prelude.{pos, ◌≡◌, ◌<◌, ◌+ℤ◌, ◌↔◌, IsTrue, length};
ghost use Rattle.gj_shape.specs.Faces.{corners_of};
ghost use Rattle.gj_shape.specs.FunctionData.{IsWithinBounds};
ghost use Rattle.gj_shape.specs.Limits.{IsNumerator};
ghost use Rattle.gj_limit_system.specs.LimitSlacks.{limits_in, number_on, slack_at};
ghost use Rattle.gj_limit_proof.specs.LimitRules.{MeetsLimitRow};
ghost use Rattle.gj_limit_proof.specs.LimitText.{IsRowWithin};

use gj_limit_faces::{Side, terms_of};
use gj_limit_system::LimitRow;
use gj_shape::{FaceKind, Shape};

/// The limit from this side at an index, or the value there, times the common denominator; the
/// index is read modulo the order.
fn number_at(shape: &Shape, side: Side, index: u32) -> i64
    ensures value { result ≡ number_on (limits_in shape.now) side index }
    ensures small { IsNumerator result }
    ensures limits { IsWithinBounds shape.now }
{
    match side {
        Side::Left => shape.left_numerator(index),
        Side::Value => shape.value_numerator(index),
        Side::Right => shape.right_numerator(index),
    }
}

/// Whether two numbers add up to a third.
fn add_up(first: i64, second: i64, sum: i64) -> bool
    requires first { IsNumerator first }
    requires second { IsNumerator second }
    ensures { IsTrue result ↔ (first +ℤ second ≡ sum) }
{
    first + second == sum
}

/// Whether the limit of the slack at the vertex (a, b), from inside a face of this kind of which it
/// is this corner, is 0.
fn is_zero(shape: &Shape, kind: FaceKind, corner: u32, a: u32, b: u32) -> bool
    requires corner { corner < length (corners_of kind 0 0) }
    requires first { a < shape.now.order }
    requires second { b < shape.now.order }
    ensures { IsTrue result ↔ (slack_at (limits_in shape.now) kind corner a b ≡ pos 0) }
{
    let terms = terms_of(kind, corner);
    let first = number_at(shape, terms.x, a);
    let second = number_at(shape, terms.y, b);
    add_up(first, second, number_at(shape, terms.sum, a + b))
}

/// Whether the limit that names a row is 0.
pub(crate) fn meets_row(shape: &Shape, name: LimitRow) -> bool
    requires { IsRowWithin shape.now.order name }
    ensures { IsTrue result ↔ MeetsLimitRow shape.now name }
{
    match name {
        LimitRow::F => true,
        LimitRow::Tight { kind, corner, a, b } => is_zero(shape, kind, corner, a, b),
    }
}
