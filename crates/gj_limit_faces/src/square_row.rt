//! The limits that are 0 in one row of squares, made of the values where few points are jumps.
ghost use Rattle.std.specs.Prelude.{ℕ, pos, ◌≡◌, ◌≢◌, ◌↔◌, ◌+◌, ◌%◌, ◌<◌, ◌≤◌, length, IsTrue};
ghost use Rattle.std.specs.Prelude.{IfSome};
ghost use Rattle.gj_loops.specs.IndexSets.{has};
ghost use Rattle.gj_shape.specs.Faces.{corners_of};
ghost use Rattle.gj_shape.specs.FunctionData.{at};
ghost use Rattle.gj_shape.specs.Limits.{IsNumerator};
ghost use Rattle.gj_jumps.specs.LimitCover.{IsTightAt};
ghost use Rattle.gj_limit_faces.specs.Terms.{limit_by, numbers_on};
ghost use Rattle.gj_limit_faces.specs.TightLimits.{AreTightLimitsOf};
ghost use Rattle.gj_limit_faces.specs.ValueRows.{AreJumps, AreValueRows, IsValueRow, value_slack};

use crate::jumps::is_continuous_at;
use crate::terms::{Side, Terms, terms_of};
use crate::tight_limits::TightLimits;
use gj_loops::IndexSet;
use gj_shape::{FaceKind, Shape, wrapped};

/// What is known of the values for the squares (a, b) with one a.
///
/// If the function jumps at few points and not at a corner's x, the limit there is the slack of the
/// values, but where it jumps at the corner's y or at the sum of both.
#[derive(Clone, Copy, Drop)]
pub(crate) struct SquareRow {
    /// The indices b of the vertices (a, b) at which the slack of the values is 0, if the jumps are
    /// few and a is none of them.
    pub(crate) start: Option<IndexSet>,
    /// The same for a + 1.
    pub(crate) end: Option<IndexSet>,
}

impl SquareRow {
    /// The indices b below the order for which the limit of the slack from inside the face of this
    /// kind of the square (a, b) is 0 at this corner of it, and no others.
    pub(crate) fn row(
        &self,
        shape: &Shape,
        limits: &TightLimits,
        kind: FaceKind,
        corner: u32,
        a: u32,
    ) -> IndexSet
        requires values { AreValueRows shape.now a self.now }
        requires limits { AreTightLimitsOf shape.now limits.now }
        requires corner { corner < length (corners_of kind 0 0) }
        requires within { a < shape.now.order }
        ensures { (b : ℕ) → IsTrue (has result b) ↔
            ((b < shape.now.order) × IsTightAt shape.now kind a b corner) }
    {
        let terms = terms_of(kind, corner);
        if terms.right == 0 {
            limit_row(shape, limits, &self.start, terms, a)
        } else {
            limit_row(shape, limits, &self.end, terms, a)
        }
    }
}

/// The indices b below the order of the vertices (a + right, b) at which the slack of the values is
/// 0, if the jumps are few and a + right is none of them.
pub(crate) fn value_row(shape: &Shape, limits: &TightLimits, a: u32, right: u32) -> Option<IndexSet>
    requires limits { AreTightLimitsOf shape.now limits.now }
    requires right { right ≤ 1 }
    requires within { a < shape.now.order }
    ensures { IfSome result (IsValueRow shape.now (a + right)) }
{
    let order = shape.order();
    prove!(order <= 1_000);
    if limits.jumps.is_none() {
        return None;
    }
    if !is_continuous_at(shape, a + right) {
        return None;
    }
    let terms = Terms {
        x: Side::Value,
        y: Side::Value,
        sum: Side::Value,
        right,
        above: 0,
    };
    Some(limits.lanes.row(shape, terms, a))
}

/// The indices b below the order for which the limit with these terms in the square (a, b) is 0, by
/// the values at the corner's x where these are enough.
fn limit_row(
    shape: &Shape,
    limits: &TightLimits,
    values: &Option<IndexSet>,
    terms: Terms,
    a: u32,
) -> IndexSet
    requires values { IfSome values.now (IsValueRow shape.now (a + terms.right)) }
    requires limits { AreTightLimitsOf shape.now limits.now }
    requires right { terms.right ≤ 1 }
    requires above { terms.above ≤ 1 }
    requires within { a < shape.now.order }
    ensures { (b : ℕ) → IsTrue (has result b) ↔
        ((b < shape.now.order) × (limit_by shape.now terms a b ≡ pos 0)) }
{
    let Some(set) = values else {
        return limits.lanes.row(shape, terms, a);
    };
    let Some(jumps) = &limits.jumps else {
        return limits.lanes.row(shape, terms, a);
    };
    mended(shape, jumps.as_slice(), set, terms, a)
}

/// The same by the values, with the indices mended at which a jump is the corner's y or the sum.
fn mended(shape: &Shape, jumps: &[u32], values: &IndexSet, terms: Terms, a: u32) -> IndexSet
    requires jumps { AreJumps shape.now jumps.now }
    requires values { IsValueRow shape.now (a + terms.right) values.now }
    requires right { terms.right ≤ 1 }
    requires above { terms.above ≤ 1 }
    requires within { a < shape.now.order }
    ensures { (b : ℕ) → IsTrue (has result b) ↔
        ((b < shape.now.order) × (limit_by shape.now terms a b ≡ pos 0)) }
{
    let order = shape.order();
    let step = wrapped(a + terms.right + terms.above, order);
    let mut set = moved(shape, values, terms, a);
    for jump in jumps {
        mend(
            shape,
            &mut set,
            terms,
            a,
            index_before(*jump, terms.above, order),
        );
        mend(shape, &mut set, terms, a, index_before(*jump, step, order));
    }
    set
}

/// The indices b below the order for which the slack of the values is 0 at the corner in the square
/// (a, b).
fn moved(shape: &Shape, values: &IndexSet, terms: Terms, a: u32) -> IndexSet
    requires values { IsValueRow shape.now (a + terms.right) values.now }
    requires above { terms.above ≤ 1 }
    ensures { (b : ℕ) → IsTrue (has result b) ↔
        ((b < shape.now.order)
        × (value_slack shape.now (a + terms.right) (b + terms.above) ≡ pos 0)) }
{
    let order = shape.order() as usize;
    if terms.above == 0 {
        return *values;
    }
    values.turned_down(order)
}

/// The index that is so much before this one, modulo the order.
fn index_before(index: u32, by: u32, order: u32) -> u32
    requires few { order ≤ 1_000 }
    requires within { index < order }
    requires step { by < order }
    ensures below { result < order }
    ensures value { (b : ℕ) → b < order → (b + by) % order ≡ index → b ≡ result }
{
    if by <= index {
        index - by
    } else {
        index + order - by
    }
}

/// Puts the index b into the set, or takes it out, as the limit in the square (a, b) is 0.
fn mend(shape: &Shape, set: &mut IndexSet, terms: Terms, a: u32, b: u32)
    requires right { terms.right ≤ 1 }
    requires above { terms.above ≤ 1 }
    requires within { a < shape.now.order }
    requires second { b < shape.now.order }
    requires few { b < 1_000 }
    ensures here { IsTrue (has set.new b) ↔ (limit_by shape.now terms a b ≡ pos 0) }
    ensures others { (c : ℕ) → c ≢ b → has set.new c ≡ has set.old c }
{
    let is_zero = is_zero(shape, terms, a, b);
    set.put(b as usize, is_zero);
}

/// Whether the limit with these terms in the square (a, b) is 0.
fn is_zero(shape: &Shape, terms: Terms, a: u32, b: u32) -> bool
    requires right { terms.right ≤ 1 }
    requires above { terms.above ≤ 1 }
    requires first { a < shape.now.order }
    requires second { b < shape.now.order }
    ensures { IsTrue result ↔ (limit_by shape.now terms a b ≡ pos 0) }
{
    let order = shape.order();
    prove!(order <= 1_000);
    let first = a + terms.right;
    let second = b + terms.above;
    let x = number_at(shape, terms.x, first);
    let y = number_at(shape, terms.y, second);
    x + y == number_at(shape, terms.sum, first + second)
}

/// The limit from this side at i/q, or the value there, times the common denominator; i is read
/// modulo q.
fn number_at(shape: &Shape, side: Side, i: u32) -> i64
    ensures value { result ≡ at (numbers_on shape.now side) i }
    ensures small { IsNumerator result }
{
    match side {
        Side::Left => shape.left_numerator(i),
        Side::Value => shape.value_numerator(i),
        Side::Right => shape.right_numerator(i),
    }
}
