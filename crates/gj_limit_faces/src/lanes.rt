//! The limits and values of a function in lanes.
ghost use Rattle.std.specs.Prelude.{ℕ, pos, ◌≡◌, ◌↔◌, ◌+◌, ◌*◌, ◌-ℤ◌, ◌<◌, ◌≤◌, length};
ghost use Rattle.std.specs.Prelude.{IfOk, IsTrue};
ghost use Rattle.gj_shape.specs.Limits.{greatest_order};
ghost use Rattle.gj_loops.specs.IndexSets.{has};
ghost use Rattle.gj_loops.specs.Lanes.{AreInRange, ArePeriods};
ghost use Rattle.gj_limit_faces.specs.Lanes.{AreSides, AreSidesInRange, AreLanesOf};
ghost use Rattle.gj_limit_faces.specs.Terms.{by_side, limit_by};

use crate::terms::{Side, Terms};
use gj_loops::{IndexSet, SignedLane, write_periods};
use gj_shape::Shape;
use std::alloc::{AllocError, Global};

/// How many lanes there are behind two periods.
const BEHIND: usize = 65;

/// The limits from the left, the values and the limits from the right of a function, each list two
/// times over, in the narrowest lanes in which they fit.
#[derive(Drop)]
pub(crate) enum SideLanes {
    /// Lanes of 16 bits.
    Short {
        left: Vec<i16>,
        value: Vec<i16>,
        right: Vec<i16>,
    },
    /// Lanes of 32 bits.
    Narrow {
        left: Vec<i32>,
        value: Vec<i32>,
        right: Vec<i32>,
    },
    /// Lanes of 64 bits.
    Wide {
        left: Vec<i64>,
        value: Vec<i64>,
        right: Vec<i64>,
    },
}

impl SideLanes {
    /// The lanes of the function.
    pub(crate) fn of(alloc: Global, shape: &Shape) -> Result<SideLanes, AllocError>
        ensures { IfOk result (AreLanesOf shape.now) }
    {
        if are_sides_below(shape, 1 << 14) {
            return Ok(SideLanes::Short {
                left: periods(alloc, shape.left_numerators())?,
                value: periods(alloc, shape.value_numerators())?,
                right: periods(alloc, shape.right_numerators())?,
            });
        }
        if are_sides_below(shape, 1 << 30) {
            return Ok(SideLanes::Narrow {
                left: periods(alloc, shape.left_numerators())?,
                value: periods(alloc, shape.value_numerators())?,
                right: periods(alloc, shape.right_numerators())?,
            });
        }
        Ok(SideLanes::Wide {
            left: periods(alloc, shape.left_numerators())?,
            value: periods(alloc, shape.value_numerators())?,
            right: periods(alloc, shape.right_numerators())?,
        })
    }

    /// The indices b below the order for which the limit with these terms in the square (a, b) is
    /// 0.
    pub(crate) fn row(&self, shape: &Shape, terms: Terms, a: u32) -> IndexSet
        requires lanes { AreLanesOf shape.now self.now }
        requires right { terms.right ≤ 1 }
        requires above { terms.above ≤ 1 }
        requires within { a < shape.now.order }
        ensures { (b : ℕ) → IsTrue (has result b) ↔
            ((b < shape.now.order) × (limit_by shape.now terms a b ≡ pos 0)) }
    {
        match self {
            SideLanes::Short { left, value, right } => row_of(
                shape,
                left.as_slice(),
                value.as_slice(),
                right.as_slice(),
                terms,
                a,
            ),
            SideLanes::Narrow { left, value, right } => row_of(
                shape,
                left.as_slice(),
                value.as_slice(),
                right.as_slice(),
                terms,
                a,
            ),
            SideLanes::Wide { left, value, right } => row_of(
                shape,
                left.as_slice(),
                value.as_slice(),
                right.as_slice(),
                terms,
                a,
            ),
        }
    }
}

/// Whether all limits and values, each times the common denominator, are below the bound in
/// absolute value.
fn are_sides_below(shape: &Shape, bound: u64) -> bool
    requires { 0 < bound }
    ensures { IsTrue result ↔ AreSidesInRange (pos 1 -ℤ pos bound) bound shape.now }
{
    are_below(shape.left_numerators(), bound)
        && are_below(shape.value_numerators(), bound)
        && are_below(shape.right_numerators(), bound)
}

/// Whether each number is below the bound in absolute value.
fn are_below(numbers: &[i64], bound: u64) -> bool
    requires { 0 < bound }
    ensures { IsTrue result ↔ AreInRange (pos 1 -ℤ pos bound) bound numbers.now }
{
    for number in numbers {
        if number.unsigned_abs() >= bound {
            return false;
        }
    }
    true
}

/// The numbers two times over in lanes, and some lanes behind them.
fn periods<L: SignedLane>(alloc: Global, numbers: &[i64]) -> Result<Vec<L>, AllocError>
    requires some { 0 < length numbers.now }
    requires few { length numbers.now ≤ greatest_order }
    requires range { AreInRange L.least L.bound numbers.now }
    ensures periods { IfOk result (λ v. ArePeriods L.number L.least L.bound v.items numbers.now) }
    ensures room { IfOk result (λ v. length v.items ≡ 2 * length numbers.now + 65) }
{
    let mut lanes = vec![in alloc; L::of(numbers[0]); 2 * numbers.len() + BEHIND]?;
    write_periods(lanes.as_mut_slice(), numbers);
    Ok(lanes)
}

/// Of three slices the one for this side.
fn pick<'a, L>(left: &'a [L], value: &'a [L], right: &'a [L], side: Side) -> &'a [L]
    ensures { result.now ≡ by_side side left.now value.now right.now }
{
    match side {
        Side::Left => left,
        Side::Value => value,
        Side::Right => right,
    }
}

/// The indices b below the order for which the limit with these terms in the square (a, b) is 0,
/// off lanes of one width.
fn row_of<L: SignedLane>(
    shape: &Shape,
    left: &[L],
    value: &[L],
    right: &[L],
    terms: Terms,
    a: u32,
) -> IndexSet
    requires sides { AreSides L.number L.least L.bound shape.now left.now value.now right.now }
    requires right { terms.right ≤ 1 }
    requires above { terms.above ≤ 1 }
    requires within { a < shape.now.order }
    ensures { (b : ℕ) → IsTrue (has result b) ↔
        ((b < shape.now.order) × (limit_by shape.now terms a b ≡ pos 0)) }
{
    let order = shape.order() as usize;
    let x = pick(left, value, right, terms.x);
    let y = pick(left, value, right, terms.y);
    let sum = pick(left, value, right, terms.sum);
    let first = (a + terms.right) as usize;
    let above = terms.above as usize;
    IndexSet::of_sums(&y[above..], x[first], &sum[first + above..], order)
}
