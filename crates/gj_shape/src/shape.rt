//! Functions of period 1 that are affine between neighbouring multiples of 1/q.
ghost use Rattle.std.specs.Prelude.{◌≡◌, ◌<◌, ◌%◌, ℕ, pos, All, IfOk, IfErr, IfSome, IfNone};
ghost use Rattle.std.specs.Prelude.{IsTrue, ◌↔◌};
ghost use Rattle.gj_frac.specs.Fraction.{IsRatio, IsInside};
ghost use Rattle.gj_shape.specs.FunctionData.{IsWithinBounds, IsContinuous, IsJump, at};
ghost use Rattle.gj_shape.specs.FunctionData.{function_over};
ghost use Rattle.gj_shape.specs.Given.{in_order, HaveLength, IsOrder, IsPlace};
ghost use Rattle.gj_shape.specs.Denominators.{AreWithinBoundsOver};
ghost use Rattle.gj_shape.specs.Limits.{IsNumerator};

use crate::denominators::common_denominator;
use crate::faults::ShapeFault;
use crate::limits::GREATEST_ORDER;
use crate::numerators::numerators;
use gj_frac::Frac;
use std::alloc::{AllocError, Global};
use std::marker::Model;

/// A function of period 1 that is affine between neighbouring multiples of 1/q, with its limits
/// from the left and from the right at each of them, and the place k of f = k/q.
///
/// It keeps whole numbers over the least common denominator of all values and limits.
///
/// # Example
///
/// The mixed-integer cut of Gomory for f = 1/2 rises from 0 to 1 at 1/2 and falls back to 0:
///
/// ```
/// let values = [Frac::new(0, 1).unwrap(), Frac::new(1, 1).unwrap()];
/// let shape = Shape::new(alloc, 2, 1, &values, &values, &values)?;
/// assert!(shape.is_continuous());
/// assert_eq!(shape.value_at(Frac::new(3, 4).unwrap()), Frac::new(1, 2).unwrap());
/// ```
#[derive(Drop)]
pub struct Shape {
    order: u32,
    place: u32,
    scale: u32,
    left: Vec<i64>,
    value: Vec<i64>,
    right: Vec<i64>,
}

impl Model for Shape {
    ghost use Rattle.gj_shape.specs.FunctionData.{FunctionData};

    ghost Value = { FunctionData };

    ghost use Rattle.gj_shape.specs.Kept.{function_of, IsKept};

    ghost view = { function_of };

    ghost invariant = { IsKept };
}

impl Shape {
    ghost use Rattle.gj_shape.specs.Given.{HasFault, IsGivenBy};

    /// The function of order `q` with f = `k/q` and, at i/q, the limit `left[i]` from the left, the
    /// value `value[i]` and the limit `right[i]` from the right.
    ///
    /// The tests come in this order, and the first that fails is the error: `q` from 2 to 1,000;
    /// `k` from 1 to `q - 1`; each list of length `q`; then for each index the limit from the left,
    /// the value and the limit from the right, each at most 2^20 in absolute value, and then with a
    /// common denominator of all so far that is at most 2^31 - 1.
    pub fn new(
        alloc: Global,
        q: u32,
        k: u32,
        left: &[Frac],
        value: &[Frac],
        right: &[Frac],
    ) -> Result<Shape, ShapeFault>
        ensures given { IfOk result (IsGivenBy q k left.now value.now right.now) }
        ensures fault { IfErr result (HasFault q k left.now value.now right.now) }
    {
        if !is_order(q) {
            return Err(ShapeFault::Order);
        }
        if !is_place(q, k) {
            return Err(ShapeFault::Place);
        }
        let length = q as usize;
        if left.len() != length || value.len() != length || right.len() != length {
            return Err(ShapeFault::Count);
        }
        let scale = common_denominator(left, value, right)?;
        Ok(Shape::over(alloc, q, k, scale, left, value, right)?)
    }

    /// The function of order `q` with f = `k/q` and these limits and values, which are tested
    /// already; `scale` is their least common denominator.
    pub(crate) fn over(
        alloc: Global,
        q: u32,
        k: u32,
        scale: u32,
        left: &[Frac],
        value: &[Frac],
        right: &[Frac],
    ) -> Result<Shape, AllocError>
        requires order { IsOrder q }
        requires place { IsPlace q k }
        requires lengths { HaveLength left.now value.now right.now q }
        requires least { AreWithinBoundsOver (in_order left.now value.now right.now) scale }
        ensures { IfOk result (IsGivenBy q k left.now value.now right.now) }
    {
        Ok(Shape {
            order: q,
            place: k,
            scale,
            left: numerators(alloc, left, scale)?,
            value: numerators(alloc, value, scale)?,
            right: numerators(alloc, right, scale)?,
        })
    }

    /// The function of order `order` with f = `place/order` and, at i/order, the limit
    /// `left[i]/scale` from the left, the value `value[i]/scale` and the limit `right[i]/scale`
    /// from the right. All are within the bounds, and no smaller denominator than `scale` serves.
    pub fn from_numerators(
        order: u32,
        place: u32,
        scale: u32,
        left: Vec<i64>,
        value: Vec<i64>,
        right: Vec<i64>,
    ) -> Shape
        requires { IsWithinBounds
            (function_over order place scale left.items value.items right.items) }
        ensures { result ≡ function_over order place scale left.items value.items right.items }
    {
        Shape {
            order,
            place,
            scale,
            left,
            value,
            right,
        }
    }

    /// The order q, from 2 to 1,000.
    pub fn order(&self) -> u32
        ensures value { result ≡ self.now.order }
        ensures limits { IsWithinBounds self.now }
    {
        self.order
    }

    /// The place k of f = k/q, from 1 to q - 1.
    pub fn place(&self) -> u32
        ensures value { result ≡ self.now.place }
        ensures limits { IsWithinBounds self.now }
    {
        self.place
    }

    /// The least common denominator of all values and limits, from 1 to 2^31 - 1.
    pub fn common_denominator(&self) -> i128
        ensures value { result ≡ pos self.now.scale }
        ensures limits { IsWithinBounds self.now }
    {
        i128::from(self.scale)
    }

    /// f, which is k/q.
    pub fn f(&self) -> Frac
        ensures value { IsRatio result (pos self.now.place) (pos self.now.order) }
        ensures inside { IsInside result }
        ensures limits { IsWithinBounds self.now }
    {
        Frac::ratio(i64::from(self.place), self.order)
    }

    /// The limit from the left at i/q.
    pub fn left(&self, i: u32) -> Frac
        requires { i < self.now.order }
        ensures { IsRatio result (at self.now.left i) (pos self.now.scale) }
    {
        Frac::ratio(self.left_numerator(i), self.scale)
    }

    /// The value at i/q.
    pub fn value(&self, i: u32) -> Frac
        requires { i < self.now.order }
        ensures { IsRatio result (at self.now.value i) (pos self.now.scale) }
    {
        Frac::ratio(self.value_numerator(i), self.scale)
    }

    /// The limit from the right at i/q.
    pub fn right(&self, i: u32) -> Frac
        requires { i < self.now.order }
        ensures { IsRatio result (at self.now.right i) (pos self.now.scale) }
    {
        Frac::ratio(self.right_numerator(i), self.scale)
    }

    /// The index modulo q. No division is needed below q.
    fn remainder(&self, i: u32) -> usize
        ensures value { result ≡ i % self.now.order }
        ensures below { result < self.now.order }
    {
        if i < self.order {
            i as usize
        } else {
            (i % self.order) as usize
        }
    }

    /// The limit from the left at i/q, times the common denominator; i is read modulo q.
    pub fn left_numerator(&self, i: u32) -> i64
        ensures value { result ≡ at self.now.left i }
        ensures small { IsNumerator result }
        ensures limits { IsWithinBounds self.now }
    {
        self.left[self.remainder(i)]
    }

    /// The value at i/q, times the common denominator; i is read modulo q.
    pub fn value_numerator(&self, i: u32) -> i64
        ensures value { result ≡ at self.now.value i }
        ensures small { IsNumerator result }
        ensures limits { IsWithinBounds self.now }
    {
        self.value[self.remainder(i)]
    }

    /// The limit from the right at i/q, times the common denominator; i is read modulo q.
    pub fn right_numerator(&self, i: u32) -> i64
        ensures value { result ≡ at self.now.right i }
        ensures small { IsNumerator result }
        ensures limits { IsWithinBounds self.now }
    {
        self.right[self.remainder(i)]
    }

    /// The limit from the left at i/q, times the common denominator; i is read modulo q.
    pub fn left_num(&self, i: u32) -> i128
        ensures { result ≡ at self.now.left i }
    {
        i128::from(self.left_numerator(i))
    }

    /// The value at i/q, times the common denominator; i is read modulo q.
    pub fn value_num(&self, i: u32) -> i128
        ensures { result ≡ at self.now.value i }
    {
        i128::from(self.value_numerator(i))
    }

    /// The limit from the right at i/q, times the common denominator; i is read modulo q.
    pub fn right_num(&self, i: u32) -> i128
        ensures { result ≡ at self.now.right i }
    {
        i128::from(self.right_numerator(i))
    }

    /// The limits from the left at 0, 1/q, .., (q - 1)/q, each times the common denominator.
    pub fn left_numerators(&self) -> &[i64]
        ensures value { result.now ≡ self.now.left }
        ensures small { All IsNumerator result.now }
        ensures limits { IsWithinBounds self.now }
    {
        self.left.as_slice()
    }

    /// The values at 0, 1/q, .., (q - 1)/q, each times the common denominator.
    pub fn value_numerators(&self) -> &[i64]
        ensures value { result.now ≡ self.now.value }
        ensures small { All IsNumerator result.now }
        ensures limits { IsWithinBounds self.now }
    {
        self.value.as_slice()
    }

    /// The limits from the right at 0, 1/q, .., (q - 1)/q, each times the common denominator.
    pub fn right_numerators(&self) -> &[i64]
        ensures value { result.now ≡ self.now.right }
        ensures small { All IsNumerator result.now }
        ensures limits { IsWithinBounds self.now }
    {
        self.right.as_slice()
    }

    /// The least i for which the limits and the value at i/q are not all equal, if there is one.
    pub fn first_jump(&self) -> Option<u32>
        ensures within { IfSome result (λ i. i < self.now.order) }
        ensures jump { IfSome result (IsJump self.now) }
        ensures first { IfSome result (λ i. (j : ℕ) → j < i → IsJump self.now j → ⊥) }
        ensures none { IfNone result (IsContinuous self.now) }
    {
        for i in 0..self.order {
            let at = i as usize;
            if self.left[at] != self.value[at] || self.value[at] != self.right[at] {
                return Some(i);
            }
        }
        None
    }

    /// Whether the limits are the value at each multiple of 1/q.
    pub fn is_continuous(&self) -> bool
        ensures { IsTrue result ↔ IsContinuous self.now }
    {
        self.left == self.value && self.right == self.value
    }

    /// Whether the other function has the same order, place, limits and values.
    pub fn same(&self, other: &Shape) -> bool
        ensures { IsTrue result ↔ (self.now ≡ other.now) }
    {
        self.order == other.order
            && self.place == other.place
            && self.scale == other.scale
            && self.left == other.left
            && self.value == other.value
            && self.right == other.right
    }

    /// A copy of the function.
    pub fn copy(&self, alloc: Global) -> Result<Shape, AllocError>
        ensures { IfOk result (λ copied. copied ≡ self.now) }
    {
        Ok(Shape {
            order: self.order,
            place: self.place,
            scale: self.scale,
            left: Vec::from_slice(alloc, self.left.as_slice())?,
            value: Vec::from_slice(alloc, self.value.as_slice())?,
            right: Vec::from_slice(alloc, self.right.as_slice())?,
        })
    }
}

/// Whether the order is from 2 to 1,000.
fn is_order(q: u32) -> bool
    ensures { IsTrue result ↔ IsOrder q }
{
    (2..=GREATEST_ORDER).contains(&q)
}

/// Whether the place is from 1 to the order less 1.
fn is_place(q: u32, k: u32) -> bool
    ensures { IsTrue result ↔ IsPlace q k }
{
    (1..q).contains(&k)
}
