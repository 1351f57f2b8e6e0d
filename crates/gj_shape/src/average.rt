//! Half the sum of two functions.
ghost use Rattle.std.specs.Prelude.{◌≡◌, ◌<◌, ◌*◌, ◌*ℤ◌, ◌+ℤ◌, pos, length, IfOk, IfErr};
ghost use Rattle.gj_shape.specs.Limits.{denominator_bound};
ghost use Rattle.gj_shape.specs.FunctionData.{at};
ghost use Rattle.gj_shape.specs.Given.{AreOver, IsTooFineOf};
ghost use Rattle.gj_shape.specs.Average.{AreHalfSums, IsAverageOf};

use crate::faults::ShapeFault;
use crate::shape::Shape;
use crate::values::weighted;
use gj_frac::Frac;
use std::alloc::{AllocError, Global};

impl Shape {
    /// In each list half the sum of this function and the other, which has the same order and
    /// place.
    ///
    /// The error is `TooFine` at the first index at which these have no common denominator up to
    /// 2^31 - 1.
    pub fn average(&self, alloc: Global, other: &Shape) -> Result<Shape, ShapeFault>
        requires order { self.now.order ≡ other.now.order }
        requires place { self.now.place ≡ other.now.place }
        ensures average { IfOk result (IsAverageOf self.now other.now) }
        ensures fault { IfErr result (IsTooFineOf (AreHalfSums self.now other.now)) }
    {
        let scale = self.common_denominator() as u64;
        let other_scale = other.common_denominator() as u64;
        let left = half_sums(
            alloc,
            self.left_numerators(),
            scale,
            other.left_numerators(),
            other_scale,
        )?;
        let value = half_sums(
            alloc,
            self.value_numerators(),
            scale,
            other.value_numerators(),
            other_scale,
        )?;
        let right = half_sums(
            alloc,
            self.right_numerators(),
            scale,
            other.right_numerators(),
            other_scale,
        )?;
        Shape::new(
            alloc,
            self.order(),
            self.place(),
            left.as_slice(),
            value.as_slice(),
            right.as_slice(),
        )
    }
}

/// Half the sums of the entries of two lists over two scales.
fn half_sums(
    alloc: Global,
    entries: &[i64],
    scale: u64,
    other_entries: &[i64],
    other_scale: u64,
) -> Result<Vec<Frac>, AllocError>
    requires length { length other_entries.now ≡ length entries.now }
    requires low { 0 < scale }
    requires high { scale < denominator_bound }
    requires other_low { 0 < other_scale }
    requires other_high { other_scale < denominator_bound }
    ensures length { IfOk result (λ v. length v.items ≡ length entries.now) }
    ensures fractions { IfOk result (λ v. AreOver
        (λ i. pos other_scale *ℤ at entries.now i +ℤ pos scale *ℤ at other_entries.now i)
        (2 * (scale * other_scale)) v.items) }
{
    let denominator = 2 * i128::from(scale) * i128::from(other_scale);
    let mut items = Vec::with_capacity(alloc, entries.len())?;
    for i in 0..entries.len() {
        let numerator = weighted(other_scale, entries[i]) + weighted(scale, other_entries[i]);
        items.push(Frac::reduced(numerator, denominator))?;
    }
    Ok(items)
}
