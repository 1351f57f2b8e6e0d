//! The same function on a finer grid.
ghost use Rattle.std.specs.Prelude.{◌≡◌, ◌≢◌, ◌<◌, ◌≤◌, ◌*◌, ◌⊎◌, ◌↔◌, length, IfOk, IfErr};
ghost use Rattle.gj_shape.specs.Limits.{greatest_order};
ghost use Rattle.gj_shape.specs.Given.{AreOver, IsTooFineOf};
ghost use Rattle.gj_shape.specs.Refinement.{refined, AreRefined, IsRefinement};

use crate::faults::ShapeFault;
use crate::limits::GREATEST_ORDER;
use crate::shape::Shape;
use gj_frac::Frac;
use std::alloc::{AllocError, Global};

impl Shape {
    /// The same function at order q `times`, for the order q.
    ///
    /// The error is `Order` exactly if `times` is 0 or the new order is above 1,000. It is
    /// `TooFine` at the first index at which the new limits and values have no common denominator
    /// up to 2^31 - 1.
    pub fn refine(&self, alloc: Global, times: u32) -> Result<Shape, ShapeFault>
        ensures refined { IfOk result (IsRefinement self.now times) }
        ensures order { (result ≡ Err ShapeFault.Order) ↔ ((times ≡ 0) ⊎
            (greatest_order < self.now.order * times)) }
        ensures fault { IfErr result (λ e. e ≢ ShapeFault.Order →
            IsTooFineOf (AreRefined self.now times) e) }
    {
        if times == 0 || times > GREATEST_ORDER / self.order() {
            return Err(ShapeFault::Order);
        }
        let left = self.refined_list(alloc, self.left_numerators(), times)?;
        let value = self.refined_list(alloc, self.value_numerators(), times)?;
        let right = self.refined_list(alloc, self.right_numerators(), times)?;
        Shape::new(
            alloc,
            self.order() * times,
            self.place() * times,
            left.as_slice(),
            value.as_slice(),
            right.as_slice(),
        )
    }

    /// The fractions that the entries of a list become on the grid of order `times` times the
    /// function's.
    fn refined_list(
        &self,
        alloc: Global,
        entries: &[i64],
        times: u32,
    ) -> Result<Vec<Frac>, AllocError>
        requires length { length entries.now ≡ self.now.order }
        requires some { 0 < times }
        requires few { self.now.order * times ≤ greatest_order }
        ensures length { IfOk result (λ v. length v.items ≡ self.now.order * times) }
        ensures fractions { IfOk result (λ v.
            AreOver (refined self.now entries.now times) (self.now.scale * times) v.items) }
    {
        let count = self.order() * times;
        let scale = self.common_denominator() * i128::from(times);
        let mut items = Vec::with_capacity(alloc, count as usize)?;
        for i in 0..count {
            let index = (i / times) as usize;
            let numerator = self.entry_or_value(
                entries,
                index,
                u64::from(i % times),
                u64::from(times),
            );
            items.push(Frac::reduced(numerator, scale))?;
        }
        Ok(items)
    }
}
