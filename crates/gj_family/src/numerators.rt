//! Functions by whole numbers over one denominator.
ghost use Rattle.std.specs.Prelude.{◌≡◌, ◌<◌, ◌^◌, All, IfOk, length};
ghost use Rattle.gj_shape.specs.FunctionData.{IsSmallOver, at};
ghost use Rattle.gj_shape.specs.Given.{AreOver, IsOrder, IsPlace};
ghost use Rattle.gj_family.specs.Numerators.{IsOver};

use gj_frac::Frac;
use gj_shape::Shape;
use std::alloc::{AllocError, Global};

/// The whole numbers over the denominator.
fn fractions(alloc: Global, numerators: &[i64], denominator: u32) -> Result<Vec<Frac>, AllocError>
    requires { 0 < denominator }
    ensures length { IfOk result (λ v. length v.items ≡ length numerators.now) }
    ensures fractions { IfOk result (λ v. AreOver (at numerators.now) denominator v.items) }
{
    let mut items = Vec::with_capacity(alloc, numerators.len())?;
    for numerator in numerators {
        items.push(Frac::ratio(*numerator, denominator))?;
    }
    Ok(items)
}

/// The function with f at this place whose values, and whose limits from both sides, are these
/// whole numbers over the denominator. Its order is their number.
pub(crate) fn shape_over(
    alloc: Global,
    place: u32,
    denominator: u32,
    limits: &[i64],
    values: &[i64],
) -> Result<Shape, AllocError>
    requires order { IsOrder (length values.now) }
    requires place_fits { IsPlace (length values.now) place }
    requires lengths { length limits.now ≡ length values.now }
    requires low { 0 < denominator }
    requires high { denominator < 2 ^ 31 }
    requires limits_small { All (IsSmallOver denominator) limits.now }
    requires values_small { All (IsSmallOver denominator) values.now }
    ensures { IfOk result (IsOver place denominator limits.now values.now) }
{
    let sides = fractions(alloc, limits, denominator)?;
    let middle = fractions(alloc, values, denominator)?;
    match Shape::new(
        alloc,
        values.len() as u32,
        place,
        sides.as_slice(),
        middle.as_slice(),
        sides.as_slice(),
    ) {
        Ok(shape) => Ok(shape),
        Err(fault) => Err(fault.want_of_memory()),
    }
}
