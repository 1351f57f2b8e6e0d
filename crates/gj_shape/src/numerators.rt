//! Fractions as whole numbers over a common denominator.
ghost use Rattle.std.specs.Prelude.{◌≡◌, ◌<◌, ◌≤◌, map, All, IfOk, unsigned_abs};
ghost use Rattle.std.specs.Int.{◌∣◌};
ghost use Rattle.gj_frac.specs.Fraction.{denominator};
ghost use Rattle.gj_shape.specs.Limits.{denominator_bound};
ghost use Rattle.gj_shape.specs.Given.{IsSmall, IsCommonDenominator, numerator_over as over_scale};

use gj_frac::Frac;
use std::alloc::{AllocError, Global};

/// The numerator of a fraction over a multiple of its denominator.
pub(crate) fn numerator_over(x: Frac, scale: u32) -> i64
    requires small { IsSmall x }
    requires low { 1 ≤ scale }
    requires high { scale < denominator_bound }
    requires multiple { unsigned_abs (denominator x) ∣ scale }
    ensures { result ≡ over_scale scale x }
{
    let factor = scale / x.den().unsigned_abs() as u32;
    x.num() as i64 * i64::from(factor)
}

/// The numerators of fractions over a common denominator.
pub(crate) fn numerators(alloc: Global, xs: &[Frac], scale: u32) -> Result<Vec<i64>, AllocError>
    requires small { All IsSmall xs.now }
    requires low { 1 ≤ scale }
    requires high { scale < denominator_bound }
    requires common { IsCommonDenominator xs.now scale }
    ensures { IfOk result (λ v. v.items ≡ map (over_scale scale) xs.now) }
{
    let mut items = Vec::with_capacity(alloc, xs.len())?;
    for x in xs {
        items.push_reserved(numerator_over(*x, scale));
    }
    Ok(items)
}
