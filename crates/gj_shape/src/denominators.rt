//! The least common denominator of the values and limits of a function.
ghost use Rattle.std.specs.Prelude.{◌≡◌, ◌<◌, ◌≤◌, ◌↔◌, ◌++◌, List, length, SomeIff, IfOk, IfErr};
ghost use Rattle.std.specs.Prelude.{IsTrue, unsigned_abs};
ghost use Rattle.gj_frac.specs.declared.Frac.{Frac};
ghost use Rattle.gj_frac.specs.Fraction.{denominator, HasDenominatorBelow};
ghost use Rattle.gj_shape.specs.Limits.{greatest_order, greatest_value, denominator_bound};
ghost use Rattle.gj_shape.specs.Given.{in_order, IsSmall};
ghost use Rattle.gj_shape.specs.Denominators.{Extends, ExtendsBy, AreWithinBoundsOver};
ghost use Rattle.gj_shape.specs.Denominators.{IsFractionRefused, IsRefusedBehind, IsFaultIn};
ghost use Rattle.gj_shape.specs.Denominators.{fault_at};
ghost use Rattle.gj_shape.specs.Points.{fractions_of};

use crate::faults::{FractionFault, ShapeFault};
use crate::limits::{GREATEST_DENOMINATOR, GREATEST_VALUE};
use crate::points::Point;
use gj_frac::{Frac, lcm};

/// Whether the fraction is at most 2^20 in absolute value.
fn is_small(x: Frac) -> bool
    ensures { IsTrue result ↔ IsSmall x }
{
    x.num().unsigned_abs() <= x.den().unsigned_abs().saturating_mul(GREATEST_VALUE)
}

/// The denominator of the fraction, if it is at most 2^31 - 1.
pub fn small_denominator(x: Frac) -> Option<u32>
    ensures { SomeIff result (HasDenominatorBelow denominator_bound x)
        (unsigned_abs (denominator x)) }
{
    if x.den() > i128::from(GREATEST_DENOMINATOR) {
        return None;
    }
    Some(x.den() as u32)
}

/// The least common denominator of the fractions so far, `scale`, with one more fraction.
fn extended(scale: u32, x: Frac) -> Result<u32, FractionFault>
    requires low { 0 < scale }
    ensures least { IfOk result (Extends greatest_value scale x) }
    ensures fault { IfErr result (IsFractionRefused scale x) }
{
    if !is_small(x) {
        return Err(FractionFault::Large);
    }
    let Some(den) = small_denominator(x) else {
        return Err(FractionFault::Fine);
    };
    let multiple = lcm(scale, den);
    if multiple > u64::from(GREATEST_DENOMINATOR) {
        return Err(FractionFault::Fine);
    }
    Ok(multiple as u32)
}

/// The least common denominator of the fractions so far, `scale`, with those of one more point.
///
/// The error is that of its first fraction, of the limit from the left, the value and the limit
/// from the right, that is too large or leaves no common denominator up to 2^31 - 1.
pub(crate) fn with_point(scale: u32, point: Point) -> Result<u32, FractionFault>
    requires { 0 < scale }
    ensures least { IfOk result (ExtendsBy scale (fractions_of point)) }
    ensures fault { IfErr result (IsRefusedBehind scale (fractions_of point)) }
{
    if goes_with(scale, point.left)
        && goes_with(scale, point.value)
        && goes_with(scale, point.right)
    {
        return Ok(scale);
    }
    with_point_by_parts(scale, point)
}

/// Whether the numerator is at most 2^20 in absolute value and the denominator divides `scale`, as
/// those of most fractions of a function.
pub(crate) fn goes_with(scale: u32, x: Frac) -> bool
    requires { 0 < scale }
    ensures { IsTrue result → Extends greatest_value scale x scale }
{
    if x.num().unsigned_abs() > GREATEST_VALUE {
        return false;
    }
    if scale > GREATEST_DENOMINATOR {
        return false;
    }
    if x.den() > i128::from(scale) {
        return false;
    }
    scale % (x.den() as u32) == 0
}

/// The same as `with_point`, one fraction after another.
#[inline(never)]
fn with_point_by_parts(scale: u32, point: Point) -> Result<u32, FractionFault>
    requires { 0 < scale }
    ensures least { IfOk result (ExtendsBy scale (fractions_of point)) }
    ensures fault { IfErr result (IsRefusedBehind scale (fractions_of point)) }
{
    let with_left = extended(scale, point.left)?;
    let with_value = extended(with_left, point.value)?;
    extended(with_value, point.right)
}

/// The least common denominator of all fractions of three lists of one length.
///
/// The error is the first fraction that is too large or leaves no common denominator up to 2^31 -
/// 1.
pub(crate) fn common_denominator(
    left: &[Frac],
    value: &[Frac],
    right: &[Frac],
) -> Result<u32, ShapeFault>
    requires few { length left.now ≤ greatest_order }
    requires value_length { length value.now ≡ length left.now }
    requires right_length { length right.now ≡ length left.now }
    ensures least { IfOk result (AreWithinBoundsOver (in_order left.now value.now right.now)) }
    ensures fault { IfErr result (IsFaultIn left.now value.now right.now) }
{
    let mut scale = 1;
    for i in 0..left.len() {
        let point = Point {
            left: left[i],
            value: value[i],
            right: right[i],
        };
        match with_point(scale, point) {
            Ok(multiple) => scale = multiple,
            Err(fault) => return Err(fault.at(i as u32)),
        }
    }
    Ok(scale)
}
