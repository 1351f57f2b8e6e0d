//! The rule `limit`: the numbers of a row are small and have a small common denominator.
ghost use Rattle.std.specs.Prelude.{◌≡◌, ◌<◌, ◌^◌, ◌↔◌, IsTrue, IfSome, IfNone, unsigned_abs};
ghost use Rattle.gj_frac.specs.Fraction.{denominator};
ghost use Rattle.gj_shape.specs.Limits.{IsRowNumber};
ghost use Rattle.gj_check.specs.RowLimits.{ExtendsRowDenominator, IsBeyond};

use gj_frac::{Frac, lcm};
use gj_shape::{GREATEST_DENOMINATOR, GREATEST_NUMBER};

/// The least common denominator of the numbers of a row so far, `common`, with one more number;
/// none if with it they are beyond the limits.
pub(crate) fn extended(common: u64, x: Frac) -> Option<u64>
    requires some { 0 < common }
    requires high { common < 2 ^ 31 }
    ensures within { IfSome result (ExtendsRowDenominator common x) }
    ensures beyond { IfNone result (IsBeyond common x) }
{
    if !is_within_limits(x) {
        return None;
    }
    let multiple = lcm(common as u32, denominator_of(x) as u32);
    if multiple > u64::from(GREATEST_DENOMINATOR) {
        return None;
    }
    Some(multiple)
}

/// Whether the number is at most 2^31 in absolute value, and its denominator at most 2^31 - 1.
fn is_within_limits(x: Frac) -> bool
    ensures { IsTrue result ↔ IsRowNumber x }
{
    if x.den() > i128::from(GREATEST_DENOMINATOR) {
        return false;
    }
    x.num().unsigned_abs() <= x.den().unsigned_abs() * GREATEST_NUMBER
}

/// The denominator of a number, from 1 to 2^31 - 1.
pub(crate) fn denominator_of(x: Frac) -> u64
    requires { IsRowNumber x }
    ensures value { result ≡ unsigned_abs (denominator x) }
    ensures high { result < 2 ^ 31 }
{
    x.den() as u64
}
