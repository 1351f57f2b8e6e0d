//! The limits of the numbers in a row.
ghost use Rattle.std.specs.Prelude.{◌≡◌, ◌<◌, ◌≤◌, ◌*◌, ◌↔◌, Some, IfOk, IfErr, IsTrue};
ghost use Rattle.gj_shape.specs.Limits.{denominator_bound, greatest_number, IsSmallNumber};
ghost use Rattle.gj_shape.specs.Denominators.{Extends};
ghost use Rattle.gj_row.specs.Reading.{StopsAt};

use crate::faults::RowReason;
use gj_frac::{Frac, lcm};
use gj_shape::{GREATEST_DENOMINATOR, GREATEST_NUMBER, small_denominator};

/// The number that was read, behind numbers with the least common denominator `scale`, and the
/// least common denominator with it.
///
/// The reason is `Number` if none was read, `Large` if it is above 2^31 in absolute value, and
/// `Fine` if the common denominator passes 2^31 - 1.
// Each number of a row passes it.
#[inline(always)]
pub(crate) fn within(scale: u32, number: Option<Frac>) -> Result<(Frac, u32), RowReason>
    requires low { 0 < scale }
    requires high { scale < denominator_bound }
    ensures read { IfOk result (λ r. number ≡ Some r.0) }
    ensures least { IfOk result (λ r. Extends greatest_number scale r.0 r.1) }
    ensures refused { IfErr result (StopsAt scale number) }
{
    let Some(x) = number else {
        return Err(RowReason::Number);
    };
    if !is_small(x) {
        return Err(RowReason::Large);
    }
    let Some(den) = small_denominator(x) else {
        return Err(RowReason::Fine);
    };
    if scale % den == 0 {
        return Ok((x, scale));
    }
    let multiple = lcm(scale, den);
    if multiple > u64::from(GREATEST_DENOMINATOR) {
        return Err(RowReason::Fine);
    }
    Ok((x, multiple as u32))
}

/// Whether the number is at most 2^31 in absolute value.
fn is_small(x: Frac) -> bool
    ensures { IsTrue result ↔ IsSmallNumber x }
{
    match i64::try_from(x.num()) {
        Ok(num) if u128::from(num.unsigned_abs()) <= GREATEST_NUMBER => true,
        _ => is_small_quotient(x.num().unsigned_abs(), x.den().unsigned_abs()),
    }
}

/// Whether n/d is at most 2^31.
// Few numbers come here. They come as two, since of a fraction the loop would keep a copy.
#[inline(never)]
fn is_small_quotient(n: u128, d: u128) -> bool
    ensures { IsTrue result ↔ (n ≤ greatest_number * d) }
{
    n <= d.saturating_mul(GREATEST_NUMBER)
}
