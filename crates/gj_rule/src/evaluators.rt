//! Evaluators.
ghost use Rattle.std.specs.Prelude.{◌≡◌, ◌≢◌, ◌↔◌, IsTrue, ◌≤◌, ◌<◌, ◌^◌, ◌*ℤ◌, pos};
ghost use Rattle.std.specs.Prelude.{unsigned_abs, IfSome};
ghost use Rattle.gj_frac.specs.Fraction.{IsRatio, IsInside, denominator};
ghost use Rattle.gj_theory.specs.Cuts.{IsGmicValue, IsValueOf};
ghost use Rattle.gj_shape.specs.Limits.{IsRowNumber};

use gj_frac::Frac;
use gj_shape::{GREATEST_DENOMINATOR, GREATEST_NUMBER, Shape};

/// The mixed-integer cut for f at x: with r the fractional part of x it is r/f if r is at most f,
/// and else (1 - r)/(1 - f).
///
/// f is between 0 and 1, both excluded. Both denominators are at most 2^62; x may be of any size.
/// Over the product of both denominators r, f and 1 are whole numbers. The value is a quotient of
/// two of them or of two differences, so that one divisor is sought.
// A loop over the entries of a row calls it for each.
#[inline(always)]
pub fn gmic_value(f: Frac, x: Frac) -> Frac
    requires inside { IsInside f }
    requires f_fine { unsigned_abs (denominator f) ≤ 2 ^ 62 }
    requires x_fine { unsigned_abs (denominator x) ≤ 2 ^ 62 }
    ensures { IsGmicValue f x result }
{
    if let Some((top, bottom)) = small_gmic_parts(f, x) {
        // Named, so that the compiler keeps it out of memory.
        let value = Frac::of_small(top, bottom);
        return value;
    }
    gmic_value_in_128_bits(f, x)
}

/// The value as a quotient of two numbers of 64 bits, of which the second is not 0. None if a part
/// of f or the denominator of x needs more than 32 bits, or the numerator of x more than 64.
#[inline(always)]
fn small_gmic_parts(f: Frac, x: Frac) -> Option<(u64, u64)>
    requires inside { IsInside f }
    ensures some { IfSome result (λ r. 0 < r.1) }
    ensures value { IfSome result
        (λ r. (v : Frac) → IsRatio v (pos r.0) (pos r.1) → IsGmicValue f x v) }
{
    let f_num = u64::from(u32::try_from(f.num()).ok()?);
    let f_den = u64::from(u32::try_from(f.den()).ok()?);
    let num = i64::try_from(x.num()).ok()?;
    let den = u32::try_from(x.den()).ok()?;
    let part = num.rem_euclid(i64::from(den)) as u64 * f_den;
    let place = f_num * u64::from(den);
    if part <= place {
        return Some((part, place));
    }
    let one = u64::from(den) * f_den;
    Some((one - part, one - place))
}

/// The same in 128 bits, for denominators of at most 2^62.
#[inline(always)]
fn gmic_value_in_128_bits(f: Frac, x: Frac) -> Frac
    requires inside { IsInside f }
    requires f_fine { unsigned_abs (denominator f) ≤ 2 ^ 62 }
    requires x_fine { unsigned_abs (denominator x) ≤ 2 ^ 62 }
    ensures { IsGmicValue f x result }
{
    let rest = x.fract();
    let part = product(rest.num(), f.den());
    let place = product(f.num(), rest.den());
    if part <= place {
        // Both values are named, so that the compiler keeps them out of memory.
        let rising = Frac::reduced(part, place);
        return rising;
    }
    let one = product(rest.den(), f.den());
    let falling = Frac::reduced(one - part, one - place);
    falling
}

/// Whether x can stand in a row: its denominator is at most 2^31 - 1, and it is at most 2^31 in
/// absolute value.
pub fn is_in_range(x: Frac) -> bool
    ensures { IsTrue result ↔ IsRowNumber x }
{
    x.den() <= i128::from(GREATEST_DENOMINATOR)
        && x.num().unsigned_abs() <= x.den().unsigned_abs().saturating_mul(GREATEST_NUMBER)
}

/// The value of the function at x, a fraction that can stand in a row.
#[inline(always)]
pub fn table_value(shape: &Shape, x: Frac) -> Frac
    requires { IsRowNumber x }
    ensures { IsValueOf shape.now x result }
{
    shape.value_at(x)
}

/// The quotient of n/d by m/e, whose parts are at most 2^62 in absolute value; d and m are not 0.
pub fn quotient(n: i128, d: i128, m: i128, e: i128) -> Frac
    requires d_some { unsigned_abs d ≢ 0 }
    requires m_some { unsigned_abs m ≢ 0 }
    requires n_small { unsigned_abs n ≤ 2 ^ 62 }
    requires d_small { unsigned_abs d ≤ 2 ^ 62 }
    requires m_small { unsigned_abs m ≤ 2 ^ 62 }
    requires e_small { unsigned_abs e ≤ 2 ^ 62 }
    ensures { IsRatio result (n *ℤ e) (d *ℤ m) }
{
    Frac::reduced(product(n, e), product(d, m))
}

/// The product of two whole numbers of at most 2^62 in absolute value.
fn product(n: i128, m: i128) -> i128
    requires n_small { unsigned_abs n ≤ 2 ^ 62 }
    requires m_small { unsigned_abs m ≤ 2 ^ 62 }
    ensures value { result ≡ n *ℤ m }
    ensures fits { unsigned_abs result ≤ 2 ^ 124 }
{
    i128::from(n as i64) * i128::from(m as i64)
}
