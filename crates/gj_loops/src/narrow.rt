//! Products of at most 2^127 - 1 in absolute value, and quotients: of narrow numbers by steps of 64
//! bits.
ghost use Rattle.std.specs.Prelude.{pos, ◌*ℤ◌, ◌<ℤ◌, ◌≡◌, ◌<◌, ◌↔◌, ◌^◌, IsTrue, int_div};
ghost use Rattle.std.specs.Prelude.{unsigned_abs};
ghost use Rattle.std.specs.Result.{OkIff};
ghost use Rattle.gj_frac.specs.Fraction.{Fits};

use gj_frac::{Wide, checked_product};

/// The least number that is not narrow.
const NARROW_END: i128 = 1 << 63;

/// Whether a number is narrow: below 2^63 in absolute value.
fn is_narrow(n: i128) -> bool
    ensures { IsTrue result ↔ (unsigned_abs n < 2 ^ 63) }
{
    if n >= NARROW_END {
        return false;
    }
    n > -NARROW_END
}

/// The product of two narrow numbers, by one multiplication of 64 bits.
fn narrow_product(n: i64, m: i64) -> i128
    requires first { unsigned_abs n < 2 ^ 63 }
    requires second { unsigned_abs m < 2 ^ 63 }
    ensures value { result ≡ n *ℤ m }
    ensures fits { Fits (n *ℤ m) }
{
    i128::from(n) * i128::from(m)
}

/// The product of two numbers. `Wide` exactly if it passes 2^127 - 1 in absolute value.
pub fn product(n: i128, m: i128) -> Result<i128, Wide>
    ensures { OkIff result (Fits (n *ℤ m)) (n *ℤ m) }
{
    if m == 0 {
        return Ok(0);
    }
    if is_narrow(n) && is_narrow(m) {
        return Ok(narrow_product(n as i64, m as i64));
    }
    checked_product(n, m)
}

/// The quotient of a number by a positive one, rounded to 0: of narrow numbers, by one division of
/// 64 bits.
pub(crate) fn quotient(n: i128, divisor: i128) -> i128
    requires { pos 0 <ℤ divisor }
    ensures { result ≡ int_div n divisor }
{
    if is_narrow(n) && is_narrow(divisor) {
        return i128::from(n as i64 / divisor as i64);
    }
    n / divisor
}
