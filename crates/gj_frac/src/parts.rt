//! Steps on the parts of a fraction, each with a contract of its own.
ghost use Rattle.std.specs.Prelude.{◌≡◌, ◌≢◌, ℕ, ◌/◌, ◌<◌, ◌^◌, ◌*ℤ◌, ◌+ℤ◌, ◌-ℤ◌, ◌<ℤ◌, ◌≤ℤ◌, pos};
ghost use Rattle.std.specs.Prelude.{unsigned_abs};
ghost use Rattle.std.specs.Int.{IsGcd, ◌∣◌, int_div_euclid, int_rem_euclid};

use crate::divisors::gcd;

/// The greatest common divisor of the absolute values of two whole numbers, the second not 0.
pub(crate) fn common_divisor(n: i128, d: i128) -> i128
    requires zero { unsigned_abs d ≢ 0 }
    requires fits { unsigned_abs d < 2 ^ 127 }
    ensures positive { pos 0 <ℤ result }
    ensures greatest { IsGcd (unsigned_abs n) (unsigned_abs d) (unsigned_abs result) }
{
    gcd(n.unsigned_abs(), d.unsigned_abs()) as i128
}

/// A whole number divided by one of its divisors.
pub(crate) fn quotient(n: i128, divisor: i128) -> i128
    requires positive { pos 0 <ℤ divisor }
    requires divides { unsigned_abs divisor ∣ unsigned_abs n }
    ensures { result *ℤ divisor ≡ n }
{
    if divisor == 1 {
        return n;
    }
    match (i64::try_from(n), i64::try_from(divisor)) {
        (Ok(n), Ok(divisor)) => i128::from(n / divisor),
        _ => n / divisor,
    }
}

/// A whole number below 2^64 divided by another, rounded down.
pub(crate) fn small_quotient(n: u64, divisor: u64) -> u64
    requires { 0 < divisor }
    ensures { result ≡ n / divisor }
{
    if divisor == 1 {
        return n;
    }
    n / divisor
}

/// A whole number divided by a positive one, rounded down.
pub(crate) fn floor_quotient(n: i128, d: i128) -> i128
    requires { pos 0 <ℤ d }
    ensures { result ≡ int_div_euclid n d }
{
    match (i64::try_from(n), i64::try_from(d)) {
        (Ok(n), Ok(d)) => i128::from(n.div_euclid(d)),
        _ => n.div_euclid(d),
    }
}

/// What that quotient leaves of the number, from 0 up to but not including the divisor.
pub(crate) fn floor_rest(n: i128, d: i128) -> i128
    requires { pos 0 <ℤ d }
    ensures value { result ≡ int_rem_euclid n d }
    ensures not_negative { pos 0 ≤ℤ result }
    ensures below { result <ℤ d }
{
    match (i64::try_from(n), i64::try_from(d)) {
        (Ok(n), Ok(d)) => i128::from(n.rem_euclid(d)),
        _ => n.rem_euclid(d),
    }
}

/// Two positive numbers, each divided by their greatest common divisor.
pub(crate) fn coprime_quotients(n: i128, d: i128) -> (i128, i128)
    requires n_positive { pos 0 <ℤ n }
    requires d_positive { pos 0 <ℤ d }
    ensures first { (g : ℕ) → IsGcd (unsigned_abs n) (unsigned_abs d) g →
        result.0 ≡ pos (unsigned_abs n / g) }
    ensures second { (g : ℕ) → IsGcd (unsigned_abs n) (unsigned_abs d) g →
        result.1 ≡ pos (unsigned_abs d / g) }
{
    let divisor = common_divisor(n, d);
    (quotient(n, divisor), quotient(d, divisor))
}

/// The product of two whole numbers, which fits.
pub(crate) fn product(n: i128, m: i128) -> i128
    requires { unsigned_abs (n *ℤ m) < 2 ^ 127 }
    ensures { result ≡ n *ℤ m }
{
    n * m
}

/// The sum of two whole numbers, which fits.
pub(crate) fn total(n: i128, m: i128) -> i128
    requires { unsigned_abs (n +ℤ m) < 2 ^ 127 }
    ensures { result ≡ n +ℤ m }
{
    n + m
}

/// The difference of two whole numbers, which fits.
pub(crate) fn difference(n: i128, m: i128) -> i128
    requires { unsigned_abs (n -ℤ m) < 2 ^ 127 }
    ensures { result ≡ n -ℤ m }
{
    n - m
}
