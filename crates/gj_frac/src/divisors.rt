//! The greatest common divisor and the least common multiple.
ghost use Rattle.std.specs.Prelude.{◌<◌, ◌≡◌, ◌%◌, ◌^◌};
ghost use Rattle.std.specs.Int.{IsGcd};
ghost use Rattle.gj_lemmas.specs.Divisors.{IsLcm};

/// The greatest common divisor of two whole numbers; that of 0 and 0 is 0.
///
/// Remainders bring the numbers below 2^64. From there on all is done in 64 bits, which is much
/// faster.
pub fn gcd(a: u128, b: u128) -> u128
    ensures { IsGcd a b result }
{
    let mut x = a;
    let mut y = b;
    while y >= 1 << 64 {
        let rest = x % y;
        x = y;
        y = rest;
    }
    if x < 1 << 64 {
        return u128::from(gcd_in_64_bits(x as u64, y as u64));
    }
    if y == 0 {
        return x;
    }
    let rest = x % y;
    u128::from(gcd_in_64_bits(y as u64, rest as u64))
}

/// The greatest common divisor of two whole numbers below 2^64; that of 0 and 0 is 0.
///
/// Numbers of different sizes are brought together by a remainder. Then it divides no more.
pub(crate) fn gcd_in_64_bits(a: u64, b: u64) -> u64
    ensures { IsGcd a b result }
{
    let greater = a.max(b);
    let lesser = a.min(b);
    if lesser == 0 {
        return greater;
    }
    if lesser == 1 {
        return 1;
    }
    let rest = greater % lesser;
    if rest == 0 {
        return lesser;
    }
    gcd_of_positive(lesser, rest)
}

/// The greatest common divisor of two positive numbers: the lesser of their powers of 2, times that
/// of their odd parts.
fn gcd_of_positive(a: u64, b: u64) -> u64
    requires first { 0 < a }
    requires second { 0 < b }
    ensures { IsGcd a b result }
{
    let a_zeros = a.trailing_zeros();
    let b_zeros = b.trailing_zeros();
    gcd_of_odd(a >> a_zeros, b >> b_zeros) << a_zeros.min(b_zeros)
}

/// The greatest common divisor of two odd numbers, by the binary algorithm: the odd part of their
/// difference stands for the greater of them.
///
/// The difference that wraps has as many trailing zeros as the absolute value of the difference, so
/// a processor can count them before that is known. The second number stands first, which saves the
/// compiler a negation.
fn gcd_of_odd(a: u64, b: u64) -> u64
    requires odd { a % 2 ≡ 1 }
    requires other_odd { b % 2 ≡ 1 }
    ensures { IsGcd a b result }
{
    let mut first = a;
    let mut second = b;
    while first != second {
        let zeros = second.wrapping_sub(first).trailing_zeros();
        let size = first.abs_diff(second);
        second = second.min(first);
        first = size >> zeros;
    }
    first
}

/// The least common multiple of two whole numbers, the first not 0; that of a number and 0 is 0.
pub fn lcm(a: u32, b: u32) -> u64
    requires { 0 < a }
    ensures { IsLcm a b result }
{
    if b != 0 && a % b == 0 {
        return u64::from(a);
    }
    lcm_by_gcd(a, b)
}

/// The same, by the greatest common divisor.
#[inline(never)]
fn lcm_by_gcd(a: u32, b: u32) -> u64
    requires { 0 < a }
    ensures { IsLcm a b result }
{
    let divisor = gcd_in_64_bits(u64::from(a), u64::from(b)) as u32;
    u64::from(a / divisor) * u64::from(b)
}
