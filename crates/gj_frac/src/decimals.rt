//! The fractions that decimals write.
ghost use Rattle.std.specs.Prelude.{◌≡◌, ◌⊎◌, ◌≤◌, ◌<◌, ◌%◌, ◌*◌, ◌^◌, pos, unsigned_abs};
ghost use Rattle.gj_frac.specs.Fraction.{IsRatio, with_sign};

use crate::Frac;

/// The powers of ten below 2^127, from 10^0 to 10^38.
const POWERS_OF_TEN: [u128; 39] = [
    1,
    10,
    100,
    1_000,
    10_000,
    100_000,
    1_000_000,
    10_000_000,
    100_000_000,
    1_000_000_000,
    10_000_000_000,
    100_000_000_000,
    1_000_000_000_000,
    10_000_000_000_000,
    100_000_000_000_000,
    1_000_000_000_000_000,
    10_000_000_000_000_000,
    100_000_000_000_000_000,
    1_000_000_000_000_000_000,
    10_000_000_000_000_000_000,
    100_000_000_000_000_000_000,
    1_000_000_000_000_000_000_000,
    10_000_000_000_000_000_000_000,
    100_000_000_000_000_000_000_000,
    1_000_000_000_000_000_000_000_000,
    10_000_000_000_000_000_000_000_000,
    100_000_000_000_000_000_000_000_000,
    1_000_000_000_000_000_000_000_000_000,
    10_000_000_000_000_000_000_000_000_000,
    100_000_000_000_000_000_000_000_000_000,
    1_000_000_000_000_000_000_000_000_000_000,
    10_000_000_000_000_000_000_000_000_000_000,
    100_000_000_000_000_000_000_000_000_000_000,
    1_000_000_000_000_000_000_000_000_000_000_000,
    10_000_000_000_000_000_000_000_000_000_000_000,
    100_000_000_000_000_000_000_000_000_000_000_000,
    1_000_000_000_000_000_000_000_000_000_000_000_000,
    10_000_000_000_000_000_000_000_000_000_000_000_000,
    100_000_000_000_000_000_000_000_000_000_000_000_000,
];

/// So many places take no more than 64 bits: 10^19 is below 2^64.
const SHORT: usize = 19;

impl Frac {
    /// The fraction `num / 10^places`, in lowest terms: what a decimal with so many places writes.
    ///
    /// No divisor is sought if `num` is below 2^63 in absolute value and there are at most 19
    /// places: a power of 10 has no prime factors but 2 and 5.
    #[inline(always)]
    pub fn decimal(num: i128, places: usize) -> Frac
        requires places { places ≤ 38 }
        requires num_fits { unsigned_abs num < 2 ^ 127 }
        ensures { IsRatio result num (pos (10 ^ places)) }
    {
        let size = num.unsigned_abs();
        if size >= 1 << 63 || places > SHORT {
            return Frac::reduced(num, power_of_ten(places) as i128);
        }
        Frac::short_decimal(num < 0, size as u64, places)
    }

    /// The fraction `size / 10^places` in lowest terms, with this sign, of a number below 2^63 and
    /// at most 19 places.
    #[inline(always)]
    pub fn short_decimal(is_negative: bool, size: u64, places: usize) -> Frac
        requires size { size < 2 ^ 63 }
        requires places { places ≤ 19 }
        ensures { IsRatio result (with_sign is_negative size) (pos (10 ^ places)) }
    {
        if size == 0 {
            return Frac { num: 0, den: 1 };
        }
        let twos = (size.trailing_zeros() as usize).min(places);
        without_fives(is_negative, size >> twos, places, places - twos)
    }
}

/// The fraction `top / (5^fives 2^twos)` with this sign, if `twos` is 0 or `top` is odd: then only
/// factors of 5 can be taken out.
fn without_fives(is_negative: bool, top: u64, fives: usize, twos: usize) -> Frac
    requires fits { top < 2 ^ 63 }
    requires fives { fives ≤ 19 }
    requires twos { twos ≤ 19 }
    requires odd { (twos ≡ 0) ⊎ (top % 2 ≡ 1) }
    ensures { IsRatio result (with_sign is_negative top) (pos (5 ^ fives * 2 ^ twos)) }
{
    let mut rest = top;
    let mut left = fives;
    while left > 0 && rest % 5 == 0 {
        rest /= 5;
        left -= 1;
    }
    let power_of_five = power_of_ten(left) as u64 >> left;
    Frac {
        num: i128::from(signed(is_negative, rest)),
        den: i128::from(power_of_five << twos),
    }
}

/// The number with this sign.
#[inline(always)]
fn signed(is_negative: bool, size: u64) -> i64
    requires { size < 2 ^ 63 }
    ensures { result ≡ with_sign is_negative size }
{
    let size = size as i64;
    if is_negative { -size } else { size }
}

/// 10 to the exponent.
fn power_of_ten(exponent: usize) -> u128
    requires { exponent ≤ 38 }
    ensures { result ≡ 10 ^ exponent }
{
    POWERS_OF_TEN[exponent]
}
