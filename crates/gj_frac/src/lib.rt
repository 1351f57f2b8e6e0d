//! Exact fractions of 128 bits.
//!
//! A `Frac` is a whole number over a positive one, in lowest terms, each at most 2^127 - 1 in
//! absolute value. So `==` and the hash go by value. Nothing wraps and nothing is rounded: `+`,
//! `-`, `*` and `/` are exact, each under a condition that its result fits, which the caller
//! proves; `checked_add` and the like test that condition instead. The order is that of the values,
//! without a condition.
//!
//! `ExactNumber` has the laws that generic code may rely on: the order and the grouping of sums and
//! products do not matter if they can be formed. `gcd` and `lcm` are the greatest common divisor
//! and the least common multiple that all crates use.
#![tactic(auto)]

ghost use Rattle.std.specs.Prelude.{◌≡◌, ◌≢◌, ◌⊎◌, ◌↔◌, pos, ◌^◌, ◌<◌, unsigned_abs, IsNone};
ghost use Rattle.std.specs.Prelude.{IfSome};
ghost use Rattle.std.specs.Int.{IsGcd};
ghost use Rattle.gj_frac.specs.Lowest.{IsLowest};

mod checked;
mod comparison;
mod decimals;
mod divisors;
mod laws;
mod negation;
mod operators;
mod parts;
mod products;
mod rounding;

pub use checked::{DivFault, Wide, checked_difference, checked_product, checked_total};
use divisors::gcd_in_64_bits;
pub use divisors::{gcd, lcm};
pub use laws::{ExactNumber, equal_values_are_one};
pub use operators::fits_over_one_denominator;
use parts::{common_divisor, quotient, small_quotient};

/// A fraction in lowest terms with a positive denominator; zero is 0/1.
///
/// Both parts are at most 2^127 - 1 in absolute value. Equal values have equal parts.
///
/// ```rust
/// let sixth = Frac::new(1, 6)?;
/// let half = sixth + Frac::new(2, 6)?; // exactly 1/2
/// let in_order = sixth < half && half == Frac::new(-3, -6)?; // true
/// ```
#[derive(Clone, Copy, Debug, PartialEq, Eq, Hash)]
pub struct Frac {
    num: i128,
    den: i128,
    ghost lowest: { IsLowest num den },
}

/// Whole numbers from 0 up to but not including this one fit 64 bits.
const SMALL: i128 = 1 << 64;

impl Frac {
    ghost use Rattle.gj_frac.specs.Fraction.{IsRatio, numerator, denominator};

    /// The fraction `num/den` in lowest terms.
    ///
    /// None if `den` is 0, or if one of the two is -2^127, whose absolute value does not fit.
    #[inline]
    pub fn new(num: i128, den: i128) -> Option<Frac>
        ensures none { IsNone result ↔ ((den ≡ pos 0) ⊎ (unsigned_abs num ≡ 2 ^ 127) ⊎
            (unsigned_abs den ≡ 2 ^ 127)) }
        ensures value { IfSome result (λ x. IsRatio x num den) }
    {
        if den == 0 || num == i128::MIN || den == i128::MIN {
            return None;
        }
        Some(Frac::reduced(num, den))
    }

    /// The fraction `n/d`; d is not 0.
    pub fn ratio(n: i64, d: u32) -> Frac
        requires { 0 < d }
        ensures { IsRatio result n (pos d) }
    {
        Frac::reduced(i128::from(n), i128::from(d))
    }

    /// The fraction `num/den` of two whole numbers below 2^64; den is not 0.
    ///
    /// All is done in 64 bits.
    pub fn of_small(num: u64, den: u64) -> Frac
        requires { 0 < den }
        ensures { IsRatio result (pos num) (pos den) }
    {
        let divisor = gcd_in_64_bits(num, den);
        Frac {
            num: i128::from(small_quotient(num, divisor)),
            den: i128::from(small_quotient(den, divisor)),
        }
    }

    /// The numerator in lowest terms.
    pub fn num(self) -> i128
        ensures { result ≡ numerator self }
    {
        self.num
    }

    /// The denominator in lowest terms, above 0.
    pub fn den(self) -> i128
        ensures { result ≡ denominator self }
    {
        self.den
    }

    /// The fraction `num/den` in lowest terms, without the tests of `new`.
    ///
    /// Both parts are below 2^127 in absolute value, and den is not 0. Parts from 0 up to 2^64 - 1
    /// are reduced in 64 bits.
    pub fn reduced(num: i128, den: i128) -> Frac
        requires zero { unsigned_abs den ≢ 0 }
        requires num_fits { unsigned_abs num < 2 ^ 127 }
        requires den_fits { unsigned_abs den < 2 ^ 127 }
        ensures { IsRatio result num den }
    {
        if num >= 0 && num < SMALL && den >= 0 && den < SMALL {
            return Frac::of_small(num as u64, den as u64);
        }
        // Named, so that the compiler keeps the other answer out of memory.
        let fraction = Frac::reduced_in_128_bits(num, den);
        fraction
    }

    /// The same, whatever the sizes and the signs of the parts.
    #[inline(never)]
    fn reduced_in_128_bits(num: i128, den: i128) -> Frac
        requires zero { unsigned_abs den ≢ 0 }
        requires num_fits { unsigned_abs num < 2 ^ 127 }
        requires den_fits { unsigned_abs den < 2 ^ 127 }
        ensures { IsRatio result num den }
    {
        let divisor = common_divisor(num, den);
        Frac::coprime(quotient(num, divisor), quotient(den, divisor))
    }

    /// The fraction `num/den`, if no number but 1 divides both.
    fn coprime(num: i128, den: i128) -> Frac
        requires zero { unsigned_abs den ≢ 0 }
        requires num_fits { unsigned_abs num < 2 ^ 127 }
        requires den_fits { unsigned_abs den < 2 ^ 127 }
        requires coprime { IsGcd (unsigned_abs num) (unsigned_abs den) 1 }
        ensures { IsRatio result num den }
    {
        if den > 0 {
            return Frac { num, den };
        }
        Frac {
            num: -num,
            den: -den,
        }
    }
}
