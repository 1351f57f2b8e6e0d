//! Sums, differences, products and quotients that say whether they fit.
ghost use Rattle.std.specs.Prelude.{◌≡◌, ◌≢◌, ◌↔◌, ℕ, pos, ◌*ℤ◌, ◌+ℤ◌, ◌-ℤ◌, unsigned_abs, IfOk};
ghost use Rattle.std.specs.Prelude.{OnOk, OnErr, IsErr, IsErrOf, MatchOption};
ghost use Rattle.std.specs.Int.{IsGcd};
ghost use Rattle.std.specs.Result.{OkIff};
ghost use Rattle.gj_frac.specs.Fraction.{Fits, SameValue, fraction_of, sum_of, difference_of};
ghost use Rattle.gj_frac.specs.Fraction.{product_of, quotient_of, numerator, denominator};
ghost use Rattle.gj_frac.specs.Fits.{FitsTogether, FitsSum, FitsDifference, FitsProduct};
ghost use Rattle.gj_frac.specs.Fits.{FitsQuotient, IsDenominatorGcd, scaled_numerator};
ghost use Rattle.gj_frac.specs.Fits.{common_denominator};

use crate::Frac;
use crate::operators::Together;
use crate::parts::coprime_quotients;
use thiserror::Error;

/// A result that does not fit: a part of it, or of a step to it, is above 2^127 - 1 in absolute
/// value.
#[derive(Clone, Copy, Debug, PartialEq, Eq, Error)]
#[error("the result does not fit 128 bits")]
pub struct Wide;

/// Why `checked_div` gives no quotient.
#[derive(Clone, Copy, Debug, PartialEq, Eq, Error)]
pub enum DivFault {
    /// The divisor is 0.
    #[error("the divisor is 0")]
    Zero,
    /// The divisor is not 0, and the quotient in lowest terms does not fit.
    #[error("the quotient does not fit 128 bits")]
    Wide,
}

impl From<Wide> for DivFault {
    ghost use Rattle.gj_frac.specs.declared.checked.DivFault.TheVariants.{Wide as wide};

    ghost from_gives = { λ _ fault. fault ≡ wide };

    fn from(_wide: Wide) -> DivFault {
        DivFault::Wide
    }
}

/// A whole number, if there is one and it fits a part of a fraction.
fn part(number: Option<i128>) -> Result<i128, Wide>
    ensures { MatchOption number (IsErr result) (λ n. OkIff result (Fits n) n) }
{
    match number {
        Some(n) if n != i128::MIN => Ok(n),
        _ => Err(Wide),
    }
}

/// The product of two whole numbers, if it fits a part of a fraction. That of two numbers of 64
/// bits always does.
pub fn checked_product(n: i128, m: i128) -> Result<i128, Wide>
    ensures { OkIff result (Fits (n *ℤ m)) (n *ℤ m) }
{
    if let (Ok(n), Ok(m)) = (i64::try_from(n), i64::try_from(m)) {
        return Ok(i128::from(n) * i128::from(m));
    }
    part(n.checked_mul(m))
}

/// The sum of two whole numbers, if it fits a part of a fraction.
pub fn checked_total(n: i128, m: i128) -> Result<i128, Wide>
    ensures { OkIff result (Fits (n +ℤ m)) (n +ℤ m) }
{
    part(n.checked_add(m))
}

/// The difference of two whole numbers, if it fits a part of a fraction.
pub fn checked_difference(n: i128, m: i128) -> Result<i128, Wide>
    ensures { OkIff result (Fits (n -ℤ m)) (n -ℤ m) }
{
    part(n.checked_sub(m))
}

/// Two fractions over their common denominator, if that fits.
fn checked_over_common_denominator(x: Frac, y: Frac) -> Result<Together, Wide>
    ensures fits { OnOk result (FitsTogether x y) }
    ensures first { IfOk result (λ t.
        (g : ℕ) → IsDenominatorGcd x y g → t.first ≡ scaled_numerator x y g) }
    ensures second { IfOk result (λ t.
        (g : ℕ) → IsDenominatorGcd x y g → t.second ≡ scaled_numerator y x g) }
    ensures bottom { IfOk result (λ t.
        (g : ℕ) → IsDenominatorGcd x y g → t.bottom ≡ common_denominator x y g) }
    ensures wide { OnErr result (¬ FitsTogether x y) }
{
    let (scale, other_scale) = coprime_quotients(x.den, y.den);
    let first = checked_product(x.num, other_scale)?;
    let second = checked_product(y.num, scale)?;
    let bottom = checked_product(scale, y.den)?;
    Ok(Together {
        first,
        second,
        bottom,
    })
}

/// The product of two fractions, if no number but 1 divides a numerator and the other's
/// denominator, and if it fits.
fn checked_crosswise_product(x: Frac, y: Frac) -> Result<Frac, Wide>
    requires first { IsGcd (unsigned_abs (numerator x)) (unsigned_abs (denominator y)) 1 }
    requires second { IsGcd (unsigned_abs (numerator y)) (unsigned_abs (denominator x)) 1 }
    ensures value { IfOk result (λ z.
        SameValue (fraction_of z) (product_of (fraction_of x) (fraction_of y))) }
    ensures wide { OnErr result (¬ FitsProduct x y) }
{
    let num = checked_product(x.num, y.num)?;
    let den = checked_product(x.den, y.den)?;
    Ok(Frac::coprime(num, den))
}

impl Frac {
    /// The sum. Wide exactly if the condition of `+` fails.
    pub fn checked_add(self, other: Frac) -> Result<Frac, Wide>
        ensures fits { OnOk result (FitsSum self other) }
        ensures value { IfOk result (λ z.
            SameValue (fraction_of z) (sum_of (fraction_of self) (fraction_of other))) }
        ensures wide { OnErr result (¬ FitsSum self other) }
    {
        let Together {
            first,
            second,
            bottom,
        } = checked_over_common_denominator(self, other)?;
        let total = checked_total(first, second)?;
        Ok(Frac::reduced(total, bottom))
    }

    /// The difference. Wide exactly if the condition of `-` fails.
    pub fn checked_sub(self, other: Frac) -> Result<Frac, Wide>
        ensures fits { OnOk result (FitsDifference self other) }
        ensures value { IfOk result (λ z.
            SameValue (fraction_of z) (difference_of (fraction_of self) (fraction_of other))) }
        ensures wide { OnErr result (¬ FitsDifference self other) }
    {
        let Together {
            first,
            second,
            bottom,
        } = checked_over_common_denominator(self, other)?;
        let difference = checked_difference(first, second)?;
        Ok(Frac::reduced(difference, bottom))
    }

    /// The product. Wide exactly if it does not fit in lowest terms.
    pub fn checked_mul(self, other: Frac) -> Result<Frac, Wide>
        ensures fits { OnOk result (FitsProduct self other) }
        ensures value { IfOk result (λ z.
            SameValue (fraction_of z) (product_of (fraction_of self) (fraction_of other))) }
        ensures wide { OnErr result (¬ FitsProduct self other) }
    {
        checked_crosswise_product(
            Frac::reduced(self.num, other.den),
            Frac::reduced(other.num, self.den),
        )
    }

    /// The quotient. Zero exactly if `other` is 0, and Wide exactly if it is not and the
    /// quotient does not fit in lowest terms.
    pub fn checked_div(self, other: Frac) -> Result<Frac, DivFault>
        ensures fits { OnOk result (FitsQuotient self other) }
        ensures value { IfOk result (λ z.
            SameValue (fraction_of z) (quotient_of (fraction_of self) (fraction_of other))) }
        ensures zero { IsErrOf result DivFault.Zero ↔ (numerator other ≡ pos 0) }
        ensures wide { IsErrOf result DivFault.Wide →
            (numerator other ≢ pos 0) × ¬ FitsQuotient self other }
    {
        if other.num == 0 {
            return Err(DivFault::Zero);
        }
        let quotient = checked_crosswise_product(
            Frac::reduced(self.num, other.num),
            Frac::reduced(other.den, self.den),
        )?;
        Ok(quotient)
    }
}
