//! Fractions divided and scaled.
ghost use Rattle.std.specs.Prelude.{◌≡◌, ◌<◌, ◌≤◌, ◌^◌, ℕ, pos, IfOk, OnErr, OnOk};
ghost use Rattle.std.specs.Prelude.{unsigned_abs};
ghost use Rattle.gj_frac.specs.Fraction.{SameValue, fraction_of, quotient_of, denominator};
ghost use Rattle.gj_frac.specs.Fits.{FitsQuotient};
ghost use Rattle.gj_lemmas.specs.Divisors.{IsLcm};
ghost use Rattle.gj_shape.specs.Given.{IsLeastCommonDenominator};
ghost use Rattle.gj_fields.specs.Rational.{whole, rational};
ghost use Rattle.gj_problem.specs.Aggregates.{IsScale, signed};
ghost use Rattle.gj_problem.specs.WideRows.{IsWideScale, numbers_of};

use crate::problem::{Entry, Sense};
use gj_frac::{Frac, Wide, gcd};

/// The quotient. Wide exactly if the divisor is 0 or the quotient does not fit in lowest terms.
pub fn divided(x: Frac, y: Frac) -> Result<Frac, Wide>
    ensures fits { OnOk result (FitsQuotient x y) }
    ensures wide { OnErr result (¬ FitsQuotient x y) }
    ensures value { IfOk result (λ z. SameValue (fraction_of z)
        (quotient_of (fraction_of x) (fraction_of y))) }
{
    x.checked_div(y).map_err(|_| Wide)
}

/// The number by which the slack of a constraint is multiplied: its least common denominator if its
/// columns are whole, else 1.
pub(crate) fn scale(right: Frac, entries: &[Entry], is_whole: bool) -> Result<Frac, Wide>
    ensures scale { IfOk result (λ m. (n : ℕ) × IsScale right entries.now is_whole n ×
        (rational m ≡ whole (pos n))) }
    ensures wide { OnErr result (IsWideScale right entries.now is_whole) }
    ensures narrow { OnOk result (¬ IsWideScale right entries.now is_whole) }
{
    if is_whole {
        whole_number(common_denominator(right, entries)?)
    } else {
        Ok(Frac::ratio(1, 1))
    }
}

/// The least common denominator of the numbers of a constraint.
fn common_denominator(right: Frac, entries: &[Entry]) -> Result<u128, Wide>
    ensures least { IfOk result (IsLeastCommonDenominator (numbers_of right entries.now)) }
    ensures wide { OnErr result ((n : ℕ) →
        IsLeastCommonDenominator (numbers_of right entries.now) n → 2 ^ 128 ≤ n) }
{
    let mut least = with_denominator(1, right)?;
    for entry in entries {
        least = with_denominator(least, entry.value)?;
    }
    Ok(least)
}

/// The least common multiple of a number and a denominator.
fn with_denominator(m: u128, x: Frac) -> Result<u128, Wide>
    ensures multiple { IfOk result (IsLcm m (unsigned_abs (denominator x))) }
    ensures wide { OnErr result ((n : ℕ) × IsLcm m (unsigned_abs (denominator x)) n
        × (2 ^ 128 ≤ n)) }
{
    let d = x.den().unsigned_abs();
    if d == 1 {
        return Ok(m);
    }
    let common = gcd(m, d);
    (m / common).checked_mul(d).ok_or(Wide)
}

/// The fraction that is this whole number, if it fits.
fn whole_number(n: u128) -> Result<Frac, Wide>
    ensures fits { OnOk result (n < 2 ^ 127) }
    ensures value { IfOk result (λ x. rational x ≡ whole (pos n)) }
    ensures wide { OnErr result (2 ^ 127 ≤ n) }
{
    let Ok(signed) = i128::try_from(n) else {
        return Err(Wide);
    };
    Frac::new(signed, 1).ok_or(Wide)
}

/// The scale with the sign of slacks.
pub(crate) fn with_sign(sense: Sense, scale: Frac) -> Frac
    ensures { (n : ℕ) → rational scale ≡ whole (pos n) → rational result ≡ whole (signed sense n) }
{
    match sense {
        Sense::AtMost => -scale,
        Sense::AtLeast | Sense::Equal => scale,
    }
}
