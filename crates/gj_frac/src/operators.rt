//! The sum and the difference of two fractions.
ghost use Rattle.std.specs.Prelude.{◌≡◌, ℕ};
ghost use Rattle.gj_frac.specs.Fraction.{SameValue, fraction_of, sum_of, difference_of};
ghost use Rattle.gj_frac.specs.Fits.{FitsTogether, FitsSum, FitsDifference, FitsOverOneDenominator};
ghost use Rattle.gj_frac.specs.Fits.{IsDenominatorGcd, scaled_numerator, common_denominator};

use crate::Frac;
use crate::parts::{coprime_quotients, difference, product, total};
use std::ops::{Add, Sub};

/// Two numerators over one denominator.
pub(crate) struct Together {
    pub(crate) first: i128,
    pub(crate) second: i128,
    pub(crate) bottom: i128,
}

/// Two fractions over their common denominator.
fn over_common_denominator(x: Frac, y: Frac) -> Together
    requires { FitsTogether x y }
    ensures first { (g : ℕ) → IsDenominatorGcd x y g → result.first ≡ scaled_numerator x y g }
    ensures second { (g : ℕ) → IsDenominatorGcd x y g → result.second ≡ scaled_numerator y x g }
    ensures bottom { (g : ℕ) → IsDenominatorGcd x y g → result.bottom ≡ common_denominator x y g }
{
    let (scale, other_scale) = coprime_quotients(x.den, y.den);
    Together {
        first: product(x.num, other_scale),
        second: product(y.num, scale),
        bottom: product(scale, y.den),
    }
}

/// The exact sum. With g the greatest common divisor of the denominators b and d, the sum of a/b
/// and c/d can be formed if a (d/g), c (b/g), their sum and (b/g) d are each at most 2^127 - 1 in
/// absolute value.
impl Add for Frac {
    type Output = Frac;

    ghost can_add = { FitsSum };

    ghost add_gives = { λ x y z. SameValue (fraction_of z) (sum_of (fraction_of x)
        (fraction_of y)) };

    fn add(self, other: Frac) -> Frac {
        let Together {
            first,
            second,
            bottom,
        } = over_common_denominator(self, other);
        Frac::reduced(total(first, second), bottom)
    }
}

/// The exact difference. It can be formed if the same holds with the difference of the two scaled
/// numerators in place of their sum.
impl Sub for Frac {
    type Output = Frac;

    ghost can_sub = { FitsDifference };

    ghost sub_gives = { λ x y z. SameValue (fraction_of z) (difference_of (fraction_of x)
        (fraction_of y)) };

    fn sub(self, other: Frac) -> Frac {
        let Together {
            first,
            second,
            bottom,
        } = over_common_denominator(self, other);
        Frac::reduced(difference(first, second), bottom)
    }
}

/// Two fractions over one denominator of at most 2^125, with numerators over it of at most 2^125 in
/// absolute value, can be added and subtracted.
pub fn fits_over_one_denominator()
    ensures { FitsOverOneDenominator }
{}
