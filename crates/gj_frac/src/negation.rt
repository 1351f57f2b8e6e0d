//! A fraction with its sign turned.
ghost use Rattle.gj_frac.specs.Fraction.{SameValue, fraction_of, negation_of};

use crate::Frac;
use std::ops::Neg;

/// The fraction with its sign turned, which always fits.
impl Neg for Frac {
    type Output = Frac;

    ghost neg_gives = { λ x z. SameValue (fraction_of z) (negation_of (fraction_of x)) };

    fn neg(self) -> Frac {
        Frac {
            num: -self.num,
            den: self.den,
        }
    }
}
