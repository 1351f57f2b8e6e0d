//! The product and the quotient of two fractions.
ghost use Rattle.std.specs.Prelude.{unsigned_abs};
ghost use Rattle.std.specs.Int.{IsGcd};
ghost use Rattle.gj_frac.specs.Fraction.{SameValue, fraction_of, product_of, quotient_of};
ghost use Rattle.gj_frac.specs.Fraction.{numerator, denominator};
ghost use Rattle.gj_frac.specs.Fits.{FitsProduct, FitsQuotient};

use crate::Frac;
use crate::parts::product;
use std::ops::{Div, Mul};

/// The product of two fractions, if no number but 1 divides a numerator and the other's
/// denominator. So it is in lowest terms at once.
fn crosswise_coprime_product(x: Frac, y: Frac) -> Frac
    requires first { IsGcd (unsigned_abs (numerator x)) (unsigned_abs (denominator y)) 1 }
    requires second { IsGcd (unsigned_abs (numerator y)) (unsigned_abs (denominator x)) 1 }
    requires fits { FitsProduct x y }
    ensures { SameValue (fraction_of result) (product_of (fraction_of x) (fraction_of y)) }
{
    Frac::coprime(product(x.num, y.num), product(x.den, y.den))
}

/// The exact product. It can be formed exactly if it fits in lowest terms.
impl Mul for Frac {
    type Output = Frac;

    ghost can_mul = { FitsProduct };

    ghost mul_gives = { λ x y z. SameValue (fraction_of z) (product_of (fraction_of x)
        (fraction_of y)) };

    fn mul(self, other: Frac) -> Frac {
        crosswise_coprime_product(
            Frac::reduced(self.num, other.den),
            Frac::reduced(other.num, self.den),
        )
    }
}

/// The exact quotient. It can be formed exactly if the divisor is not 0 and the quotient fits in
/// lowest terms.
impl Div for Frac {
    type Output = Frac;

    ghost can_div = { FitsQuotient };

    ghost div_gives = { λ x y z. SameValue (fraction_of z) (quotient_of (fraction_of x)
        (fraction_of y)) };

    fn div(self, other: Frac) -> Frac {
        crosswise_coprime_product(
            Frac::reduced(self.num, other.num),
            Frac::reduced(other.den, self.den),
        )
    }
}
