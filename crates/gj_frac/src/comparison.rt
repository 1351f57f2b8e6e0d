//! The order of fractions by value.
ghost use Rattle.std.specs.Prelude.{◌≡◌, ◌≢◌, ◌*◌, unsigned_abs, refl};
ghost use Rattle.gj_frac.specs.Fraction.{numerator, denominator};
ghost use Rattle.gj_frac.specs.CompareValues.{compare_values};
ghost use Rattle.gj_frac.specs.TotalOrder.{compare_values_total, compare_values_partial};
ghost use Rattle.gj_frac.specs.TotalOrder.{compare_values_ties};
ghost use Rattle.std.specs.Ordering.{nat_cmp, as_partial_cmp};

use crate::Frac;
use std::cmp::Ordering;

/// Fractions are ordered by value: `x < y` holds exactly if the value of x is less than that of y.
impl Ord for Frac {
    ghost cmp = { compare_values };

    ghost total = { compare_values_total };

    ghost matches_partial_cmp = { λ x y. refl };

    ghost matches_eq = { compare_values_ties };

    fn cmp(&self, other: &Frac) -> Ordering {
        match (self.num < 0, other.num < 0) {
            (true, false) => Ordering::Less,
            (false, true) => Ordering::Greater,
            (false, false) => compare_sizes(*self, *other),
            (true, true) => compare_sizes(*other, *self),
        }
    }
}

impl PartialOrd for Frac {
    ghost partial_cmp = { as_partial_cmp compare_values };

    ghost laws = { compare_values_partial };

    fn partial_cmp(&self, other: &Frac) -> Option<Ordering> {
        Some(self.cmp(other))
    }
}

/// Compares the absolute values of two fractions.
fn compare_sizes(x: Frac, y: Frac) -> Ordering
    ensures { result ≡ nat_cmp
        (unsigned_abs (numerator x) * unsigned_abs (denominator y))
        (unsigned_abs (numerator y) * unsigned_abs (denominator x)) }
{
    compare_ratios(
        x.num.unsigned_abs(),
        x.den.unsigned_abs(),
        y.num.unsigned_abs(),
        y.den.unsigned_abs(),
    )
}

/// Compares `a/b` with `c/d`, by their whole parts, and if these are equal by the reciprocals of
/// the rests the other way round. No product is formed, so nothing can overflow.
fn compare_ratios(a: u128, b: u128, c: u128, d: u128) -> Ordering
    requires b_some { b ≢ 0 }
    requires d_some { d ≢ 0 }
    ensures { result ≡ nat_cmp (a * d) (c * b) }
{
    let whole = (a / b).cmp(&(c / d));
    if whole.is_ne() {
        return whole;
    }
    let rest = a % b;
    let other_rest = c % d;
    if rest == 0 || other_rest == 0 {
        return rest.cmp(&other_rest);
    }
    compare_ratios(d, other_rest, b, rest)
}
