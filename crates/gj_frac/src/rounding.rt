//! The whole part of a fraction, and what is left of it.
ghost use Rattle.std.specs.Prelude.{ℤ, pos, ◌-ℤ◌, ◌*ℤ◌, ◌≤ℤ◌, ◌<ℤ◌};

use crate::Frac;
use crate::parts::{floor_quotient, floor_rest};

impl Frac {
    ghost use Rattle.gj_frac.specs.Fraction.{IsRatio, numerator, denominator};
    ghost use Rattle.gj_frac.specs.Floor.{IsFloor};

    /// The greatest whole number that is at most this fraction: -3 for -7/3.
    pub fn floor(self) -> i128
        ensures { IsFloor self result }
    {
        floor_quotient(self.num, self.den)
    }

    /// This fraction minus its floor, from 0 up to but not including 1: 2/3 for -7/3.
    pub fn fract(self) -> Frac
        ensures value { (n : ℤ) → IsFloor self n →
            IsRatio result (numerator self -ℤ n *ℤ denominator self) (denominator self) }
        ensures not_negative { pos 0 ≤ℤ numerator result }
        ensures below_one { numerator result <ℤ denominator result }
    {
        Frac {
            num: floor_rest(self.num, self.den),
            den: self.den,
        }
    }

    /// 1 minus this fraction, which is from 0 to 1.
    ///
    /// No divisor is sought: it is in lowest terms at once.
    pub fn complement(self) -> Frac
        requires not_negative { pos 0 ≤ℤ numerator self }
        requires at_most_one { numerator self ≤ℤ denominator self }
        ensures { IsRatio result (denominator self -ℤ numerator self) (denominator self) }
    {
        Frac {
            num: self.den - self.num,
            den: self.den,
        }
    }
}
