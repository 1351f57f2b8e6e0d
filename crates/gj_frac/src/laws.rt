//! The laws of sums, products and order that generic code may use.
ghost use Rattle.std.specs.Prelude.{◌≡◌, IsTrue};
ghost use Rattle.std.specs.declared.cmp.Ordering.TheVariants.{Less};
ghost use Rattle.gj_frac.specs.ExactLaws.{can_add_swapped, add_swapped, add_regrouped};
ghost use Rattle.gj_frac.specs.ExactLaws.{can_mul_swapped, mul_swapped, mul_regrouped};
ghost use Rattle.gj_frac.specs.ExactLaws.{mul_over_add};
ghost use Rattle.gj_frac.specs.ExactLaws.{sums_keep_order};
ghost use Rattle.gj_frac.specs.TotalOrder.{parts_Decides};
ghost use Rattle.gj_frac.specs.Fraction.{SameValue, fraction_of};

use crate::Frac;
use std::hash::Hash;
use std::ops::{Add, Mul};

/// Numbers whose sums and products are exact wherever their conditions hold.
///
/// Its laws speak of results: a sum or product that appears twice stands for any result that the
/// operator may give. That `<` is a total order, and that equal numbers hash alike, are laws of
/// `Ord` and `Hash`.
pub trait ExactNumber: Add<Self, Output = Self> + Mul<Self, Output = Self> + Ord + Hash + Copy {
    // Equal numbers are one: they have equal parts.
    ghost equal_is_same: { (x y : Self) → IsTrue (Self.eq x y) → x ≡ y };

    // If x + y can be formed, y + x can, and the two are equal.
    ghost can_add_swapped: { (x y : Self) → Self.can_add x y → Self.can_add y x };

    ghost add_swapped: { (x y s t : Self) → Self.add_gives x y s → Self.add_gives y x t → s ≡ t };

    // (x + y) + z is x + (y + z).
    ghost add_regrouped: { (x y z s t u v : Self) →
        Self.add_gives x y s → Self.add_gives s z t →
        Self.add_gives y z u → Self.add_gives x u v → t ≡ v };

    // If x y can be formed, y x can, and the two are equal.
    ghost can_mul_swapped: { (x y : Self) → Self.can_mul x y → Self.can_mul y x };

    ghost mul_swapped: { (x y s t : Self) → Self.mul_gives x y s → Self.mul_gives y x t → s ≡ t };

    // (x y) z is x (y z).
    ghost mul_regrouped: { (x y z s t u v : Self) →
        Self.mul_gives x y s → Self.mul_gives s z t →
        Self.mul_gives y z u → Self.mul_gives x u v → t ≡ v };

    // x (y + z) is x y + x z.
    ghost mul_over_add: { (x y z s t u v w : Self) →
        Self.add_gives y z s → Self.mul_gives x s t →
        Self.mul_gives x y u → Self.mul_gives x z v → Self.add_gives u v w → t ≡ w };

    // x < y gives x + z < y + z.
    ghost sums_keep_order: { (x y z s t : Self) →
        Self.cmp x y ≡ Less → Self.add_gives x z s → Self.add_gives y z t → Self.cmp s t ≡ Less };
}

impl ExactNumber for Frac {
    ghost equal_is_same = { λ x y. (parts_Decides x y).0 };

    ghost can_add_swapped = { can_add_swapped };

    ghost add_swapped = { add_swapped };

    ghost add_regrouped = { add_regrouped };

    ghost can_mul_swapped = { can_mul_swapped };

    ghost mul_swapped = { mul_swapped };

    ghost mul_regrouped = { mul_regrouped };

    ghost mul_over_add = { mul_over_add };

    ghost sums_keep_order = { sums_keep_order };
}

/// Fractions of equal value are one: they have equal parts.
pub fn equal_values_are_one()
    ensures { (x y : Frac) → SameValue (fraction_of x) (fraction_of y) → x ≡ y }
{}
