//! The fractions, as numbers for which the theorems hold.
ghost use Rattle.std.specs.Prelude.{◌↔◌};
ghost use Rattle.gj_fields.specs.Rational.{Rational};
ghost use Rattle.gj_fields.proofs.Rationals.{rationals, rational_floors};
ghost use Rattle.gj_fields.specs.Functions.{IsExtremeAmong};
ghost use Rattle.gj_shape.specs.Extreme.{IsExtreme};
ghost use Rattle.gj_shape.specs.FunctionData.{FunctionData, IsWithinBounds, IsContinuous};
ghost use Rattle.gj_reals.specs.RealFunctions.{real_function, real_place};

use crate::extreme::extreme_functions_are_extreme_at_reals;
use gj_fields::reals::Reals;

/// The fractions.
pub struct Fractions;

impl Reals for Fractions {
    ghost Number = { Rational };

    ghost field = { rationals };

    ghost floors = { rational_floors };
}

/// The theorem at the fractions.
pub fn extreme_functions_are_extreme_at_fractions()
    ensures { (f : FunctionData) → IsWithinBounds f → IsContinuous f →
        (IsExtreme f
        ↔ IsExtremeAmong rationals (real_function rationals rational_floors f)
        (real_place rationals f)) }
{
    extreme_functions_are_extreme_at_reals::<Fractions>()
}
