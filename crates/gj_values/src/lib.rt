//! The values that cuts take at fractions: theorems, each the contract of a function with no code.
//!
//! A function of period 1, and the mixed-integer cut for an f, has one value at each fraction, and
//! a number has one fractional part.
#![tactic(auto)]

ghost use Rattle.std.specs.Prelude.{◌≡◌};
ghost use Rattle.gj_frac.specs.declared.Frac.{Frac};
ghost use Rattle.gj_frac.specs.Floor.{HasFractionalPart};
ghost use Rattle.gj_frac.specs.Fraction.{numerator, denominator, IsInside};
ghost use Rattle.gj_shape.specs.FunctionData.{FunctionData, IsWithinBounds};
ghost use Rattle.gj_theory.specs.Cuts.{IsValueOf, IsGmicValue};

/// There is one value at a fraction.
pub fn one_value()
    ensures of_function { (f : FunctionData) (x y z : Frac) → IsWithinBounds f →
        IsValueOf f x y → IsValueOf f x z → y ≡ z }
    ensures of_gmic { (f x y z : Frac) → IsInside f →
        IsGmicValue f x y → IsGmicValue f x z → y ≡ z }
{}

/// There is one fractional part of a number.
pub fn one_fractional_part()
    ensures { (x f g : Frac) → HasFractionalPart x (numerator f) (denominator f) →
        HasFractionalPart x (numerator g) (denominator g) → f ≡ g }
{}
