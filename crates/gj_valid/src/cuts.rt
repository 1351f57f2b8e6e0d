//! How large the coefficients of cuts are.
ghost use Rattle.std.specs.Prelude.{◌<◌, ◌^◌, unsigned_abs};
ghost use Rattle.gj_frac.specs.declared.Frac.{Frac};
ghost use Rattle.gj_frac.specs.Fraction.{denominator, IsInside};
ghost use Rattle.gj_shape.specs.FunctionData.{FunctionData, IsWithinBounds};
ghost use Rattle.gj_shape.specs.Table.{IsMinimal};
ghost use Rattle.gj_theory.specs.Cuts.{IsValueOf, IsGmicValue};
ghost use Rattle.gj_valid.specs.Coefficients.{IsSmallCoefficient};

/// The coefficient of an entry x whose denominator is at most 2^31 - 1 is from 0 to 1, with a
/// numerator and a denominator of at most 2^62: in cuts by minimal functions, and in mixed-integer
/// cuts for an f whose denominator is at most 2^31 - 1.
pub fn coefficients_are_small()
    ensures by_function { (f : FunctionData) (x y : Frac) → IsWithinBounds f → IsMinimal f →
        unsigned_abs (denominator x) < 2 ^ 31 → IsValueOf f x y → IsSmallCoefficient y }
    ensures by_gmic { (f x y : Frac) → IsInside f → unsigned_abs (denominator f) < 2 ^ 31 →
        unsigned_abs (denominator x) < 2 ^ 31 → IsGmicValue f x y → IsSmallCoefficient y }
{}
