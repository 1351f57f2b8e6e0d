//! Rows of fractions, and the values that the program gives at them.
ghost use Rattle.std.specs.Prelude.{◌≡◌, ℤ, List};
ghost use Rattle.std.specs.List.{AllZip};
ghost use Rattle.gj_frac.specs.declared.Frac.{Frac};
ghost use Rattle.gj_frac.specs.Fraction.{IsInside};
ghost use Rattle.gj_shape.specs.FunctionData.{FunctionData, IsWithinBounds};
ghost use Rattle.gj_shape.specs.Table.{IsMinimal};
ghost use Rattle.gj_theory.specs.Cuts.{IsValueOf, IsGmicValue};
ghost use Rattle.gj_fields.specs.Fields.{whole};
ghost use Rattle.gj_fields.specs.Functions.{HasRules};
ghost use Rattle.gj_fields.specs.MixedCuts.{HasSlopesAtZero, weight_of};
ghost use Rattle.gj_reals.specs.RealFunctions.{real_function};
ghost use Rattle.gj_real_cuts.specs.Gmic.{gmic};
ghost use Rattle.gj_real_cuts.specs.RealRows.{number_of, IsRealValue, RealCutHolds};

use gj_fields::reals::Reals;

/// The value of a minimal function at a fraction, and that of the mixed-integer cut, is the value
/// of the function of real numbers there.
pub fn values_are_real_values<K: Reals>()
    ensures by_function { (f : FunctionData) (x y : Frac) →
        IsWithinBounds f → IsMinimal f → IsValueOf f x y →
        IsRealValue K.field (real_function K.field K.floors f) x y }
    ensures by_gmic { (f x y : Frac) → IsInside f → IsGmicValue f x y →
        IsRealValue K.field (gmic K.field K.floors (number_of K.field f)) x y }
{}

/// The cut of a row by a function that meets the rules, with its slopes at 0, holds at all whole
/// and real amounts: its right side is a whole number and f.
pub fn row_cuts_over_reals<K: Reals>()
    ensures { (v : K.Number → K.Number) (f up down : K.Number) →
        HasRules K.field v f → HasSlopesAtZero K.field v up down →
        (entries columns : List Frac) (right : Frac) (coefficients weights : List Frac) (w : ℤ) →
        number_of K.field right ≡ K.field.plus (whole K.field w) f →
        AllZip (IsRealValue K.field v) entries coefficients →
        AllZip (IsRealValue K.field (weight_of K.field up down)) columns weights →
        RealCutHolds K.field entries columns right coefficients weights }
{}
