//! Minimal and extreme functions among the valid functions on all fractions.
ghost use Rattle.std.specs.Prelude.{ℕ, ◌<◌, List, map, sum};
ghost use Rattle.gj_frac.specs.Fraction.{Fraction, SameValue, sum_of, AtMostValue};
ghost use Rattle.gj_shape.specs.Extreme.{IsExtreme};
ghost use Rattle.gj_shape.specs.FunctionData.{FunctionData, IsWithinBounds, IsContinuous};
ghost use Rattle.gj_shape.specs.Table.{IsMinimal};
ghost use Rattle.gj_valid.specs.ValidFunctions.{over, IsNonnegative, IsSamePoint, total_of};
ghost use Rattle.gj_valid.specs.ValidFunctions.{IsFunction, IsValidFunction};
ghost use Rattle.gj_valid.specs.ValidFunctions.{IsMinimalAmongFunctions, IsExtremeAmongFunctions};
ghost use Rattle.gj_valid.specs.ValidFunctions.{function_of};

/// The minimal functions are those that, taken on all fractions, are minimal among the valid
/// functions: no other lies below.
pub fn minimal_functions_are_minimal_among_valid()
    ensures among { (f : FunctionData) → IsWithinBounds f → IsMinimal f →
        IsMinimalAmongFunctions (function_of f) (over f.place f.order) }
    ensures only { (f : FunctionData) → IsWithinBounds f → IsMinimalAmongFunctions (function_of f)
        (over f.place f.order) → IsMinimal f }
{}

/// An extreme function, taken on all fractions, is extreme among the valid functions: it is not
/// half the sum of two different ones. A continuous function is extreme exactly then.
pub fn extreme_functions_are_extreme_among_valid()
    ensures among { (f : FunctionData) → IsWithinBounds f → IsExtreme f →
        IsExtremeAmongFunctions (function_of f) (over f.place f.order) }
    ensures only { (f : FunctionData) → IsWithinBounds f → IsContinuous f →
        IsExtremeAmongFunctions (function_of f) (over f.place f.order) → IsExtreme f }
{}

/// Of all functions of period 1 from fractions to fractions of at least 0, those that are minimal
/// among the valid ones are those that are 0 at 0, subadditive and symmetric: their values at two
/// points that add up to f add up to 1.
pub fn rules_of_minimal_functions()
    ensures among { (v : Fraction → Fraction) (f : Fraction) → IsNonnegative f → IsFunction v →
        SameValue (v (over 0 1)) (over 0 1) →
        ((x y : Fraction) → IsNonnegative x → IsNonnegative y →
        AtMostValue (v (sum_of x y)) (sum_of (v x) (v y))) →
        ((x y : Fraction) → IsNonnegative x → IsNonnegative y → IsSamePoint (sum_of x y) f →
        SameValue (sum_of (v x) (v y)) (over 1 1)) →
        IsMinimalAmongFunctions v f }
    ensures zero { (v : Fraction → Fraction) (f : Fraction) → IsNonnegative f →
        IsMinimalAmongFunctions v f →
        SameValue (v (over 0 1)) (over 0 1) }
    ensures subadditive { (v : Fraction → Fraction) (f x y : Fraction) → IsNonnegative f →
        IsMinimalAmongFunctions v f →
        IsNonnegative x → IsNonnegative y → AtMostValue (v (sum_of x y)) (sum_of (v x) (v y)) }
    ensures symmetric { (v : Fraction → Fraction) (f x y : Fraction) → IsNonnegative f →
        IsMinimalAmongFunctions v f →
        IsNonnegative x → IsNonnegative y → IsSamePoint (sum_of x y) f →
        SameValue (sum_of (v x) (v y)) (over 1 1) }
{}

/// A function is valid if its values at points n/d over one bottom d that add up to f modulo 1 add
/// up to 1 or more, for each d: finitely many fractions have a common bottom.
pub fn solutions_over_one_bottom()
    ensures { (v : Fraction → Fraction) (f : Fraction) → IsNonnegative f → IsFunction v →
        ((d : ℕ) (tops : List ℕ) → 0 < d → IsSamePoint (over (sum tops) d) f →
        AtMostValue (over 1 1) (total_of (map (λ n. v (over n d)) tops))) →
        IsValidFunction v f }
{}
