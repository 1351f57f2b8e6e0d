//! Mixed cuts hold: theorems, each the contract of a function with no code.
ghost use Rattle.std.specs.Prelude.{ℕ, pos, ◌<◌, ◌↔◌, List, [], All};
ghost use Rattle.std.specs.List.{AllZip};
ghost use Rattle.gj_frac.specs.declared.Frac.{Frac};
ghost use Rattle.gj_frac.specs.Fraction.{Fraction, numerator, denominator, IsInside};
ghost use Rattle.gj_shape.specs.FunctionData.{FunctionData, IsWithinBounds, IsContinuous};
ghost use Rattle.gj_shape.specs.RowCut.{CutHolds};
ghost use Rattle.gj_shape.specs.Table.{IsMinimal};
ghost use Rattle.gj_theory.specs.Cuts.{IsValueOf, IsGmicValue};
ghost use Rattle.gj_frac.specs.Floor.{HasFractionalPart};
ghost use Rattle.gj_mixed.specs.MixedRows.{MixedCutHolds, IsNonnegativeAmount, AreAmountsOver};
ghost use Rattle.gj_mixed.specs.Slopes.{IsWeight, AreSlopesAtZero, AreGmicSlopes};

/// The mixed cut of a row holds whose right side has the fractional part f: by a continuous minimal
/// function with its slopes at 0, and by the mixed-integer cut for f with its own. Without
/// continuous columns it is the cut of whole columns.
pub fn mixed_cut()
    ensures by_function { (f : FunctionData) (up down : Frac) (entries columns : List Frac)
        (right : Frac) (coefficients weights : List Frac) →
        IsWithinBounds f → IsContinuous f → IsMinimal f → AreSlopesAtZero f up down →
        HasFractionalPart right (pos f.place) (pos f.order) →
        AllZip (IsValueOf f) entries coefficients →
        AllZip (IsWeight up down) columns weights →
        MixedCutHolds entries columns right coefficients weights }
    ensures by_gmic { (f up down : Frac) (entries columns : List Frac) (right : Frac)
        (coefficients weights : List Frac) →
        IsInside f → AreGmicSlopes f up down → HasFractionalPart right
        (numerator f) (denominator f) →
        AllZip (IsGmicValue f) entries coefficients → AllZip (IsWeight up down) columns weights →
        MixedCutHolds entries columns right coefficients weights }
    ensures without_columns { (entries : List Frac) (right : Frac) (coefficients : List Frac) →
        MixedCutHolds entries [] right coefficients [] ↔ CutHolds entries right coefficients }
{}

/// Fractions that are at least 0 are amounts over one denominator, so solutions with such amounts
/// are all solutions.
pub fn fractions_over_one_denominator()
    ensures { (zs : List Fraction) → All IsNonnegativeAmount zs → (e : ℕ) × (amounts : List ℕ) ×
        (0 < e) × AreAmountsOver e zs amounts }
{}
