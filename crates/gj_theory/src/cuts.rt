//! Cuts of rows by minimal tables and functions, and the table of the mixed-integer cut.
ghost use Rattle.std.specs.Prelude.{ℕ, ℤ, pos, ◌<◌, List};
ghost use Rattle.std.specs.List.{AllZip};
ghost use Rattle.gj_frac.specs.declared.Frac.{Frac};
ghost use Rattle.gj_frac.specs.Fraction.{IsRatio, numerator, denominator, IsInside};
ghost use Rattle.gj_shape.specs.FunctionData.{FunctionData, IsWithinBounds};
ghost use Rattle.gj_shape.specs.Gmic.{gmic_table, gmic_scale};
ghost use Rattle.gj_shape.specs.RowCut.{CutHolds};
ghost use Rattle.gj_shape.specs.Table.{IsMinimalTable, IsMinimal};
ghost use Rattle.gj_shape.specs.Values.{IsCongruent};
ghost use Rattle.gj_frac.specs.Floor.{HasFractionalPart};
ghost use Rattle.gj_theory.specs.Cuts.{IsEntryAt, IsValueOf, IsGmicValue};

/// A row gives a cut if its right side has the fractional part f: by a minimal table whose entries
/// are the coefficients, and by a minimal function whose values at the row's entries they are.
pub fn cut_from_subadditivity()
    ensures by_table { (t : ℕ → ℤ) (n k s : ℕ) (entries : List Frac) (right : Frac)
        (coefficients : List Frac) →
        IsMinimalTable t n k s → 0 < n → 0 < s → HasFractionalPart right (pos k) (pos n) →
        AllZip (IsEntryAt t n s) entries coefficients → CutHolds entries right coefficients }
    ensures by_function { (f : FunctionData) (entries : List Frac) (right : Frac)
        (coefficients : List Frac) →
        IsWithinBounds f → IsMinimal f → HasFractionalPart right (pos f.place) (pos f.order) →
        AllZip (IsValueOf f) entries coefficients → CutHolds entries right coefficients }
{}

/// The table of the mixed-integer cut is minimal.
pub fn gmic_table_is_minimal()
    ensures { (n k : ℕ) → 0 < k → k < n → IsMinimalTable (λ i. pos (gmic_table n k i)) n k
        (gmic_scale n k) }
{}

/// On each grid that holds f and x the closed form of the mixed-integer cut for f has at x what its
/// table has there.
pub fn gmic_has_closed_form()
    ensures { (f x y : Frac) (n k i : ℕ) (place : ℤ) → 0 < k → k < n →
        IsRatio f (pos k) (pos n) → IsRatio x place (pos n) → IsCongruent (pos i) place n →
        IsGmicValue f x y → IsRatio y (pos (gmic_table n k i)) (pos (gmic_scale n k)) }
{}

/// The mixed-integer cut for the fractional part of the right side of a row holds.
pub fn gmic_cut()
    ensures { (f : Frac) (entries : List Frac) (right : Frac) (coefficients : List Frac) →
        IsInside f → HasFractionalPart right (numerator f) (denominator f) →
        AllZip (IsGmicValue f) entries coefficients → CutHolds entries right coefficients }
{}
