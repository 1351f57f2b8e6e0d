//! What a violation shows.
ghost use Rattle.std.specs.Prelude.{ℕ, ◌<◌};
ghost use Rattle.gj_shape.specs.FunctionData.{FunctionData, IsWithinBounds};
ghost use Rattle.gj_shape.specs.FirstViolation.{IsFirstViolation};
ghost use Rattle.gj_shape.specs.Table.{IsMinimalOnGrid, IsMinimal};
ghost use Rattle.gj_shape.specs.Violation.{ShowsViolation};
ghost use Rattle.gj_shape.specs.declared.violations.Violation.{Violation};
ghost use Rattle.gj_theory.specs.GridPoints.{HoldsPoints};

/// The first violation is shown at its points.
pub fn first_violation_is_shown()
    ensures { (f : FunctionData) (v : Violation) → IsWithinBounds f → IsFirstViolation f v →
        ShowsViolation f v }
{}

/// A function with a shown violation is not minimal.
pub fn shown_violation_denies_minimality()
    ensures { (f : FunctionData) (v : Violation) → IsWithinBounds f →
        ShowsViolation f v → IsMinimal f → ⊥ }
{}

/// If a violation is shown, the table on no grid that holds its points is minimal.
pub fn shown_violation_denies_tables()
    ensures { (f : FunctionData) (v : Violation) (m : ℕ) → IsWithinBounds f → ShowsViolation f v →
        0 < m → HoldsPoints f m v → IsMinimalOnGrid f m → ⊥ }
{}
