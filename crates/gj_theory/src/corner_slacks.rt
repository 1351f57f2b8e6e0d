//! The slacks of a continuous function on finer grids, from those at the corners of the complex.
ghost use Rattle.std.specs.Prelude.{ℕ, ℤ, pos, ◌≡◌, ◌*◌, ◌+◌, ◌<◌, ◌≤◌, ◌*ℤ◌, ◌<ℤ◌, ◌≤ℤ◌, Contains};
ghost use Rattle.gj_shape.specs.Faces.{slack_from, limits_of};
ghost use Rattle.gj_shape.specs.FunctionData.{FunctionData, IsWithinBounds, IsContinuous, at};
ghost use Rattle.gj_shape.specs.Perturbation.{slack_on_grid};
ghost use Rattle.gj_shape.specs.Table.{IsMinimal};
ghost use Rattle.gj_shape.specs.declared.faces.FaceKind.TheVariants.{Lower};
ghost use Rattle.gj_theory.specs.CornerSlacks.{IsBelowCorners};

/// On each face the slack is affine, so that the slacks at the corners of the lower triangles give
/// the least positive slack on the grid of order m q: it is the least of the positive slacks at a
/// corner beside one with the slack 0, and of m times the positive slacks at all corners. Half of
/// the triangles do, since the slack is symmetric.
pub fn grid_slacks_from_corners()
    ensures low { (f : FunctionData) (m u : ℕ) → IsWithinBounds f → IsContinuous f →
        IsMinimal f → 0 < m →
        ((a b : ℕ) → a ≤ b → b < f.order → IsBelowCorners m u (limits_of f Lower a b)) →
        (i j : ℕ) → pos 0 <ℤ slack_on_grid f m i j → pos u ≤ℤ slack_on_grid f m i j }
    ensures corner { (f : FunctionData) (m a b : ℕ) → 0 < m → slack_on_grid f m (a * m) (b * m)
        ≡ pos m *ℤ slack_from (at f.value a) (at f.value b) (at f.value (a + b)) }
    ensures beside { (f : FunctionData) (m a b : ℕ) (x : ℤ) → IsContinuous f → 2 ≤ m →
        Contains (limits_of f Lower a b) (pos 0) → Contains (limits_of f Lower a b) x → pos 0 <ℤ x →
        (i : ℕ) × (j : ℕ) × (slack_on_grid f m i j ≡ x) }
{}
