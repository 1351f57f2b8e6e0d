//! What the limits at the corners of faces say of those on finer grids.
ghost use Rattle.std.specs.Prelude.{ℕ, Bool, ◌<◌};
ghost use Rattle.gj_shape.specs.Faces.{limits_of};
ghost use Rattle.gj_shape.specs.FunctionData.{FunctionData, IsWithinBounds};
ghost use Rattle.gj_shape.specs.Table.{IsMinimal};
ghost use Rattle.gj_shape.specs.declared.faces.FaceKind.{FaceKind};
ghost use Rattle.gj_theory.specs.CornerSlacks.{IsBelowCorners};
ghost use Rattle.gj_jumps.specs.LimitCover.{IsApartFromTriangles};
ghost use Rattle.gj_limit_grids.specs.Grids.{IsLimitPerturbation, IsBelowLimits, zigzag_limits};

/// A number that is at most each positive limit at a corner beside one with the limit 0, and at
/// most m times each positive limit, is at most each positive limit on the grid of order m q.
pub fn corners_bound_limits()
    ensures { (f : FunctionData) (m u : ℕ) → IsWithinBounds f → IsMinimal f → 0 < m → 0 < u →
        ((kind : FaceKind) (a b : ℕ) → a < f.order → b < f.order →
        IsBelowCorners m u (limits_of f kind a b)) → IsBelowLimits f m u }
{}

/// The zigzag of intervals that no link leaves, and on none of which a triangle with slack 0
/// projects, is a perturbation of a minimal function.
pub fn zigzags_are_perturbations()
    ensures { (f : FunctionData) (chosen : ℕ → Bool) → IsWithinBounds f → IsMinimal f →
        IsApartFromTriangles f chosen → IsLimitPerturbation f 4 (zigzag_limits chosen) }
{}
