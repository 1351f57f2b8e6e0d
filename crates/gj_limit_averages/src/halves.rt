//! A function moved both ways along a perturbation.
ghost use Rattle.std.specs.Prelude.{ℕ, ℤ, pos, neg_ℤ, ◌*◌, ◌<◌};
ghost use Rattle.gj_shape.specs.FunctionData.{FunctionData, IsWithinBounds};
ghost use Rattle.gj_shape.specs.Table.{IsMinimal};
ghost use Rattle.gj_jumps.specs.LimitSystem.{Limits};
ghost use Rattle.gj_limit_grids.specs.Grids.{IsLimitPerturbation, IsBelowLimits};
ghost use Rattle.gj_limit_averages.specs.Averages.{AreDifferentParts};
ghost use Rattle.gj_limit_averages.specs.Moved.{IsBoundOf, HasSome, IsMovedBy};

/// A minimal function plus and minus u/(3 p) times a perturbation that is not 0 gives two different
/// minimal functions that average to it: u is at most each positive limit of its slack, and p at
/// least each number of the perturbation.
pub fn perturbations_give_parts()
    ensures { (f : FunctionData) (m u p : ℕ) (w : Limits ℤ) (g h : FunctionData) →
        IsWithinBounds f → IsMinimal f → 0 < m → 0 < p → IsLimitPerturbation f m w →
        IsBelowLimits f m u → IsBoundOf w p → HasSome w → IsMovedBy f m p (pos u) w g →
        IsMovedBy f m p (neg_ℤ (pos u)) w h → AreDifferentParts f m (3 * p) g h }
{}
