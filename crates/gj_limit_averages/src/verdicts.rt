//! Functions, which may jump, that have the same verdict.
ghost use Rattle.std.specs.Prelude.{ℕ, ◌↔◌};
ghost use Rattle.gj_shape.specs.FunctionData.{FunctionData, IsWithinBounds};
ghost use Rattle.gj_shape.specs.Refinement.{IsRefinement};
ghost use Rattle.gj_transform.specs.Transforms.{IsMirrorOf};
ghost use Rattle.gj_limit_averages.specs.Averages.{IsExtremeFunction};

/// A function, which may jump, and its refinement: both are extreme or neither is.
pub fn refinements_have_same_verdicts_with_jumps()
    ensures { (f g : FunctionData) (times : ℕ) → IsWithinBounds f → IsWithinBounds g →
        IsRefinement f times g → (IsExtremeFunction f ↔ IsExtremeFunction g) }
{}

/// A function, which may jump, and the function of -x: both are extreme or neither is.
pub fn mirrors_have_same_verdicts_with_jumps()
    ensures { (f g : FunctionData) → IsWithinBounds f → IsWithinBounds g → IsMirrorOf f g →
        (IsExtremeFunction f ↔ IsExtremeFunction g) }
{}
