//! Extreme functions that may jump, as data.
ghost use Rattle.std.specs.Prelude.{◌↔◌};
ghost use Rattle.gj_shape.specs.FunctionData.{FunctionData, IsWithinBounds};
ghost use Rattle.gj_jumps.specs.ExtremeWithJumps.{IsExtremeWithJumps};
ghost use Rattle.gj_limit_averages.specs.Averages.{IsExtremeFunction};

/// A function, which may jump, is minimal and no average of two different minimal functions on any
/// finer grid exactly if it is minimal, all its intervals are covered, and only 0 solves, in whole
/// numbers, the equations of the limits at which its slack is 0.
pub fn extreme_functions_are_covered_and_solved()
    ensures { (f : FunctionData) → IsWithinBounds f →
        (IsExtremeFunction f ↔ IsExtremeWithJumps f) }
{}
