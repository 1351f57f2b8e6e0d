//! Extreme functions at all real numbers.
ghost use Rattle.std.specs.Prelude.{◌↔◌};
ghost use Rattle.gj_fields.specs.Functions.{IsExtremeAmong};
ghost use Rattle.gj_shape.specs.Extreme.{IsExtreme};
ghost use Rattle.gj_shape.specs.FunctionData.{FunctionData, IsWithinBounds, IsContinuous};
ghost use Rattle.gj_reals.specs.RealFunctions.{real_function, real_place};

use gj_fields::reals::Reals;

/// A continuous function is extreme exactly if, taken at all real numbers, it is extreme among the
/// valid functions: it is not half the sum of two different ones.
pub fn extreme_functions_are_extreme_at_reals<K: Reals>()
    ensures { (f : FunctionData) → IsWithinBounds f → IsContinuous f →
        (IsExtreme f
        ↔ IsExtremeAmong K.field (real_function K.field K.floors f) (real_place K.field f)) }
{}
