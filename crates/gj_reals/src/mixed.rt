//! Cuts of rows with continuous columns, at all real values of their variables.
ghost use Rattle.std.specs.Prelude.{List, map};
ghost use Rattle.gj_fields.specs.Fields.{AtMost};
ghost use Rattle.gj_fields.specs.Functions.{IsSamePoint, total_of};
ghost use Rattle.gj_fields.specs.MixedCuts.{Column, total_amount, total_weight};
ghost use Rattle.gj_shape.specs.FunctionData.{FunctionData, IsWithinBounds, IsContinuous};
ghost use Rattle.gj_shape.specs.Table.{IsMinimal};
ghost use Rattle.gj_reals.specs.RealFunctions.{real_function, real_place, slope_up, slope_down};

use gj_fields::reals::Reals;

/// By a continuous minimal function and its slopes at 0: if points, each as often as it is used,
/// and the entries of continuous columns times their variables, real numbers not below 0, add up to
/// f modulo 1, the values at the points and the weights times the variables add up to 1 or more.
pub fn mixed_cuts_at_reals<K: Reals>()
    ensures { (f : FunctionData) → IsWithinBounds f → IsContinuous f → IsMinimal f →
        (points : List K.Number) (columns : List (Column K.field)) →
        IsSamePoint K.field
        (K.field.plus (total_of K.field points) (total_amount K.field columns))
        (real_place K.field f) →
        AtMost K.field K.field.one
        (K.field.plus (total_of K.field (map (real_function K.field K.floors f) points))
        (total_weight K.field (slope_up K.field f) (slope_down K.field f) columns)) }
{}
