//! The cut of a problem by multipliers and a function.
ghost use Rattle.std.specs.Prelude.{IfOk, ◌≡◌, length};
ghost use Rattle.gj_shape.specs.FunctionData.{IsContinuous};
ghost use Rattle.gj_shape.specs.Table.{IsMinimal};
ghost use Rattle.gj_safe_cut.specs.SafeCuts.{IsFunctionSafeCutOf, TellsWide, SafeCutHolds};
ghost use Rattle.gj_safe_cut.specs.SafeCuts.{SafeCutHasTerms};

use crate::cut::SafeCut;
use crate::cutters::ByFunction;
use crate::problem_cuts::safe_cut;
use gj_problem::{Problem, Sparse};
use gj_shape::Shape;
use std::alloc::{AllocError, Global};

/// The cut of the row that the multipliers make of the problem by a minimal continuous function and
/// its slopes at 0, in the problem's columns.
///
/// There is a multiplier for each constraint, and nothing is asked of it. `at_upper` says of each
/// column whether its upper bound is preferred. It is `Wide` also where the function is asked for
/// its value at an entry whose denominator is 2^31 or more. Where it is not, it is `OtherFraction`
/// exactly if the right side of the row is not whole and its fractional part is not the function's
/// f. For the rest see [`gmic_safe_cut`](crate::gmic_safe_cut). The only error is want of memory.
pub fn function_safe_cut(
    alloc: Global,
    shape: &Shape,
    problem: &Problem,
    multipliers: &Sparse,
    at_upper: &[bool],
) -> Result<SafeCut, AllocError>
    requires minimal { IsMinimal shape.now }
    requires jumps_not { IsContinuous shape.now }
    requires multipliers { length multipliers.now ≡ length problem.now.constraints }
    requires at_upper { length at_upper.now ≡ length problem.now.columns }
    ensures is { IfOk result
        (IsFunctionSafeCutOf shape.now problem.now multipliers.now at_upper.now) }
    ensures narrow { IfOk result
        (TellsWide (IsFunctionSafeCutOf shape.now problem.now multipliers.now at_upper.now)) }
    ensures holds { IfOk result (SafeCutHolds problem.now) }
    ensures terms { IfOk result (SafeCutHasTerms problem.now) }
{
    let by = ByFunction::of(shape);
    safe_cut(alloc, &by, problem, multipliers, at_upper)
}
