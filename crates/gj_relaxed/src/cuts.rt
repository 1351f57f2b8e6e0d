//! Cuts of problems with their data on a grid.
ghost use Rattle.std.specs.Prelude.{◌≡◌, ◌<◌, IfOk, OnOk, Err, length};
ghost use Rattle.gj_shape.specs.FunctionData.{IsContinuous};
ghost use Rattle.gj_shape.specs.Table.{IsMinimal};
ghost use Rattle.gj_safe_cut.specs.declared.cut.SafeCut.TheVariants.{Wide};
ghost use Rattle.gj_safe_cut.specs.SafeCuts.{IsOfProblem, TellsWide};
ghost use Rattle.gj_safe_cut.specs.SafeCuts.{SafeCutHolds, SafeCutHasTerms};
ghost use Rattle.gj_relaxed.specs.RelaxedForms.{ArePartsOf};
ghost use Rattle.gj_relaxed.specs.RelaxedCuts.{IsRelaxedCutOf};
ghost use Rattle.gj_relaxed.specs.RelaxedCuts.{IsGmicRelaxedCutOf, IsFunctionRelaxedCutOf};

use crate::cutters::OnGrid;
use crate::forms::RelaxedParts;
use crate::problems::{RelaxedProblem, relaxed_problem};
use crate::rows::RightMove;
use gj_problem::{Fault, Problem, Sparse};
use gj_safe_cut::{ByFunction, ByGmic, RowCutter, SafeCut, cut_of_problem};
use gj_shape::Shape;
use std::alloc::{AllocError, Global};

/// The mixed-integer cut of the row that the multipliers make of the problem, where the problem and
/// the row are taken to the grid of all k/grid, in the problem's columns.
///
/// There is a multiplier for each constraint, and nothing is asked of it. `at_upper` says of each
/// column whether its upper bound is preferred. It is `Wide` exactly where a number of the problem
/// or of the row on the grid, a coefficient, or a number of the cut does not fit. Else it is
/// `Integral` exactly if the right side of the row is whole once it is on the grid, `Free` exactly
/// at a column without bounds, which keeps a constraint from the grid or cannot be left out of the
/// row, and never `OtherFraction`. The only error is want of memory.
pub fn gmic_relaxed_cut(
    alloc: Global,
    problem: &Problem,
    parts: &RelaxedParts,
    multipliers: &Sparse,
    at_upper: &[bool],
    grid: u32,
) -> Result<SafeCut, AllocError>
    requires grid { 0 < grid }
    requires parts { ArePartsOf grid problem.now parts.now }
    requires multipliers { length multipliers.now ≡ length problem.now.constraints }
    requires at_upper { length at_upper.now ≡ length problem.now.columns }
    ensures is { IfOk result
        (IsGmicRelaxedCutOf grid problem.now multipliers.now at_upper.now) }
    ensures narrow { IfOk result
        (TellsWide (IsGmicRelaxedCutOf grid problem.now multipliers.now at_upper.now)) }
    ensures holds { IfOk result (SafeCutHolds problem.now) }
    ensures terms { IfOk result (SafeCutHasTerms problem.now) }
{
    let by = OnGrid {
        by: ByGmic,
        to: RightMove::Down,
        grid,
    };
    relaxed_cut(alloc, &by, problem, parts, multipliers, at_upper, grid)
}

/// The cut of the row that the multipliers make of the problem by a minimal continuous function and
/// its slopes at 0, where the problem and the row are taken to the grid of all k/grid, in the
/// problem's columns.
///
/// The right side of the row stays as it is, since its fractional part is to be the function's f:
/// where it is not, the cut is `OtherFraction`, and `Integral` exactly if it is whole. For the rest
/// see [`gmic_relaxed_cut`].
pub fn function_relaxed_cut(
    alloc: Global,
    shape: &Shape,
    problem: &Problem,
    parts: &RelaxedParts,
    multipliers: &Sparse,
    at_upper: &[bool],
    grid: u32,
) -> Result<SafeCut, AllocError>
    requires minimal { IsMinimal shape.now }
    requires jumps_not { IsContinuous shape.now }
    requires grid { 0 < grid }
    requires parts { ArePartsOf grid problem.now parts.now }
    requires multipliers { length multipliers.now ≡ length problem.now.constraints }
    requires at_upper { length at_upper.now ≡ length problem.now.columns }
    ensures is { IfOk result
        (IsFunctionRelaxedCutOf shape.now grid problem.now multipliers.now at_upper.now) }
    ensures narrow { IfOk result (TellsWide
        (IsFunctionRelaxedCutOf shape.now grid problem.now multipliers.now at_upper.now)) }
    ensures holds { IfOk result (SafeCutHolds problem.now) }
    ensures terms { IfOk result (SafeCutHasTerms problem.now) }
{
    let by = OnGrid {
        by: ByFunction::of(shape),
        to: RightMove::Kept,
        grid,
    };
    relaxed_cut(alloc, &by, problem, parts, multipliers, at_upper, grid)
}

/// The cut of the problem on the grid, `Wide` where a number does not fit.
fn relaxed_cut<C: RowCutter>(
    alloc: Global,
    by: &C,
    problem: &Problem,
    parts: &RelaxedParts,
    multipliers: &Sparse,
    at_upper: &[bool],
    grid: u32,
) -> Result<SafeCut, AllocError>
    requires grid { 0 < grid }
    requires parts { ArePartsOf grid problem.now parts.now }
    requires multipliers { length multipliers.now ≡ length problem.now.constraints }
    requires at_upper { length at_upper.now ≡ length problem.now.columns }
    ensures is { IfOk result
        (IsRelaxedCutOf grid (IsOfProblem (C.is_cut by.now))
        problem.now multipliers.now at_upper.now) }
    ensures narrow { IfOk result (TellsWide
        (IsRelaxedCutOf grid (IsOfProblem (C.is_cut by.now))
        problem.now multipliers.now at_upper.now)) }
{
    match cut_on_grid(alloc, by, problem, parts, multipliers, at_upper, grid) {
        Ok(cut) => Ok(cut),
        Err(Fault::Wide) => Ok(SafeCut::Wide),
        Err(Fault::Memory(error)) => Err(error),
    }
}

/// The cut by this cutter of the problem on the grid.
fn cut_on_grid<C: RowCutter>(
    alloc: Global,
    by: &C,
    problem: &Problem,
    parts: &RelaxedParts,
    multipliers: &Sparse,
    at_upper: &[bool],
    grid: u32,
) -> Result<SafeCut, Fault>
    requires grid { 0 < grid }
    requires parts { ArePartsOf grid problem.now parts.now }
    requires multipliers { length multipliers.now ≡ length problem.now.constraints }
    requires at_upper { length at_upper.now ≡ length problem.now.columns }
    ensures cut { IfOk result
        (IsRelaxedCutOf grid (IsOfProblem (C.is_cut by.now))
        problem.now multipliers.now at_upper.now) }
    ensures wide { result ≡ Err Fault.Wide →
        IsRelaxedCutOf grid (IsOfProblem (C.is_cut by.now))
        problem.now multipliers.now at_upper.now Wide }
    ensures narrow { OnOk result
        (¬ IsRelaxedCutOf grid (IsOfProblem (C.is_cut by.now))
        problem.now multipliers.now at_upper.now Wide) }
{
    match relaxed_problem(alloc, problem, parts, multipliers, grid)? {
        RelaxedProblem::Problem(relaxed, kept) => {
            let kept = Sparse::of(alloc, kept.as_slice())?;
            cut_of_problem(alloc, by, &relaxed, &kept, at_upper)
        }
        RelaxedProblem::Free(column) => Ok(SafeCut::Free(column)),
    }
}
