//! The cut of a problem by multipliers.
ghost use Rattle.std.specs.Prelude.{◌≡◌, IfOk, OnOk, Err, length};
ghost use Rattle.gj_safe_cut.specs.declared.cut.SafeCut.TheVariants.{Wide};
ghost use Rattle.gj_safe_cut.specs.SafeCuts.{IsOfProblem, IsGmicSafeCutOf, TellsWide};
ghost use Rattle.gj_safe_cut.specs.SafeCuts.{SafeCutHolds, SafeCutHasTerms};

use crate::cut::SafeCut;
use crate::cutters::{ByGmic, RowCutter};
use gj_problem::{Fault, MadeRow, Problem, Sparse, row_of};
use std::alloc::{AllocError, Global};

/// The mixed-integer cut of the row that the multipliers make of the problem, in its columns.
///
/// There is a multiplier for each constraint, and nothing is asked of it. `at_upper` says of each
/// column whether its upper bound is preferred. It is `Wide` exactly where a number of the row, a
/// coefficient, or a number of the cut does not fit. Else it is `Integral` exactly if the right
/// side of the row is whole, `Free` exactly at the first column that has no bound and cannot be
/// left out, and never `OtherFraction`. The only error is want of memory.
pub fn gmic_safe_cut(
    alloc: Global,
    problem: &Problem,
    multipliers: &Sparse,
    at_upper: &[bool],
) -> Result<SafeCut, AllocError>
    requires multipliers { length multipliers.now ≡ length problem.now.constraints }
    requires at_upper { length at_upper.now ≡ length problem.now.columns }
    ensures is { IfOk result (IsGmicSafeCutOf problem.now multipliers.now at_upper.now) }
    ensures narrow { IfOk result
        (TellsWide (IsGmicSafeCutOf problem.now multipliers.now at_upper.now)) }
    ensures holds { IfOk result (SafeCutHolds problem.now) }
    ensures terms { IfOk result (SafeCutHasTerms problem.now) }
{
    let by = ByGmic;
    safe_cut(alloc, &by, problem, multipliers, at_upper)
}

/// The cut of a problem, `Wide` where a number does not fit.
pub(crate) fn safe_cut<C: RowCutter>(
    alloc: Global,
    by: &C,
    problem: &Problem,
    multipliers: &Sparse,
    at_upper: &[bool],
) -> Result<SafeCut, AllocError>
    requires multipliers { length multipliers.now ≡ length problem.now.constraints }
    requires at_upper { length at_upper.now ≡ length problem.now.columns }
    ensures is { IfOk result
        (IsOfProblem (C.is_cut by.now) problem.now multipliers.now at_upper.now) }
    ensures narrow { IfOk result
        (TellsWide (IsOfProblem (C.is_cut by.now) problem.now multipliers.now at_upper.now)) }
{
    match cut_of_problem(alloc, by, problem, multipliers, at_upper) {
        Ok(cut) => Ok(cut),
        Err(Fault::Wide) => Ok(SafeCut::Wide),
        Err(Fault::Memory(error)) => Err(error),
    }
}

/// The cut by this cutter of the row that the multipliers make of the problem, in its columns.
///
/// It is `Free` at the first column that has no bound and cannot be left out of the row. `Memory`
/// is for want of memory, and `Wide` comes exactly where a number of the row, or of its cut, does
/// not fit.
pub fn cut_of_problem<C: RowCutter>(
    alloc: Global,
    by: &C,
    problem: &Problem,
    multipliers: &Sparse,
    at_upper: &[bool],
) -> Result<SafeCut, Fault>
    requires multipliers { length multipliers.now ≡ length problem.now.constraints }
    requires at_upper { length at_upper.now ≡ length problem.now.columns }
    ensures cut { IfOk result
        (IsOfProblem (C.is_cut by.now) problem.now multipliers.now at_upper.now) }
    ensures wide { result ≡ Err Fault.Wide →
        IsOfProblem (C.is_cut by.now) problem.now multipliers.now at_upper.now Wide }
    ensures narrow { OnOk result
        (¬ IsOfProblem (C.is_cut by.now) problem.now multipliers.now at_upper.now Wide) }
{
    match row_of(alloc, problem, multipliers, at_upper)? {
        MadeRow::Row(row) => by.cut_of_row(alloc, problem.columns.as_slice().len(), row),
        MadeRow::Free(column) => Ok(SafeCut::Free(column)),
    }
}
