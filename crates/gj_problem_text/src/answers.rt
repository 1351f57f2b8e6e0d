//! The cuts that a problem text asks for.
ghost use Rattle.std.specs.Prelude.{◌≡◌, ◌<◌, ◌++◌, All, List, true, flat_map, length, slice_set};
ghost use Rattle.std.specs.Prelude.{IfSome, IfOk, OnOk};
ghost use Rattle.gj_problem.specs.Problems.{Holds};
ghost use Rattle.gj_safe_cut.specs.SafeCuts.{SafeCutHolds, TellsWide};
ghost use Rattle.gj_safe_cut.specs.declared.cut.SafeCut.{SafeCut};
ghost use Rattle.gj_proof.specs.CutRules.{MakesContinuousCuts};
ghost use Rattle.gj_problem_text.specs.AnswersMade.{IsRequestStep, ArePartsFor};
ghost use Rattle.gj_problem_text.specs.CutText.{cut_lines};
ghost use Rattle.gj_problem_text.specs.Cuts.{IsRoundedTo, IsOnGridOf, IsCutBy, IsAnswer};
ghost use Rattle.gj_problem_text.specs.Cuts.{AreAnswers, none_turned};
ghost use Rattle.gj_problem_text.specs.Ready.{HasMultipliers, IsReady};

use crate::print::push_cut;
use crate::task::{Request, Task};
use gj_problem::{Inequality, Problem, RoundedCut, Sparse, rounded};
use gj_proof::CutRule;
use gj_relaxed::{RelaxedParts, function_relaxed_cut, gmic_relaxed_cut};
use gj_safe_cut::{SafeCut, function_safe_cut, gmic_safe_cut};
use std::alloc::{AllocError, Global};

/// Appends the lines of the cuts that the task asks for by the rule. A cut is made and printed
/// before the next, so that no more than one is kept.
pub(crate) fn push_answers(
    alloc: Global,
    out: &mut Vec<u8>,
    rule: &CutRule,
    task: &Task,
) -> Result<(), AllocError>
    requires makes { MakesContinuousCuts rule.now }
    requires ready { IsReady task.now }
    ensures { OnOk result ((cuts : List SafeCut)
        × AreAnswers rule.now task.now (none_turned task.now) task.now.requests cuts
        × All (SafeCutHolds task.now.problem) cuts
        × (out.new.items ≡ out.old.items ++ flat_map (cut_lines task.now.names) cuts)) }
{
    let parts = parts_of(alloc, task)?;
    let mut at_upper = none_turned(alloc, task)?;
    for request in task.requests.as_slice() {
        push_request(alloc, out, rule, task, &parts, &mut at_upper, request)?;
    }
    Ok(())
}

/// What all sums of the problem share, if they are made with all data on a grid.
fn parts_of(alloc: Global, task: &Task) -> Result<Option<RelaxedParts>, AllocError>
    requires { IfSome task.now.round (λ n. 0 < n) }
    ensures { IfOk result (ArePartsFor task.now.round task.now.problem) }
{
    let Some(grid) = task.round else {
        return Ok(None);
    };
    let is_shared = task.requests.as_slice().len() > 1;
    let parts = RelaxedParts::of(alloc, &task.problem, grid, is_shared)?;
    Ok(Some(parts))
}

/// No column is turned by its upper bound.
fn none_turned(alloc: Global, task: &Task) -> Result<Vec<bool>, AllocError>
    ensures none { IfOk result (λ at_upper. at_upper.items ≡ none_turned task.now) }
    ensures count { IfOk result (λ at_upper. length at_upper.items
        ≡ length task.now.problem.columns) }
{
    vec![in alloc; false; task.problem.columns.as_slice().len()]
}

/// Notes which column is turned by its upper bound, or appends the lines of the cut that is asked
/// for.
fn push_request(
    alloc: Global,
    out: &mut Vec<u8>,
    rule: &CutRule,
    task: &Task,
    parts: &Option<RelaxedParts>,
    at_upper: &mut Vec<bool>,
    request: &Request,
) -> Result<(), AllocError>
    requires makes { MakesContinuousCuts rule.now }
    requires grid { IfSome task.now.grid (λ n. 0 < n) }
    requires round { IfSome task.now.round (λ n. 0 < n) }
    requires parts { ArePartsFor task.now.round task.now.problem parts.now }
    requires multipliers { HasMultipliers (length task.now.problem.constraints) request.now }
    requires at_upper { length at_upper.old.items ≡ length task.now.problem.columns }
    ensures step { OnOk result (IsRequestStep rule.now task.now at_upper.old.items
        out.old.items request.now at_upper.new.items out.new.items) }
    ensures count { OnOk result (length at_upper.new.items ≡ length at_upper.old.items) }
{
    match request {
        Request::Upper(column) => {
            turn(at_upper, *column);
            Ok(())
        }
        Request::Sum(multipliers) => {
            push_answer(
                alloc,
                out,
                rule,
                task,
                parts,
                multipliers,
                at_upper.as_slice(),
            )?;
            Ok(())
        }
    }
}

/// From here on the column is turned by its upper bound.
fn turn(at_upper: &mut Vec<bool>, column: u32)
    ensures turned { at_upper.new.items ≡ slice_set at_upper.old.items column true }
    ensures count { length at_upper.new.items ≡ length at_upper.old.items }
{
    let column = column as usize;
    if column < at_upper.len() {
        at_upper[column] = true;
    }
}

/// Appends the lines of the cut by the multipliers.
fn push_answer(
    alloc: Global,
    out: &mut Vec<u8>,
    rule: &CutRule,
    task: &Task,
    parts: &Option<RelaxedParts>,
    multipliers: &Sparse,
    at_upper: &[bool],
) -> Result<(), AllocError>
    requires makes { MakesContinuousCuts rule.now }
    requires grid { IfSome task.now.grid (λ n. 0 < n) }
    requires round { IfSome task.now.round (λ n. 0 < n) }
    requires parts { ArePartsFor task.now.round task.now.problem parts.now }
    requires multipliers { length multipliers.now ≡ length task.now.problem.constraints }
    requires at_upper { length at_upper.now ≡ length task.now.problem.columns }
    ensures { OnOk result ((cut : SafeCut)
        × IsAnswer rule.now task.now multipliers.now at_upper.now cut
        × SafeCutHolds task.now.problem cut
        × (out.new.items ≡ out.old.items ++ cut_lines task.now.names cut)) }
{
    let cut = answer_of(alloc, rule, task, parts, multipliers, at_upper)?;
    push_cut(alloc, out, task.names.as_slice(), &cut)?;
    Ok(())
}

/// The cut by the multipliers, rounded if there is a grid.
fn answer_of(
    alloc: Global,
    rule: &CutRule,
    task: &Task,
    parts: &Option<RelaxedParts>,
    multipliers: &Sparse,
    at_upper: &[bool],
) -> Result<SafeCut, AllocError>
    requires makes { MakesContinuousCuts rule.now }
    requires grid { IfSome task.now.grid (λ n. 0 < n) }
    requires round { IfSome task.now.round (λ n. 0 < n) }
    requires parts { ArePartsFor task.now.round task.now.problem parts.now }
    requires multipliers { length multipliers.now ≡ length task.now.problem.constraints }
    requires at_upper { length at_upper.now ≡ length task.now.problem.columns }
    ensures is { IfOk result (IsAnswer rule.now task.now multipliers.now at_upper.now) }
    ensures holds { IfOk result (SafeCutHolds task.now.problem) }
{
    let cut = unrounded(
        alloc,
        rule,
        task.round,
        &task.problem,
        parts,
        multipliers,
        at_upper,
    )?;
    on_grid(alloc, &task.problem, task.grid, cut)
}

/// The cut by the rule and the multipliers, of the problem as it is or with its data on a grid.
fn unrounded(
    alloc: Global,
    rule: &CutRule,
    round: Option<u32>,
    problem: &Problem,
    parts: &Option<RelaxedParts>,
    multipliers: &Sparse,
    at_upper: &[bool],
) -> Result<SafeCut, AllocError>
    requires makes { MakesContinuousCuts rule.now }
    requires round { IfSome round (λ n. 0 < n) }
    requires parts { ArePartsFor round problem.now parts.now }
    requires multipliers { length multipliers.now ≡ length problem.now.constraints }
    requires at_upper { length at_upper.now ≡ length problem.now.columns }
    ensures is { IfOk result (IsCutBy rule.now round problem.now multipliers.now at_upper.now) }
    ensures narrow { IfOk result
        (TellsWide (IsCutBy rule.now round problem.now multipliers.now at_upper.now)) }
    ensures holds { IfOk result (SafeCutHolds problem.now) }
{
    match (rule, round, parts) {
        (CutRule::Gmic, Some(grid), Some(parts)) => {
            gmic_relaxed_cut(alloc, problem, parts, multipliers, at_upper, grid)
        }
        (CutRule::Table(shape), Some(grid), Some(parts)) => {
            function_relaxed_cut(alloc, shape, problem, parts, multipliers, at_upper, grid)
        }
        (CutRule::Gmic, _, _) => gmic_safe_cut(alloc, problem, multipliers, at_upper),
        (CutRule::Table(shape), _, _) => {
            function_safe_cut(alloc, shape, problem, multipliers, at_upper)
        }
    }
}

/// The cut, rounded if there is a grid.
fn on_grid(
    alloc: Global,
    problem: &Problem,
    grid: Option<u32>,
    cut: SafeCut,
) -> Result<SafeCut, AllocError>
    requires { IfSome grid (λ n. 0 < n) }
    ensures is { IfOk result (IsOnGridOf problem.now grid cut) }
    ensures narrow { IfOk result (TellsWide (IsOnGridOf problem.now grid cut)) }
    ensures holds { IfOk result (λ answer. SafeCutHolds problem.now cut →
        SafeCutHolds problem.now answer) }
{
    let Some(grid) = grid else {
        return Ok(cut);
    };
    match cut {
        SafeCut::Cut(cut) => rounded_to(alloc, problem, grid, &cut),
        SafeCut::Integral => Ok(SafeCut::Integral),
        SafeCut::OtherFraction => Ok(SafeCut::OtherFraction),
        SafeCut::Free(column) => Ok(SafeCut::Free(column)),
        SafeCut::Wide => Ok(SafeCut::Wide),
    }
}

/// The inequality rounded to multiples of 1/grid.
fn rounded_to(
    alloc: Global,
    problem: &Problem,
    grid: u32,
    cut: &Inequality,
) -> Result<SafeCut, AllocError>
    requires { 0 < grid }
    ensures is { IfOk result (IsRoundedTo problem.now grid cut.now) }
    ensures narrow { IfOk result (TellsWide (IsRoundedTo problem.now grid cut.now)) }
    ensures holds { IfOk result (λ answer. Holds problem.now cut.now →
        SafeCutHolds problem.now answer) }
{
    match rounded(alloc, problem, cut, u64::from(grid)) {
        Ok(RoundedCut::Cut(cut)) => Ok(SafeCut::Cut(cut)),
        Ok(RoundedCut::Free(column)) => Ok(SafeCut::Free(column)),
        Ok(RoundedCut::Wide) => Ok(SafeCut::Wide),
        Err(error) => Err(error),
    }
}
