//! Constraints on a grid.
ghost use Rattle.std.specs.Prelude.{◌≡◌, ◌≢◌, ◌<◌, ◌++◌, ◌∷◌, [], IfOk};
ghost use Rattle.std.specs.Prelude.{MatchOption, OnOk, Err, length, pos, get_or, ◌+◌, ◌^◌};
ghost use Rattle.std.specs.List.{AllZip};
ghost use Rattle.gj_frac.specs.Fraction.{numerator};
ghost use Rattle.gj_problem.specs.declared.rounding.RoundedCut.TheVariants.{Wide};
ghost use Rattle.gj_problem.specs.Aggregates.{weighted};
ghost use Rattle.gj_problem.specs.Steps.{IsMadeNext};
ghost use Rattle.gj_relaxed.specs.RelaxedProblems.{side_of, IsUnnamed};
ghost use Rattle.gj_relaxed.specs.RelaxedProblems.{IsRelaxedConstraint, IsFreeSide};
ghost use Rattle.gj_relaxed.specs.RelaxedProblems.{IsWideSide, AreWideSides};
ghost use Rattle.gj_relaxed.specs.RelaxedSteps.{sign_of, IsRelaxedOrFree};
ghost use Rattle.gj_relaxed.specs.RelaxedSteps.{IsNextSide, AreRelaxedOrFree};
ghost use Rattle.gj_relaxed.specs.RelaxedForms.{AreForms, IsSideOf};

use crate::forms::{Forms, rounded_with_sign, with_sign};
use gj_frac::Frac;
use gj_problem::{Constraint, Fault, Problem, RoundedCut, Sense, Sparse};
use gj_shape::List;
use std::alloc::{AllocError, Global};

/// Constraints on the grid, and a multiplier for each.
#[derive(Drop)]
pub(crate) struct Relaxed {
    /// The constraints.
    pub(crate) constraints: Vec<Constraint>,
    /// The multipliers.
    pub(crate) multipliers: Vec<Frac>,
}

/// The constraints on the grid, or the column that keeps the first one from it that has one.
#[derive(Drop)]
pub(crate) enum Sides {
    /// The constraints.
    All(Relaxed),
    /// The column of an entry that is off the grid and has no bound.
    Free(u32),
}

/// A constraint on the grid and its multiplier, or the column that keeps it from the grid.
#[derive(Drop)]
enum Side {
    /// The constraint and its multiplier.
    Made(Constraint, Frac),
    /// The column of its first entry that is off the grid and has no bound.
    Free(u32),
}

/// The constraints whose multipliers are not 0, on the grid.
pub(crate) fn relaxed_sides(
    alloc: Global,
    problem: &Problem,
    forms: &[Forms],
    multipliers: &Sparse,
    grid: u64,
) -> Result<Sides, Fault>
    requires grid { 0 < grid }
    requires forms { AllZip (AreForms problem.now grid) problem.now.constraints forms.now }
    requires multipliers { length multipliers.now ≡ length problem.now.constraints }
    ensures sides { IfOk result (AreRelaxedOrFree grid problem.now multipliers.now) }
    ensures wide { result ≡ Err Fault.Wide → AreWideSides grid problem.now multipliers.now }
    ensures narrow { OnOk result (¬ AreWideSides grid problem.now multipliers.now) }
{
    let mut made = Relaxed {
        constraints: Vec::new(alloc),
        multipliers: Vec::new(alloc),
    };
    let constraints = problem.constraints.as_slice();
    let runs = multipliers.runs();
    let mut place = 0;
    for run in runs {
        let index = place + run.zeros;
        let form = form_at(forms, index);
        if let Some(column) = add_side(
            alloc,
            &mut made,
            problem,
            form,
            &constraints[index],
            run.value,
            grid,
        )? {
            return Ok(Sides::Free(column));
        }
        place = index + 1;
    }
    Ok(Sides::All(made))
}

/// The form with this index.
fn form_at(forms: &[Forms], index: usize) -> &Forms
    requires { index < length forms.now }
    ensures { result.now ≡ get_or forms.now index result.now }
{
    &forms[index]
}

/// The constraints with one more, unless its multiplier is 0; or the column that keeps it from the
/// grid.
fn add_side(
    alloc: Global,
    made: &mut Relaxed,
    problem: &Problem,
    forms: &Forms,
    constraint: &Constraint,
    multiplier: Frac,
    grid: u64,
) -> Result<Option<u32>, Fault>
    requires grid { 0 < grid }
    requires forms { AreForms problem.now grid constraint.now forms.now }
    requires count { length made.now.multipliers.items ≡ length made.now.constraints.items }
    ensures next { IfOk result (λ free. MatchOption free
        (IsNextSide problem.now grid
        (record { multiplier = multiplier; constraint = constraint.now }) made.old made.new)
        (IsFreeSide problem.now grid
        (record { multiplier = multiplier; constraint = constraint.now }))) }
    ensures wide { result ≡ Err Fault.Wide → IsWideSide problem.now grid
        (record { multiplier = multiplier; constraint = constraint.now }) }
    ensures narrow { OnOk result (¬ IsWideSide problem.now grid
        (record { multiplier = multiplier; constraint = constraint.now })) }
{
    if multiplier.num() == 0 {
        return Ok(None);
    }
    match relaxed_side(alloc, problem, forms, constraint, multiplier, grid)? {
        Side::Made(constraint, multiplier) => {
            made.add(constraint, multiplier)?;
            Ok(None)
        }
        Side::Free(column) => Ok(Some(column)),
    }
}

impl Relaxed {
    /// The constraints with one more.
    fn add(&mut self, constraint: Constraint, multiplier: Frac) -> Result<(), AllocError>
        requires { length self.now.multipliers.items ≡ length self.now.constraints.items }
        ensures count { OnOk result
            (length self.new.multipliers.items ≡ length self.new.constraints.items) }
        ensures added { OnOk result (weighted self.new.multipliers.items self.new.constraints.items
            ≡ weighted self.old.multipliers.items self.old.constraints.items
            ++ record { multiplier = multiplier; constraint = constraint } ∷ []) }
    {
        self.constraints.push(constraint)?;
        self.multipliers.push(multiplier)?;
        Ok(())
    }
}

/// A constraint whose multiplier is not 0 on the grid: as it is if it is on it, else rounded.
fn relaxed_side(
    alloc: Global,
    problem: &Problem,
    forms: &Forms,
    constraint: &Constraint,
    multiplier: Frac,
    grid: u64,
) -> Result<Side, Fault>
    requires grid { 0 < grid }
    requires forms { AreForms problem.now grid constraint.now forms.now }
    requires named { numerator multiplier ≢ pos 0 }
    ensures side { IfOk result (IsRelaxedOrFree problem.now grid
        (record { multiplier = multiplier; constraint = constraint.now })) }
    ensures wide { result ≡ Err Fault.Wide → IsWideSide problem.now grid
        (record { multiplier = multiplier; constraint = constraint.now }) }
    ensures narrow { OnOk result (¬ IsWideSide problem.now grid
        (record { multiplier = multiplier; constraint = constraint.now })) }
{
    if forms.is_on_grid {
        return Ok(Side::Made(copied(alloc, constraint)?, multiplier));
    }
    let is_turned = is_turned(constraint.sense, multiplier);
    let signed = with_sign(multiplier, is_turned);
    match forms.rounded(is_turned) {
        Some(made) => made_side(alloc, made, signed),
        None => {
            let made = rounded_with_sign(alloc, problem, constraint, is_turned, grid)?;
            made_side(alloc, &made, signed)
        }
    }
}

/// What the rounded inequality is as a side, with this multiplier.
fn made_side(alloc: Global, made: &RoundedCut, multiplier: Frac) -> Result<Side, Fault>
    ensures side { IfOk result (IsSideOf made.now multiplier) }
    ensures wide { result ≡ Err Fault.Wide → made.now ≡ Wide }
    ensures narrow { OnOk result (made.now ≢ Wide) }
{
    match made {
        RoundedCut::Cut(cut) => {
            let entries = cut.entries.as_slice().to_vec(alloc)?;
            Ok(Side::Made(
                Constraint {
                    entries: List::of(entries),
                    sense: Sense::AtLeast,
                    right: cut.right,
                },
                multiplier,
            ))
        }
        RoundedCut::Free(column) => Ok(Side::Free(*column)),
        RoundedCut::Wide => Err(Fault::Wide),
    }
}

/// The constraint once more.
fn copied(alloc: Global, constraint: &Constraint) -> Result<Constraint, AllocError>
    ensures { IfOk result (λ made. made ≡ constraint.now) }
{
    let entries = constraint.entries.as_slice().to_vec(alloc)?;
    Ok(Constraint {
        entries: List::of(entries),
        sense: constraint.sense,
        right: constraint.right,
    })
}

/// Whether the constraint is turned to be "at least"; an equation with a negative multiplier is.
fn is_turned(sense: Sense, multiplier: Frac) -> bool
    ensures { sign_of result ≡ side_of sense (numerator multiplier) }
{
    match sense {
        Sense::AtMost => true,
        Sense::AtLeast => false,
        Sense::Equal => multiplier.num() < 0,
    }
}
