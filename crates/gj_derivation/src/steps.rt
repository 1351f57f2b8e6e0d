//! Checks of derivations.
ghost use Rattle.std.specs.Prelude.{◌≡◌, ◌⊎◌, All, IfOk};
ghost use Rattle.std.specs.Option.{option_copied};
ghost use Rattle.gj_problem.specs.Problems.{Holds};
ghost use Rattle.gj_derivation.specs.Derivations.{with_claim, IsDerivation, IsReadyStep};
ghost use Rattle.gj_derivation.specs.StepLists.{IsWideFailure, IsChecked, TellsWide};

use crate::check::{check_step, read_bounds};
use crate::step::{Step, Verdict};
use gj_problem::{Constraint, Inequality, Problem, Sense};
use gj_shape::{List, Shape};
use std::alloc::{AllocError, Global};

/// The first step that is not accepted.
#[derive(Clone, Copy)]
pub struct Failure {
    /// The step, counted from 0.
    pub step: usize,
    /// The verdict on it. It is not `Accepted`.
    pub verdict: Verdict,
}

/// Whether the steps are a derivation, or the first that is not accepted.
#[derive(Clone, Copy)]
pub enum Checked {
    /// They are a derivation.
    Accepted,
    /// The first step that is not accepted.
    Failed(Failure),
}

/// Checks a derivation.
///
/// The steps are checked in their order. The claim of an accepted step becomes one more constraint
/// of the problem, so that later steps may name it by its line. So each claim of accepted steps
/// holds at all feasible points. A derivation is accepted, unless the verdict on a step is `Wide`,
/// which comes exactly where a number does not fit. The only error is want of memory.
pub fn check_steps(
    alloc: Global,
    function: Option<&Shape>,
    problem: Problem,
    steps: &[Step],
) -> Result<Checked, AllocError>
    requires { All (IsReadyStep (option_copied function)) steps.now }
    ensures is { IfOk result (IsChecked (option_copied function.entry) problem steps.now) }
    ensures exact { IfOk result (λ c.
        IsDerivation (option_copied function.entry) problem steps.now →
        (c ≡ Checked.Accepted) ⊎ IsWideFailure c) }
    ensures narrow { IfOk result (TellsWide (option_copied function.entry) problem steps.now) }
    ensures holds { IfOk result (λ c. c ≡ Checked.Accepted →
        All (λ s. Holds problem s.claim) steps.now) }
{
    read_bounds(function);
    let mut grown = problem;
    for (i, step) in steps.iter().enumerate() {
        match check_step(alloc, function, &grown, step)? {
            Verdict::Accepted => {}
            verdict => return Ok(Checked::Failed(Failure { step: i, verdict })),
        }
        grown = grown_by(alloc, grown, &step.claim)?;
    }
    Ok(Checked::Accepted)
}

/// The problem with the claim as one more constraint.
pub(crate) fn grown_by(
    alloc: Global,
    problem: Problem,
    claim: &Inequality,
) -> Result<Problem, AllocError>
    ensures { IfOk result (λ grown. grown ≡ with_claim problem claim.now) }
{
    let entries = Vec::from_slice(alloc, claim.entries.as_slice())?;
    let mut constraints = problem.constraints.into_vec();
    constraints.push(Constraint {
        entries: List::of(entries),
        sense: Sense::AtLeast,
        right: claim.right,
    })?;
    Ok(Problem {
        columns: problem.columns,
        constraints: List::of(constraints),
    })
}
