//! Checks of steps.
ghost use Rattle.std.specs.Prelude.{◌≡◌, ◌⊎◌, IfOk, IfSome, OnOk, Err, length};
ghost use Rattle.std.specs.Option.{option_copied};
ghost use Rattle.gj_shape.specs.FunctionData.{IsWithinBounds};
ghost use Rattle.gj_derivation.specs.declared.step.Verdict.TheVariants.{Wide as wide};
ghost use Rattle.gj_derivation.specs.Derivations.{coefficient_in, Follows, IsReady, IsReadyStep};
ghost use Rattle.gj_derivation.specs.Derivations.{IsUsableFor};
ghost use Rattle.gj_derivation.specs.Checks.{line_of_sum, IsMovedRight, IsWideFor, IsCompared};
ghost use Rattle.gj_derivation.specs.Checks.{IsVerdict};

use crate::base::{Base, base_of};
use crate::moves::{Moved, is_at_most, moved_right};
use crate::step::{Combination, Step, Verdict};
use crate::terms::sum_of_terms;
use gj_frac::Frac;
use gj_problem::{Entry, Fault, Inequality, Problem, Sum};
use gj_shape::Shape;
use std::alloc::{AllocError, Global};

/// Checks a step over the problem with the earlier claims as constraints.
///
/// `Wide` comes exactly where a number of the base, of the claim or of the moves does not fit, or
/// an entry has no column. Else the answer is `Accepted` exactly if the step follows. It takes time
/// for the entries of the constraints that are named and of the claim, and for a few passes over
/// the columns and the constraints that clear a vector or look for what is not 0. The only error
/// is want of memory.
pub fn check_step(
    alloc: Global,
    function: Option<&Shape>,
    problem: &Problem,
    step: &Step,
) -> Result<Verdict, AllocError>
    requires { IsReadyStep (option_copied function) step.now }
    ensures is { IfOk result (IsVerdict (option_copied function.entry) problem.now step.now) }
    ensures exact { IfOk result (λ v. Follows (option_copied function.entry) problem.now step.now →
        (v ≡ Verdict.Accepted) ⊎ (v ≡ Verdict.Wide)) }
    ensures narrow { IfOk result (λ v. IsVerdict (option_copied function.entry)
        problem.now step.now wide → v ≡ Verdict.Wide) }
{
    read_bounds(function);
    match verdict_of(alloc, function, problem, &step.combination, &step.claim) {
        Ok(verdict) => Ok(verdict),
        Err(Fault::Wide) => Ok(Verdict::Wide),
        Err(Fault::Memory(error)) => Err(error),
    }
}

/// Reads the function, if there is one: each is within the bounds of functions.
pub(crate) fn read_bounds(function: Option<&Shape>)
    ensures { IfSome (option_copied function.entry) IsWithinBounds }
{
    if let Some(shape) = function {
        let _order = shape.order();
    }
}

/// Checks a claim of a combination.
pub(crate) fn verdict_of(
    alloc: Global,
    function: Option<&Shape>,
    problem: &Problem,
    combination: &Combination,
    claim: &Inequality,
) -> Result<Verdict, Fault>
    requires { IsReady (option_copied function) combination.now }
    ensures is { IfOk result (IsVerdict (option_copied function.entry) problem.now
        (record { combination = combination.now; claim = claim.now })) }
    ensures wide { result ≡ Err Fault.Wide → IsVerdict (option_copied function.entry) problem.now
        (record { combination = combination.now; claim = claim.now }) wide }
    ensures narrow { OnOk result (IsUsableFor (option_copied function.entry) combination.now.rule →
        ¬ IsVerdict (option_copied function.entry) problem.now
        (record { combination = combination.now; claim = claim.now }) wide) }
{
    match base_of(alloc, function, problem, combination)? {
        Base::Line(sum) => {
            let entries = claim.entries.as_slice();
            let moved = shown_right(alloc, problem, combination.factor, &sum, entries)?;
            Ok(compared(moved, claim.right))
        }
        Base::Against(verdict) => Ok(verdict),
    }
}

/// The right side that the sum, times the factor, shows for the terms.
pub(crate) fn shown_right(
    alloc: Global,
    problem: &Problem,
    factor: Frac,
    sum: &Sum,
    entries: &[Entry],
) -> Result<Moved, Fault>
    requires { length sum.now.coefficients.items ≡ length problem.now.columns }
    ensures is { IfOk result (IsMovedRight problem.now.columns factor (line_of_sum sum.now)
        (coefficient_in entries.now)) }
    ensures wide { result ≡ Err Fault.Wide →
        IsWideFor problem.now.columns factor (line_of_sum sum.now) entries.now }
    ensures narrow { OnOk result
        (¬ IsWideFor problem.now.columns factor (line_of_sum sum.now) entries.now) }
{
    let columns = problem.columns.as_slice();
    let terms = sum_of_terms(alloc, columns.len(), entries, Frac::ratio(0, 1))?;
    let moved = moved_right(columns, factor, sum, terms.coefficients.as_slice())?;
    Ok(moved)
}

/// Compares the right side of a claim with the one that is shown.
fn compared(moved: Moved, right: Frac) -> Verdict
    ensures { IsCompared moved right result }
{
    match moved {
        Moved::Bound(column) => Verdict::Bound(column),
        Moved::Right(shown) => {
            if is_at_most(right, shown) {
                Verdict::Accepted
            } else {
                Verdict::Right(shown)
            }
        }
    }
}
