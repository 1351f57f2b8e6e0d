//! Claims found for drafts.
ghost use Rattle.std.specs.Prelude.{◌≡◌, ◌<◌, ◌^◌, ℕ, All, IfOk, IfSome, MatchOption, None, Err};
ghost use Rattle.std.specs.Prelude.{OnOk, length, slice_index_or};
ghost use Rattle.std.specs.Option.{option_copied};
ghost use Rattle.gj_fields.specs.Rational.{rational};
ghost use Rattle.gj_problem.specs.Problems.{AreTermsWithin};
ghost use Rattle.gj_derivation.specs.declared.step.Verdict.TheVariants.{Wide as wide};
ghost use Rattle.gj_derivation.specs.declared.draft.Shown.TheVariants.{Against};
ghost use Rattle.gj_derivation.specs.declared.draft.Claim.TheVariants.{Absent, Terms, Given};
ghost use Rattle.gj_derivation.specs.Derivations.{coefficient_in, IsReady, IsUsableFor};
ghost use Rattle.gj_derivation.specs.Checks.{claimed_at, line_of_sum};
ghost use Rattle.gj_derivation.specs.Drafts.{IsFoundIn, IsWideFinding, IsFilled, IsAgainst};
ghost use Rattle.gj_derivation.specs.Drafts.{IsShownBy, IsDerivedBy, DerivedIsDerivation};
ghost use Rattle.gj_derivation.specs.Drafts.{begun, reach, IsPlaced, IsLost, Ends};
ghost use Rattle.gj_derivation.specs.Drafts.{TellWide, told_by};

use crate::base::{Base, base_of};
use crate::check::{read_bounds, shown_right, verdict_of};
use crate::draft::{Claim, Derived, Draft, Filled, Reached, Shown};
use crate::moves::{Moved, moved_right};
use crate::step::{Combination, Multiplier, Step, Verdict};
use crate::steps::{Failure, grown_by};
use crate::terms::{Found, found_terms};
use gj_frac::Frac;
use gj_problem::{Entry, Fault, Inequality, Problem, Sum};
use gj_shape::{List, Shape};
use std::alloc::{AllocError, Global};

/// The step of a draft over the problem, whose constraints are its lines.
///
/// A claim that is absent gets the terms that are shown, times the factor, with no 0 and the
/// columns ascending, and the right side that is shown for them. With a grid N each coefficient
/// goes to a multiple of 1/N, up where the column has a lower bound, and down where it has only an
/// upper one. Terms get the greatest right side that they may have. A claim that is given is
/// checked. The only error is want of memory.
pub fn derived_step(
    alloc: Global,
    function: Option<&Shape>,
    problem: &Problem,
    draft: &Draft,
    grid: Option<u32>,
) -> Result<Shown, AllocError>
    requires ready { IsReady (option_copied function) draft.now.combination }
    requires grid { IfSome grid (λ n. 0 < n) }
    ensures is { IfOk result (IsShownBy (option_copied function.entry) grid problem.now
        draft.now.combination draft.now.claim) }
    ensures narrow { IfOk result (λ x. IsAgainst (option_copied function.entry) grid problem.now
        draft.now.combination draft.now.claim wide → x ≡ Against wide) }
{
    read_bounds(function);
    let combination = copied(alloc, &draft.combination)?;
    shown_by(alloc, function, problem, combination, &draft.claim, grid)
}

/// The step of a combination with this claim.
fn shown_by(
    alloc: Global,
    function: Option<&Shape>,
    problem: &Problem,
    combination: Combination,
    claim: &Claim,
    grid: Option<u32>,
) -> Result<Shown, AllocError>
    requires ready { IsReady (option_copied function) combination }
    requires grid { IfSome grid (λ n. 0 < n) }
    ensures is { IfOk result (IsShownBy (option_copied function.entry) grid problem.now
        combination claim.now) }
    ensures narrow { IfOk result (λ x. IsUsableFor (option_copied function.entry) combination.rule →
        IsAgainst (option_copied function.entry) grid problem.now
        combination claim.now wide → x ≡ Against wide) }
{
    match filled(alloc, function, problem, &combination, claim, grid) {
        Ok(Filled::Claim(claim)) => Ok(Shown::Step(Step { combination, claim })),
        Ok(Filled::Against(verdict)) => Ok(Shown::Against(verdict)),
        Err(Fault::Wide) => Ok(Shown::Against(Verdict::Wide)),
        Err(Fault::Memory(error)) => Err(error),
    }
}

// ---- claims

/// The claim of a combination.
fn filled(
    alloc: Global,
    function: Option<&Shape>,
    problem: &Problem,
    combination: &Combination,
    claim: &Claim,
    grid: Option<u32>,
) -> Result<Filled, Fault>
    requires ready { IsReady (option_copied function) combination.now }
    requires grid { IfSome grid (λ n. 0 < n) }
    ensures is { IfOk result (IsFilled (option_copied function.entry) grid problem.now
        combination.now claim.now) }
    ensures wide { result ≡ Err Fault.Wide → IsAgainst (option_copied function.entry)
        grid problem.now combination.now claim.now wide }
    ensures narrow { OnOk result (IsUsableFor (option_copied function.entry) combination.now.rule →
        ¬ IsAgainst (option_copied function.entry)
        grid problem.now combination.now claim.now wide) }
{
    match claim {
        Claim::Absent => found_claim(alloc, function, problem, combination, grid),
        Claim::Terms(entries) => {
            claim_with(alloc, function, problem, combination, entries.as_slice())
        }
        Claim::Given(claim) => given_claim(alloc, function, problem, combination, claim),
    }
}

/// The terms that are found, with the right side that is shown for them.
fn found_claim(
    alloc: Global,
    function: Option<&Shape>,
    problem: &Problem,
    combination: &Combination,
    grid: Option<u32>,
) -> Result<Filled, Fault>
    requires ready { IsReady (option_copied function) combination.now }
    requires grid { IfSome grid (λ n. 0 < n) }
    ensures is { IfOk result (IsFilled (option_copied function.entry) grid problem.now
        combination.now Absent) }
    ensures wide { result ≡ Err Fault.Wide → IsAgainst (option_copied function.entry)
        grid problem.now combination.now Absent wide }
    ensures narrow { OnOk result (IsUsableFor (option_copied function.entry) combination.now.rule →
        ¬ IsAgainst (option_copied function.entry)
        grid problem.now combination.now Absent wide) }
{
    match base_of(alloc, function, problem, combination)? {
        Base::Line(sum) => found_in(alloc, problem, combination.factor, &sum, grid),
        Base::Against(verdict) => Ok(Filled::Against(verdict)),
    }
}

/// The terms that are found for a sum, with the right side that it shows for them.
fn found_in(
    alloc: Global,
    problem: &Problem,
    factor: Frac,
    sum: &Sum,
    grid: Option<u32>,
) -> Result<Filled, Fault>
    requires sum { length sum.now.coefficients.items ≡ length problem.now.columns }
    requires grid { IfSome grid (λ n. 0 < n) }
    ensures is { IfOk result
        (IsFoundIn grid problem.now.columns factor (line_of_sum sum.now)) }
    ensures wide { result ≡ Err Fault.Wide →
        IsWideFinding grid problem.now.columns factor (line_of_sum sum.now) }
    ensures narrow { OnOk result
        (¬ IsWideFinding grid problem.now.columns factor (line_of_sum sum.now)) }
{
    let columns = problem.columns.as_slice();
    match found_terms(alloc, columns, factor, sum, grid)? {
        Found::Terms(terms) => {
            let Moved::Right(right) = moved_right(columns, factor, sum, terms.as_slice())? else {
                unreachable!();
            };
            Ok(Filled::Claim(claim_from(alloc, terms, right)?))
        }
        Found::Bound(column) => Ok(Filled::Against(Verdict::Bound(column))),
    }
}

/// The inequality of these coefficients against the right side. Wide exactly if there are more than
/// 2^32 columns.
fn claim_from(alloc: Global, terms: Vec<Frac>, right: Frac) -> Result<Inequality, Fault>
    ensures terms { IfOk result (λ q.
        AreTermsWithin 0 (length terms.items) q.entries) }
    ensures right { IfOk result (λ q. rational q.right ≡ rational right) }
    ensures coefficients { IfOk result (λ q. (j : ℕ) →
        coefficient_in q.entries j ≡ claimed_at terms.items j) }
    ensures wide { result ≡ Err Fault.Wide → 2 ^ 32 < length terms.items }
    ensures narrow { OnOk result (¬ (2 ^ 32 < length terms.items)) }
{
    let sum = Sum {
        coefficients: terms,
        right,
    };
    match sum.inequality(alloc)? {
        Some(claim) => Ok(claim),
        None => Err(Fault::Wide),
    }
}

/// The terms, with the greatest right side that they may have.
fn claim_with(
    alloc: Global,
    function: Option<&Shape>,
    problem: &Problem,
    combination: &Combination,
    entries: &[Entry],
) -> Result<Filled, Fault>
    requires { IsReady (option_copied function) combination.now }
    ensures is { IfOk result (IsFilled (option_copied function.entry) None problem.now
        combination.now (Terms entries.now)) }
    ensures wide { result ≡ Err Fault.Wide → IsAgainst (option_copied function.entry)
        None problem.now combination.now (Terms entries.now) wide }
    ensures narrow { OnOk result (IsUsableFor (option_copied function.entry) combination.now.rule →
        ¬ IsAgainst (option_copied function.entry)
        None problem.now combination.now (Terms entries.now) wide) }
{
    match base_of(alloc, function, problem, combination)? {
        Base::Line(sum) => {
            match shown_right(alloc, problem, combination.factor, &sum, entries)? {
                Moved::Right(right) => Ok(Filled::Claim(Inequality {
                    entries: List::of(Vec::from_slice(alloc, entries)?),
                    right,
                })),
                Moved::Bound(column) => Ok(Filled::Against(Verdict::Bound(column))),
            }
        }
        Base::Against(verdict) => Ok(Filled::Against(verdict)),
    }
}

/// The claim that is given, if it follows.
fn given_claim(
    alloc: Global,
    function: Option<&Shape>,
    problem: &Problem,
    combination: &Combination,
    claim: &Inequality,
) -> Result<Filled, Fault>
    requires { IsReady (option_copied function) combination.now }
    ensures is { IfOk result (IsFilled (option_copied function.entry) None problem.now
        combination.now (Given claim.now)) }
    ensures wide { result ≡ Err Fault.Wide → IsAgainst (option_copied function.entry)
        None problem.now combination.now (Given claim.now) wide }
    ensures narrow { OnOk result (IsUsableFor (option_copied function.entry) combination.now.rule →
        ¬ IsAgainst (option_copied function.entry)
        None problem.now combination.now (Given claim.now) wide) }
{
    match verdict_of(alloc, function, problem, combination, claim)? {
        Verdict::Accepted => Ok(Filled::Claim(Inequality {
            entries: List::of(Vec::from_slice(alloc, claim.entries.as_slice())?),
            right: claim.right,
        })),
        verdict => Ok(Filled::Against(verdict)),
    }
}

/// A copy of the combination.
fn copied(alloc: Global, combination: &Combination) -> Result<Combination, AllocError>
    ensures { IfOk result (λ c. c ≡ combination.now) }
{
    let multipliers = Vec::from_slice(alloc, combination.multipliers.as_slice())?;
    let at_upper = Vec::from_slice(alloc, combination.at_upper.as_slice())?;
    Ok(Combination {
        rule: combination.rule,
        multipliers: List::of(multipliers),
        at_upper: List::of(at_upper),
        factor: combination.factor,
    })
}

// ---- drafts in their order

/// The steps of drafts, in their order.
///
/// The lines that drafts name are the constraints of the problem, and then the drafts. A draft that
/// shows nothing is left out, and the lines of those behind it move up in the steps. The only error
/// is want of memory.
pub fn derived_steps(
    alloc: Global,
    function: Option<&Shape>,
    problem: Problem,
    drafts: &[Draft],
    grid: Option<u32>,
) -> Result<Derived, AllocError>
    requires ready { All (λ d. IsReady (option_copied function) d.combination) drafts.now }
    requires grid { IfSome grid (λ n. 0 < n) }
    ensures is { IfOk result (IsDerivedBy (option_copied function.entry) grid problem drafts.now) }
    ensures narrow { IfOk result (λ d. TellWide (option_copied function.entry) grid
        (begun problem) drafts.now (told_by d)) }
    ensures derivation { IfOk result (DerivedIsDerivation (option_copied function.entry) problem) }
{
    read_bounds(function);
    let mut reached = begun_at(alloc, problem)?;
    let mut shown = Vec::new(alloc);
    for (i, draft) in drafts.iter().enumerate() {
        let Some(combination) = placed(alloc, &reached, &draft.combination)? else {
            return Ok(Derived::Lost(i, List::of(shown)));
        };
        let claim = &draft.claim;
        let next = shown_by(alloc, function, &reached.problem, combination, claim, grid)?;
        if let Some(verdict) = end_of(claim, &next) {
            let failure = Failure { step: i, verdict };
            return Ok(Derived::Failed(failure, List::of(shown)));
        }
        reached = reached_with(alloc, reached, &next)?;
        shown.push(next)?;
    }
    Ok(Derived::All(List::of(shown)))
}

/// What is reached before the first draft.
fn begun_at(alloc: Global, problem: Problem) -> Result<Reached, AllocError>
    ensures { IfOk result (λ r. r ≡ begun problem) }
{
    let mut lines = Vec::new(alloc);
    for i in 0..problem.constraints.as_slice().len() {
        lines.push(Some(i))?;
    }
    Ok(Reached {
        problem,
        lines: List::of(lines),
    })
}

/// The combination with the constraints of the problem that is reached in the place of the lines of
/// drafts; none if it names a line that is left out or not reached.
fn placed(
    alloc: Global,
    reached: &Reached,
    combination: &Combination,
) -> Result<Option<Combination>, AllocError>
    ensures { IfOk result (λ made. MatchOption made (IsLost reached.now combination.now)
        (IsPlaced reached.now combination.now)) }
{
    let mut multipliers = Vec::new(alloc);
    for multiplier in combination.multipliers.as_slice() {
        let Some(line) = constraint_of(reached.lines.as_slice(), multiplier.line) else {
            return Ok(None);
        };
        multipliers.push(Multiplier {
            line,
            value: multiplier.value,
        })?;
    }
    let at_upper = Vec::from_slice(alloc, combination.at_upper.as_slice())?;
    Ok(Some(Combination {
        rule: combination.rule,
        multipliers: List::of(multipliers),
        at_upper: List::of(at_upper),
        factor: combination.factor,
    }))
}

/// The constraint of a line of drafts.
fn constraint_of(lines: &[Option<usize>], line: usize) -> Option<usize>
    ensures { result ≡ slice_index_or lines.now line None }
{
    *lines.get(line)?
}

/// The verdict that ends the steps: that on a claim that is given and does not follow.
fn end_of(claim: &Claim, shown: &Shown) -> Option<Verdict>
    ensures { MatchOption result (Ends claim.now shown.now → ⊥)
        (λ v. (shown.now ≡ Against v) × Ends claim.now shown.now) }
{
    match (claim, shown) {
        (Claim::Given(_), Shown::Against(verdict)) => Some(*verdict),
        _ => None,
    }
}

/// What is reached with one more draft.
fn reached_with(alloc: Global, reached: Reached, shown: &Shown) -> Result<Reached, AllocError>
    ensures { IfOk result (λ r. r ≡ reach reached shown.now) }
{
    let Reached { problem, mut lines } = reached;
    match shown {
        Shown::Step(step) => {
            lines.push(Some(problem.constraints.as_slice().len()))?;
            Ok(Reached {
                problem: grown_by(alloc, problem, &step.claim)?,
                lines,
            })
        }
        Shown::Against(_) => {
            lines.push(None)?;
            Ok(Reached { problem, lines })
        }
    }
}
