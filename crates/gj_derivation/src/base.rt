//! What a step makes of the constraints that it adds up.
ghost use Rattle.std.specs.Prelude.{◌≡◌, ◌↔◌, ◌<◌, All, IfOk, IsTrue, MatchOption};
ghost use Rattle.std.specs.Prelude.{OnErr, OnOk, Err, length};
ghost use Rattle.std.specs.Option.{option_copied};
ghost use Rattle.gj_frac.specs.Fraction.{numerator};
ghost use Rattle.gj_safe_cut.specs.SafeCuts.{SafeCutHasTerms, TellsWide};
ghost use Rattle.gj_derivation.specs.declared.step.Verdict.TheVariants.{Wide as wide};
ghost use Rattle.gj_derivation.specs.Derivations.{AreMultipliers, AreAtUpper, HasFunctionFor};
ghost use Rattle.gj_derivation.specs.Derivations.{IsSigned, AreSigned, IsSignIn, IsCutBy};
ghost use Rattle.gj_derivation.specs.Checks.{IsBaseless, IsBaseOf, IsBaseFrom, IsFirstUnsigned};
ghost use Rattle.gj_derivation.specs.Checks.{IsSumOf, IsAdded, IsWideAddition, IsWideAdded};
ghost use Rattle.gj_derivation.specs.Checks.{IsWideNamed};

use crate::step::{Combination, Multiplier, StepRule, Verdict};
use crate::terms::sum_of_terms;
use gj_frac::{Frac, Wide};
use gj_problem::{Fault, Problem, Sense, Sparse, Sum};
use gj_safe_cut::{SafeCut, function_safe_cut, gmic_safe_cut};
use gj_shape::Shape;
use std::alloc::{AllocError, Global};

/// What is made of the constraints that are added up, or what stands against it.
#[derive(Drop)]
pub(crate) enum Base {
    /// The inequality, over all columns.
    Line(Sum),
    /// What stands against it.
    Against(Verdict),
}

/// The sum of the constraints that are added up, or the cut of their row.
pub(crate) fn base_of(
    alloc: Global,
    function: Option<&Shape>,
    problem: &Problem,
    combination: &Combination,
) -> Result<Base, Fault>
    requires { HasFunctionFor (option_copied function) combination.now.rule }
    ensures is { IfOk result
        (IsBaseOf (option_copied function.entry) problem.now combination.now) }
    ensures wide { result ≡ Err Fault.Wide →
        IsBaseless (option_copied function.entry) problem.now combination.now wide }
    ensures narrow { OnOk result
        (¬ IsBaseless (option_copied function.entry) problem.now combination.now wide) }
{
    let multipliers = combination.multipliers.as_slice();
    if let Some(line) = first_unsigned(combination.rule, problem, multipliers) {
        return Ok(Base::Against(Verdict::Sign(line)));
    }
    if is_linear(combination.rule) {
        Ok(Base::Line(sum_of(alloc, problem, multipliers)?))
    } else {
        cut_base(alloc, function, problem, combination)
    }
}

/// Whether the rule is the linear one.
fn is_linear(rule: StepRule) -> bool
    ensures { IsTrue result ↔ (rule ≡ StepRule.Linear) }
{
    match rule {
        StepRule::Linear => true,
        StepRule::Gmic => false,
        StepRule::Function => false,
    }
}

// ---- signs

/// The line of the first multiplier that has not its sign, or no constraint.
fn first_unsigned(rule: StepRule, problem: &Problem, multipliers: &[Multiplier]) -> Option<usize>
    ensures { MatchOption result (AreSigned rule problem.now multipliers.now)
        (IsFirstUnsigned rule problem.now multipliers.now) }
{
    for multiplier in multipliers {
        if !is_signed(rule, problem, *multiplier) {
            return Some(multiplier.line);
        }
    }
    None
}

/// Whether it is a multiplier of a constraint, with the sign that the rule asks for.
fn is_signed(rule: StepRule, problem: &Problem, multiplier: Multiplier) -> bool
    ensures { IsTrue result ↔ IsSigned rule problem.now multiplier }
{
    match problem.constraints.as_slice().get(multiplier.line) {
        Some(constraint) => has_sign(rule, constraint.sense, multiplier.value),
        None => false,
    }
}

/// Whether the multiplier has the sign that the rule asks for.
fn has_sign(rule: StepRule, sense: Sense, multiplier: Frac) -> bool
    ensures { IsTrue result ↔ IsSignIn rule sense (numerator multiplier) }
{
    match (rule, sense) {
        (StepRule::Linear, Sense::AtMost) => multiplier.num() <= 0,
        (StepRule::Linear, Sense::AtLeast) => multiplier.num() >= 0,
        (StepRule::Linear, Sense::Equal) => true,
        (StepRule::Gmic, _) => true,
        (StepRule::Function, _) => true,
    }
}

// ---- sums

/// The sum of the constraints, each times its multiplier.
fn sum_of(alloc: Global, problem: &Problem, multipliers: &[Multiplier]) -> Result<Sum, Fault>
    requires { AreSigned StepRule.Linear problem.now multipliers.now }
    ensures is { IfOk result (IsSumOf problem.now multipliers.now) }
    ensures wide { result ≡ Err Fault.Wide → IsWideAdded problem.now multipliers.now }
    ensures narrow { OnOk result (¬ IsWideAdded problem.now multipliers.now) }
{
    let mut sum = Sum::of_none(alloc, problem.columns.as_slice().len(), Frac::ratio(0, 1))?;
    for multiplier in multipliers {
        add_constraint(problem, *multiplier, &mut sum)?;
    }
    Ok(sum)
}

/// Adds the constraint times its multiplier.
fn add_constraint(problem: &Problem, multiplier: Multiplier, sum: &mut Sum) -> Result<(), Wide>
    requires { multiplier.line < length problem.now.constraints }
    ensures count { length sum.new.coefficients.items ≡ length sum.old.coefficients.items }
    ensures added { IfOk result (λ _. IsAdded problem.now multiplier sum.old sum.new) }
    ensures wide { OnErr result (IsWideAddition problem.now multiplier sum.old) }
    ensures narrow { OnOk result (¬ IsWideAddition problem.now multiplier sum.old) }
{
    let constraint = &problem.constraints.as_slice()[multiplier.line];
    sum.add(
        multiplier.value,
        constraint.entries.as_slice(),
        constraint.right,
    )
}

// ---- cuts

/// The cut of the row of the multipliers.
fn cut_base(
    alloc: Global,
    function: Option<&Shape>,
    problem: &Problem,
    combination: &Combination,
) -> Result<Base, Fault>
    requires rule { combination.now.rule ≡ StepRule.Linear → ⊥ }
    requires function { HasFunctionFor (option_copied function) combination.now.rule }
    requires signed { AreSigned combination.now.rule problem.now combination.now.multipliers }
    ensures is { IfOk result
        (IsBaseOf (option_copied function.entry) problem.now combination.now) }
    ensures wide { result ≡ Err Fault.Wide →
        IsBaseless (option_copied function.entry) problem.now combination.now wide }
    ensures narrow { OnOk result
        (¬ IsBaseless (option_copied function.entry) problem.now combination.now wide) }
{
    let multipliers = multipliers_of(alloc, problem, combination.multipliers.as_slice())?;
    let at_upper = flags_of(alloc, problem, combination.at_upper.as_slice())?;
    let cut = cut_by(
        alloc,
        combination.rule,
        function,
        problem,
        &multipliers,
        at_upper.as_slice(),
    )?;
    base_from(alloc, problem, cut)
}

/// The cut by the rule.
fn cut_by(
    alloc: Global,
    rule: StepRule,
    function: Option<&Shape>,
    problem: &Problem,
    multipliers: &Sparse,
    at_upper: &[bool],
) -> Result<SafeCut, AllocError>
    requires rule { rule ≡ StepRule.Linear → ⊥ }
    requires function { HasFunctionFor (option_copied function) rule }
    requires multipliers { length multipliers.now ≡ length problem.now.constraints }
    requires at_upper { length at_upper.now ≡ length problem.now.columns }
    ensures is { IfOk result
        (IsCutBy rule (option_copied function.entry) problem.now multipliers.now at_upper.now) }
    ensures narrow { IfOk result (TellsWide
        (IsCutBy rule (option_copied function.entry) problem.now multipliers.now at_upper.now)) }
    ensures terms { IfOk result (SafeCutHasTerms problem.now) }
{
    match (rule, function) {
        (StepRule::Gmic, _) => gmic_safe_cut(alloc, problem, multipliers, at_upper),
        (StepRule::Function, Some(shape)) => {
            function_safe_cut(alloc, shape, problem, multipliers, at_upper)
        }
        (StepRule::Function, None) | (StepRule::Linear, _) => unreachable!(),
    }
}

/// The cut as an inequality over all columns, or why there is none.
fn base_from(alloc: Global, problem: &Problem, cut: SafeCut) -> Result<Base, Fault>
    requires { SafeCutHasTerms problem.now cut }
    ensures is { IfOk result (IsBaseFrom (length problem.now.columns) cut) }
    ensures wide { result ≡ Err Fault.Wide → cut ≡ SafeCut.Wide }
    ensures narrow { OnOk result (¬ (cut ≡ SafeCut.Wide)) }
{
    match cut {
        SafeCut::Cut(q) => {
            let columns = problem.columns.as_slice().len();
            let sum = sum_of_terms(alloc, columns, q.entries.as_slice(), q.right)?;
            Ok(Base::Line(sum))
        }
        SafeCut::Integral => Ok(Base::Against(Verdict::Integral)),
        SafeCut::OtherFraction => Ok(Base::Against(Verdict::Other)),
        SafeCut::Free(column) => Ok(Base::Against(Verdict::Free(column))),
        SafeCut::Wide => Err(Fault::Wide),
    }
}

/// The multiplier of each constraint: 0 for those that are not named.
fn multipliers_of(alloc: Global, problem: &Problem, named: &[Multiplier]) -> Result<Sparse, Fault>
    requires { All (λ m. m.line < length problem.now.constraints) named.now }
    ensures are { IfOk result (λ v. AreMultipliers problem.now named.now v) }
    ensures wide { result ≡ Err Fault.Wide → IsWideNamed named.now }
    ensures narrow { OnOk result (¬ IsWideNamed named.now) }
{
    let count = problem.constraints.as_slice().len();
    let mut multipliers = vec![in alloc; Frac::ratio(0, 1); count]?;
    for multiplier in named {
        let sum = multipliers[multiplier.line].checked_add(multiplier.value)?;
        multipliers[multiplier.line] = sum;
    }
    let multipliers = Sparse::of(alloc, multipliers.as_slice())?;
    Ok(multipliers)
}

/// Whether each column is named.
fn flags_of(alloc: Global, problem: &Problem, named: &[u32]) -> Result<Vec<bool>, AllocError>
    ensures { IfOk result (λ v. AreAtUpper problem.now named.now v.items) }
{
    let columns = problem.columns.as_slice().len();
    let mut flags = vec![in alloc; false; columns]?;
    for column in named {
        let column = *column as usize;
        if column < columns {
            flags[column] = true;
        }
    }
    Ok(flags)
}
