//! Sums of constraints, and their slacks.
ghost use Rattle.std.specs.Prelude.{◌≡◌, ◌↔◌, List, IfOk, OnOk, IsTrue, Err, All};
ghost use Rattle.std.specs.Prelude.{length};
ghost use Rattle.std.specs.List.{AllZip};
ghost use Rattle.gj_frac.specs.Fits.{FitsProduct};
ghost use Rattle.gj_fields.specs.Rational.{Rational, rational, ◌+ℚ◌, ◌*ℚ◌, ◌-ℚ◌};
ghost use Rattle.gj_problem.specs.Problems.{IsWholeColumn, sum_at};
ghost use Rattle.gj_problem.specs.Rows.{dot, IsMultiple};
ghost use Rattle.gj_problem.specs.Aggregates.{AreMadeOf, IsAggregate, Weighted, weighted};
ghost use Rattle.gj_problem.specs.Aggregates.{HasNoSlack, IsSlack};
ghost use Rattle.gj_problem.specs.Signs.{IsSign, IsNegated};
ghost use Rattle.gj_problem.specs.Steps.{IsMadeNext};
ghost use Rattle.gj_problem.specs.Combinations.{AddsConstraint};
ghost use Rattle.gj_problem.specs.WideRows.{numbers_of, IsWideMultiple, IsWideSlack, IsWideNext};
ghost use Rattle.gj_problem.specs.WideRows.{IsWideSum};

use crate::combination::Combination;
use crate::faults::Fault;
use crate::pieces::Piece;
use crate::problem::{Constraint, Entry, Inequality, Problem, Sense};
use crate::scales::{divided, scale, with_sign};
use crate::sparse::Sparse;
use crate::sums::Sum;
use gj_frac::Frac;
use gj_shape::List;
use std::alloc::{AllocError, Global};

/// The sum of the constraints, each times its multiplier, and their slacks.
#[derive(Drop)]
pub(crate) struct Aggregate {
    /// The sum.
    pub(crate) sum: Sum,
    /// The slacks.
    pub(crate) slacks: Vec<Piece>,
}

/// The sum of the constraints, each times its multiplier, with the slacks of those that are in it.
pub(crate) fn added_up(
    alloc: Global,
    problem: &Problem,
    constraints: &[Constraint],
    multipliers: &Sparse,
) -> Result<Aggregate, Fault>
    requires { length multipliers.now ≡ length constraints.now }
    ensures sum { IfOk result (λ made.
        IsAggregate problem.now (weighted multipliers.now constraints.now)
        made.sum.coefficients.items made.sum.right) }
    ensures slacks { IfOk result (λ made.
        AreMadeOf HasNoSlack (IsSlack problem.now)
        (weighted multipliers.now constraints.now) made.slacks.items) }
    ensures wide { result ≡ Err Fault.Wide →
        IsWideSum problem.now (weighted multipliers.now constraints.now) }
    ensures narrow { OnOk result
        (¬ IsWideSum problem.now (weighted multipliers.now constraints.now)) }
{
    match added_over_one(alloc, problem, constraints, multipliers) {
        Ok(made) => Ok(made),
        Err(Fault::Wide) => added_one_by_one(alloc, problem, constraints, multipliers),
        Err(Fault::Memory(error)) => Err(Fault::Memory(error)),
    }
}

/// The sum over one denominator, and the slacks.
#[derive(Drop)]
struct Combined {
    sum: Combination,
    slacks: Vec<Piece>,
}

/// The same over one denominator. Where it is `Wide`, it may still fit in lowest terms.
fn added_over_one(
    alloc: Global,
    problem: &Problem,
    constraints: &[Constraint],
    multipliers: &Sparse,
) -> Result<Aggregate, Fault>
    requires { length multipliers.now ≡ length constraints.now }
    ensures sum { IfOk result (λ made.
        IsAggregate problem.now (weighted multipliers.now constraints.now)
        made.sum.coefficients.items made.sum.right) }
    ensures slacks { IfOk result (λ made.
        AreMadeOf HasNoSlack (IsSlack problem.now)
        (weighted multipliers.now constraints.now) made.slacks.items) }
    ensures narrow { OnOk result
        (¬ IsWideSum problem.now (weighted multipliers.now constraints.now)) }
{
    let columns = problem.columns.as_slice().len();
    let sum = Combination::for_multipliers(alloc, columns, multipliers)?;
    let mut made = Combined {
        sum,
        slacks: Vec::new(alloc),
    };
    let runs = multipliers.runs();
    let mut place = 0;
    for run in runs {
        let index = place + run.zeros;
        add_over_one(alloc, &mut made, problem, &constraints[index], run.value)?;
        place = index + 1;
    }
    let Combined { sum, slacks } = made;
    let sum = sum.sum(alloc)?;
    Ok(Aggregate { sum, slacks })
}

/// The sum over one denominator with one more constraint and its slack.
fn add_over_one(
    alloc: Global,
    made: &mut Combined,
    problem: &Problem,
    constraint: &Constraint,
    multiplier: Frac,
) -> Result<(), Fault>
    ensures sum { IfOk result (λ _. AddsConstraint problem.now made.old.sum
        (record { multiplier = multiplier; constraint = constraint.now }) made.new.sum) }
    ensures slack { IfOk result
        (λ _. let w : Weighted = record { multiplier = multiplier; constraint = constraint.now } in
        IsMadeNext (HasNoSlack w) (IsSlack problem.now w)
        made.old.slacks.items made.new.slacks.items) }
{
    if multiplier.num() == 0 {
        return Ok(());
    }
    made.sum.add(multiplier, constraint.entries.as_slice(), constraint.right)?;
    if is_equation(constraint.sense) {
        return Ok(());
    }
    let piece = slack(alloc, problem, constraint, multiplier)?;
    made.slacks.push(piece)?;
    Ok(())
}

/// The same one by one, in lowest terms.
fn added_one_by_one(
    alloc: Global,
    problem: &Problem,
    constraints: &[Constraint],
    multipliers: &Sparse,
) -> Result<Aggregate, Fault>
    requires { length multipliers.now ≡ length constraints.now }
    ensures sum { IfOk result (λ made.
        IsAggregate problem.now (weighted multipliers.now constraints.now)
        made.sum.coefficients.items made.sum.right) }
    ensures slacks { IfOk result (λ made.
        AreMadeOf HasNoSlack (IsSlack problem.now)
        (weighted multipliers.now constraints.now) made.slacks.items) }
    ensures wide { result ≡ Err Fault.Wide →
        IsWideSum problem.now (weighted multipliers.now constraints.now) }
    ensures narrow { OnOk result
        (¬ IsWideSum problem.now (weighted multipliers.now constraints.now)) }
{
    let columns = problem.columns.as_slice().len();
    let sum = Sum::of_none(alloc, columns, Frac::ratio(0, 1))?;
    let mut made = Aggregate {
        sum,
        slacks: Vec::new(alloc),
    };
    let runs = multipliers.runs();
    let mut place = 0;
    for run in runs {
        let index = place + run.zeros;
        add_weighted(alloc, &mut made, problem, &constraints[index], run.value)?;
        place = index + 1;
    }
    Ok(made)
}

/// The sum with one more constraint and its slack.
fn add_weighted(
    alloc: Global,
    made: &mut Aggregate,
    problem: &Problem,
    constraint: &Constraint,
    multiplier: Frac,
) -> Result<(), Fault>
    ensures count { IfOk result
        (λ _. length made.new.sum.coefficients.items ≡ length made.old.sum.coefficients.items) }
    ensures sum { IfOk result (λ _. (point : List Rational) →
        dot made.new.sum.coefficients.items point -ℚ rational made.new.sum.right
        ≡ (dot made.old.sum.coefficients.items point -ℚ rational made.old.sum.right)
        +ℚ rational multiplier
        *ℚ (sum_at point constraint.now.entries -ℚ rational constraint.now.right)) }
    ensures slack { IfOk result
        (λ _. let w : Weighted = record { multiplier = multiplier; constraint = constraint.now } in
        IsMadeNext (HasNoSlack w) (IsSlack problem.now w)
        made.old.slacks.items made.new.slacks.items) }
    ensures wide { result ≡ Err Fault.Wide →
        IsWideNext problem.now made.old.sum.coefficients.items made.old.sum.right
        (record { multiplier = multiplier; constraint = constraint.now }) }
    ensures narrow { OnOk result
        (¬ IsWideNext problem.now made.old.sum.coefficients.items made.old.sum.right
        (record { multiplier = multiplier; constraint = constraint.now })) }
{
    if multiplier.num() == 0 {
        return Ok(());
    }
    made.sum.add(multiplier, constraint.entries.as_slice(), constraint.right)?;
    if is_equation(constraint.sense) {
        return Ok(());
    }
    let piece = slack(alloc, problem, constraint, multiplier)?;
    made.slacks.push(piece)?;
    Ok(())
}

/// Whether the two sides are equal.
fn is_equation(sense: Sense) -> bool
    ensures { IsTrue result ↔ (sense ≡ Sense.Equal) }
{
    matches!(sense, Sense::Equal)
}

/// The slack of a constraint with a multiplier, times its scale.
fn slack(
    alloc: Global,
    problem: &Problem,
    constraint: &Constraint,
    multiplier: Frac,
) -> Result<Piece, Fault>
    ensures slack { IfOk result (IsSlack problem.now
        (record { multiplier = multiplier; constraint = constraint.now })) }
    ensures wide { result ≡ Err Fault.Wide → IsWideSlack problem.now
        (record { multiplier = multiplier; constraint = constraint.now }) }
    ensures narrow { OnOk result (¬ IsWideSlack problem.now
        (record { multiplier = multiplier; constraint = constraint.now })) }
{
    let entries = constraint.entries.as_slice();
    let is_whole = have_whole_columns(problem, entries);
    let scale = scale(constraint.right, entries, is_whole)?;
    let factor = with_sign(constraint.sense, scale);
    let entry = divided(-multiplier, factor)?;
    let inequality = times(alloc, factor, entries, constraint.right)?;
    Ok(Piece {
        entry,
        inequality,
        is_whole,
    })
}

/// Whether all columns of the entries are whole.
fn have_whole_columns(problem: &Problem, entries: &[Entry]) -> bool
    ensures { IsTrue result ↔ All (λ e. IsWholeColumn problem.now e.column) entries.now }
{
    for entry in entries {
        if !is_whole_column(problem, entry.column) {
            return false;
        }
    }
    true
}

/// Whether the column at an index is whole.
fn is_whole_column(problem: &Problem, column: u32) -> bool
    ensures { IsTrue result ↔ IsWholeColumn problem.now column }
{
    match problem.columns.as_slice().get(column as usize) {
        Some(c) => c.is_whole,
        None => false,
    }
}

/// The inequality of the entries and the right side, each times the factor.
fn times(alloc: Global, factor: Frac, entries: &[Entry], right: Frac) -> Result<Inequality, Fault>
    ensures is { IfOk result (IsMultiple (rational factor) entries.now right) }
    ensures fits { OnOk result (All (FitsProduct factor) (numbers_of right entries.now)) }
    ensures wide { result ≡ Err Fault.Wide → IsWideMultiple factor right entries.now }
{
    if is_sign(factor) {
        let inequality = with_sign_of(alloc, factor, entries, right)?;
        return Ok(inequality);
    }
    let mut scaled = Vec::with_capacity(alloc, entries.len())?;
    for entry in entries {
        let value = factor.checked_mul(entry.value)?;
        scaled.push(Entry {
            column: entry.column,
            value,
        })?;
    }
    let right = factor.checked_mul(right)?;
    Ok(Inequality {
        entries: List::of(scaled),
        right,
    })
}

/// Whether the number is 1 or -1.
fn is_sign(x: Frac) -> bool
    ensures { IsTrue result ↔ IsSign x }
{
    x.den() == 1 && (x.num() == 1 || x.num() == -1)
}

/// The inequality of the entries and the right side, each times the factor, which is 1 or -1. No
/// divisor is sought. The only error is want of memory.
fn with_sign_of(
    alloc: Global,
    factor: Frac,
    entries: &[Entry],
    right: Frac,
) -> Result<Inequality, AllocError>
    requires { IsSign factor }
    ensures { IfOk result (IsMultiple (rational factor) entries.now right) }
{
    let mut made = Vec::from_slice(alloc, entries)?;
    if factor.num() < 0 {
        negate(&mut made);
        return Ok(Inequality {
            entries: List::of(made),
            right: -right,
        });
    }
    Ok(Inequality {
        entries: List::of(made),
        right,
    })
}

/// Turns the sign of each entry.
fn negate(entries: &mut Vec<Entry>)
    ensures { AllZip IsNegated entries.old.items entries.new.items }
{
    for i in 0..entries.len() {
        let entry = entries[i];
        entries[i] = Entry {
            column: entry.column,
            value: -entry.value,
        };
    }
}
