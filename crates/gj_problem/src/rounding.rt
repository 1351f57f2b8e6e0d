//! Cuts rounded to a grid.
ghost use Rattle.std.specs.Prelude.{◌≡◌, ◌<◌, ◌↔◌, pos, IfOk, IsTrue, MatchOption, OnErr, OnOk};
ghost use Rattle.gj_fields.specs.Rational.{whole, rational, ◌-ℚ◌, ◌*ℚ◌};
ghost use Rattle.gj_problem.specs.Problems.{Holds, HasTerms};
ghost use Rattle.gj_problem.specs.Moves.{IsGridValue, IsBelowOnGrid};
ghost use Rattle.gj_problem.specs.RoundedCuts.{lower_of, upper_of};
ghost use Rattle.gj_problem.specs.RoundedCuts.{IsMoved, IsFreeEntry, IsRoundedOf, RoundedHolds};
ghost use Rattle.gj_problem.specs.RoundedCuts.{IsWideTimes, IsWideChange, IsWideMove};
ghost use Rattle.gj_problem.specs.RoundedCuts.{IsWideRounding, TellsWideRounding};
ghost use Rattle.gj_problem.specs.RoundedCuts.{RoundedHasTerms};

use crate::faults::Fault;
use crate::problem::{Entry, Inequality, Problem};
use crate::sums::push_some;
use gj_frac::{Frac, Wide};
use gj_shape::List;
use std::alloc::{AllocError, Global};

/// A rounded inequality, or why there is none.
#[derive(Drop)]
pub enum RoundedCut {
    /// The inequality.
    Cut(Inequality),
    /// The column of the first entry that is off the grid in a column without bounds.
    Free(u32),
    /// A number does not fit 128 bits.
    Wide,
}

/// The inequality with each number rounded to a multiple of 1/grid, so that it holds at each
/// feasible point if the given one does.
///
/// A coefficient goes up where its column has a lower bound, and down where it has only an upper
/// one, and is left out if it is 0 then; the right side changes by the bound times the change, and
/// goes down. `Wide` comes exactly where a number of this does not fit, up to the first coefficient
/// that is off the grid in a column without bounds. Else it is `Free` exactly if there is one. The
/// only error is want of memory.
pub fn rounded(
    alloc: Global,
    problem: &Problem,
    cut: &Inequality,
    grid: u64,
) -> Result<RoundedCut, AllocError>
    requires { 0 < grid }
    ensures is { IfOk result (IsRoundedOf problem.now grid cut.now) }
    ensures narrow { IfOk result (TellsWideRounding problem.now grid cut.now) }
    ensures holds { IfOk result (λ r. Holds problem.now cut.now → RoundedHolds problem.now r) }
    ensures terms { IfOk result
        (λ r. HasTerms problem.now cut.now → RoundedHasTerms problem.now r) }
{
    match rounded_cut(alloc, problem, cut, grid) {
        Ok(made) => Ok(made),
        Err(Fault::Wide) => Ok(RoundedCut::Wide),
        Err(Fault::Memory(error)) => Err(error),
    }
}

/// The inequality rounded.
fn rounded_cut(
    alloc: Global,
    problem: &Problem,
    cut: &Inequality,
    grid: u64,
) -> Result<RoundedCut, Fault>
    requires { 0 < grid }
    ensures is { IfOk result (IsRoundedOf problem.now grid cut.now) }
    ensures wide { result ≡ Err Fault.Wide → IsWideRounding problem.now grid cut.now }
    ensures narrow { OnOk result (¬ IsWideRounding problem.now grid cut.now) }
{
    let mut entries = Vec::new(alloc);
    let mut right = cut.right;
    for entry in cut.entries.as_slice() {
        let Some(moved) = moved_entry(problem, *entry, grid)? else {
            return Ok(RoundedCut::Free(entry.column));
        };
        right = right.checked_add(moved.shift)?;
        push_some(
            &mut entries,
            Entry {
                column: entry.column,
                value: moved.value,
            },
        )?;
    }
    let right = below_on_grid(right, grid)?;
    Ok(RoundedCut::Cut(Inequality {
        entries: List::of(entries),
        right,
    }))
}

/// A rounded coefficient, and what it adds to the right side.
#[derive(Clone, Copy)]
struct Moved {
    value: Frac,
    shift: Frac,
}

/// An entry rounded by the bounds of its column; none if it is off the grid and there is no bound.
fn moved_entry(problem: &Problem, entry: Entry, grid: u64) -> Result<Option<Moved>, Wide>
    requires { 0 < grid }
    ensures value { IfOk result (λ made. MatchOption made (IsFreeEntry problem.now grid entry)
        (λ m. IsMoved grid (lower_of problem.now entry.column) (upper_of problem.now entry.column)
        (rational entry.value) (rational m.value) (rational m.shift))) }
    ensures wide { OnErr result (IsWideMove grid (lower_of problem.now entry.column)
        (upper_of problem.now entry.column) entry.value) }
    ensures narrow { OnOk result (¬ IsWideMove grid (lower_of problem.now entry.column)
        (upper_of problem.now entry.column) entry.value) }
{
    let x = entry.value;
    match (
        lower_bound(problem, entry.column),
        upper_bound(problem, entry.column),
    ) {
        (Some(lower), _) => Ok(Some(moved_to(x, -below_on_grid(-x, grid)?, lower)?)),
        (None, Some(upper)) => Ok(Some(moved_to(x, below_on_grid(x, grid)?, upper)?)),
        (None, None) => kept(x, grid),
    }
}

/// The lower bound of a column.
fn lower_bound(problem: &Problem, column: u32) -> Option<Frac>
    ensures { result ≡ lower_of problem.now column }
{
    problem.columns.as_slice().get(column as usize)?.lower
}

/// The upper bound of a column.
fn upper_bound(problem: &Problem, column: u32) -> Option<Frac>
    ensures { result ≡ upper_of problem.now column }
{
    problem.columns.as_slice().get(column as usize)?.upper
}

/// The coefficient x rounded to this value, in a column with this bound.
fn moved_to(x: Frac, value: Frac, bound: Frac) -> Result<Moved, Wide>
    ensures value { IfOk result (λ m. m.value ≡ value) }
    ensures shift { IfOk result (λ m. rational m.shift ≡
        (rational value -ℚ rational x) *ℚ rational bound) }
    ensures wide { OnErr result (IsWideChange x value bound) }
    ensures narrow { OnOk result (¬ IsWideChange x value bound) }
{
    let change = value.checked_add(-x)?;
    let shift = change.checked_mul(bound)?;
    Ok(Moved { value, shift })
}

/// The coefficient x if it is on the grid.
fn kept(x: Frac, grid: u64) -> Result<Option<Moved>, Wide>
    ensures value { IfOk result (λ made. MatchOption made (IsGridValue grid (rational x) → ⊥)
        (λ m. IsGridValue grid (rational x) × (rational m.value ≡ rational x) ×
        (rational m.shift ≡ whole (pos 0)))) }
    ensures wide { OnErr result (IsWideTimes grid x) }
    ensures narrow { OnOk result (¬ IsWideTimes grid x) }
{
    if scaled(x, grid)?.den() == 1 {
        Ok(Some(Moved {
            value: x,
            shift: Frac::ratio(0, 1),
        }))
    } else {
        Ok(None)
    }
}

/// The greatest multiple of 1/grid that is at most x. Wide exactly if grid times x does not fit.
pub fn below_on_grid(x: Frac, grid: u64) -> Result<Frac, Wide>
    requires { 0 < grid }
    ensures value { IfOk result (λ y. IsBelowOnGrid grid (rational x) (rational y)) }
    ensures wide { OnErr result (IsWideTimes grid x) }
    ensures narrow { OnOk result (¬ IsWideTimes grid x) }
{
    let multiple = scaled(x, grid)?.floor();
    Frac::new(multiple, i128::from(grid)).ok_or(Wide)
}

/// x times the whole number.
fn scaled(x: Frac, grid: u64) -> Result<Frac, Wide>
    ensures value { IfOk result (λ s. rational s ≡ whole (pos grid) *ℚ rational x) }
    ensures wide { OnErr result (IsWideTimes grid x) }
    ensures narrow { OnOk result (¬ IsWideTimes grid x) }
{
    let n = Frac::new(i128::from(grid), 1).ok_or(Wide)?;
    n.checked_mul(x)
}
