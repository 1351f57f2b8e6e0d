//! Problems with their data on a grid.
ghost use Rattle.std.specs.Prelude.{◌≡◌, ◌<◌, IfOk, OnOk, Err, length};
ghost use Rattle.gj_relaxed.specs.RelaxedProblems.{IsRelaxedOf, IsWideRelaxing};
ghost use Rattle.gj_relaxed.specs.RelaxedForms.{ArePartsOf};

use crate::forms::RelaxedParts;
use crate::sides::{Sides, relaxed_sides};
use gj_frac::Frac;
use gj_problem::{Fault, Problem, Sparse};
use gj_shape::List;
use std::alloc::Global;

/// A problem on the grid with a multiplier for each of its constraints, or a column that keeps a
/// constraint from it.
#[derive(Drop)]
pub enum RelaxedProblem {
    /// The constraints whose multipliers are not 0, on the grid, and their multipliers.
    Problem(Problem, Vec<Frac>),
    /// The column of the first entry that is off the grid and has no bound.
    Free(u32),
}

/// The problem with its data on the grid of all k/grid, so that each feasible point stays feasible.
///
/// The bounds of continuous columns go outwards, and whole columns stay. Only the constraints whose
/// multipliers are not 0 are kept. One that is on the grid stays; any other becomes an inequality
/// "at least", rounded by the bounds of its columns, and its multiplier has the sign for that.
/// The parts are those of the problem on the grid. `Wide` comes exactly where a number of this does
/// not fit, up to the first constraint that a column keeps from the grid. `Memory` is for want of
/// memory.
pub fn relaxed_problem(
    alloc: Global,
    problem: &Problem,
    parts: &RelaxedParts,
    multipliers: &Sparse,
    grid: u32,
) -> Result<RelaxedProblem, Fault>
    requires grid { 0 < grid }
    requires parts { ArePartsOf grid problem.now parts.now }
    requires multipliers { length multipliers.now ≡ length problem.now.constraints }
    ensures relaxed { IfOk result (IsRelaxedOf grid problem.now multipliers.now) }
    ensures wide { result ≡ Err Fault.Wide → IsWideRelaxing grid problem.now multipliers.now }
    ensures narrow { OnOk result (¬ IsWideRelaxing grid problem.now multipliers.now) }
{
    let grid = u64::from(grid);
    let Some(columns) = &parts.columns else {
        return Err(Fault::Wide);
    };
    let sides = relaxed_sides(alloc, problem, parts.forms.as_slice(), multipliers, grid)?;
    Ok(match sides {
        Sides::All(made) => RelaxedProblem::Problem(
            Problem {
                columns: List::of(columns.as_slice().to_vec(alloc)?),
                constraints: List::of(made.constraints),
            },
            made.multipliers,
        ),
        Sides::Free(column) => RelaxedProblem::Free(column),
    })
}
