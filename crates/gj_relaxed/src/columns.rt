//! Columns with their bounds on a grid.
ghost use Rattle.std.specs.Prelude.{◌≡◌, ◌<◌, IfOk, OnOk, OnErr, Err};
ghost use Rattle.std.specs.List.{AllZip};
ghost use Rattle.gj_fields.specs.Rational.{rational, neg_ℚ};
ghost use Rattle.gj_problem.specs.Moves.{IsBelowOnGrid};
ghost use Rattle.gj_relaxed.specs.RelaxedProblems.{IsLowered, IsLifted, IsRelaxedColumn};
ghost use Rattle.gj_relaxed.specs.RelaxedProblems.{IsWideBound, IsWideLifted, IsWideLifting};
ghost use Rattle.gj_relaxed.specs.RelaxedProblems.{IsWideColumn, AreWideColumns};

use gj_frac::{Frac, Wide};
use gj_problem::{Column, Fault, below_on_grid};
use std::alloc::Global;

/// The columns, the bounds of continuous ones taken outwards to the grid of all k/grid.
pub(crate) fn relaxed_columns(
    alloc: Global,
    columns: &[Column],
    grid: u64,
) -> Result<Vec<Column>, Fault>
    requires { 0 < grid }
    ensures columns { IfOk result (λ made.
        AllZip (IsRelaxedColumn grid) columns.now made.items) }
    ensures wide { result ≡ Err Fault.Wide → AreWideColumns grid columns.now }
    ensures narrow { OnOk result (¬ AreWideColumns grid columns.now) }
{
    let mut made = Vec::new(alloc);
    for column in columns {
        made.push(relaxed_column(*column, grid)?)?;
    }
    Ok(made)
}

/// A whole column as it is, or a continuous one with its bounds outwards on the grid.
fn relaxed_column(column: Column, grid: u64) -> Result<Column, Wide>
    requires { 0 < grid }
    ensures column { IfOk result (IsRelaxedColumn grid column) }
    ensures wide { OnErr result (IsWideColumn grid column) }
    ensures narrow { OnOk result (¬ IsWideColumn grid column) }
{
    if column.is_whole {
        return Ok(column);
    }
    let lower = lowered(column.lower, grid)?;
    let upper = lifted(column.upper, grid)?;
    Ok(Column {
        is_whole: false,
        lower,
        upper,
    })
}

/// A lower bound, if there is one, down on the grid.
fn lowered(bound: Option<Frac>, grid: u64) -> Result<Option<Frac>, Wide>
    requires { 0 < grid }
    ensures bound { IfOk result (IsLowered grid bound) }
    ensures wide { OnErr result (IsWideBound grid bound) }
    ensures narrow { OnOk result (¬ IsWideBound grid bound) }
{
    match bound {
        Some(x) => Ok(Some(below_on_grid(x, grid)?)),
        None => Ok(None),
    }
}

/// An upper bound, if there is one, up on the grid.
fn lifted(bound: Option<Frac>, grid: u64) -> Result<Option<Frac>, Wide>
    requires { 0 < grid }
    ensures bound { IfOk result (IsLifted grid bound) }
    ensures wide { OnErr result (IsWideLifting grid bound) }
    ensures narrow { OnOk result (¬ IsWideLifting grid bound) }
{
    match bound {
        Some(x) => Ok(Some(above_on_grid(x, grid)?)),
        None => Ok(None),
    }
}

/// The least multiple of 1/grid that is at least x. Wide exactly if grid times -x does not fit.
pub(crate) fn above_on_grid(x: Frac, grid: u64) -> Result<Frac, Wide>
    requires { 0 < grid }
    ensures above { IfOk result
        (λ y. IsBelowOnGrid grid (neg_ℚ (rational x)) (neg_ℚ (rational y))) }
    ensures wide { OnErr result (IsWideLifted grid x) }
    ensures narrow { OnOk result (¬ IsWideLifted grid x) }
{
    Ok(-below_on_grid(-x, grid)?)
}
