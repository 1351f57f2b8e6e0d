//! Terms over all columns, given or found.
ghost use Rattle.std.specs.Prelude.{◌≡◌, ◌<◌, Some, IfOk, IfSome, OnErr, OnOk, Err};
ghost use Rattle.std.specs.Prelude.{length};
ghost use Rattle.gj_fields.specs.Rational.{rational, ◌*ℚ◌};
ghost use Rattle.gj_derivation.specs.Derivations.{coefficient_in, times};
ghost use Rattle.gj_derivation.specs.Checks.{IsSumFor, IsWideTerms, line_of_sum};
ghost use Rattle.gj_derivation.specs.Drafts.{IsFoundOrNone, IsFound, IsWideGrid, IsWideFoundAt};
ghost use Rattle.gj_derivation.specs.Drafts.{IsWideFound};

use crate::moves::is_zero;
use gj_frac::{Frac, Wide};
use gj_problem::{Column, Entry, Fault, Sum, below_on_grid};
use std::alloc::Global;

/// The terms over all columns, against this right side.
pub(crate) fn sum_of_terms(
    alloc: Global,
    columns: usize,
    entries: &[Entry],
    right: Frac,
) -> Result<Sum, Fault>
    ensures is { IfOk result (IsSumFor columns
        (record { coefficient = coefficient_in entries.now; right = rational right })) }
    ensures wide { result ≡ Err Fault.Wide → IsWideTerms columns entries.now }
    ensures narrow { OnOk result (¬ IsWideTerms columns entries.now) }
{
    let mut sum = Sum::of_none(alloc, columns, Frac::ratio(0, 1))?;
    sum.add(Frac::ratio(1, 1), entries, right)?;
    Ok(sum)
}

/// The coefficients that are found, or the first column that has none.
#[derive(Drop)]
pub(crate) enum Found {
    /// The coefficients, one for each column.
    Terms(Vec<Frac>),
    /// The column.
    Bound(u32),
}

/// The coefficients that are found for those of a sum, times the factor.
pub(crate) fn found_terms(
    alloc: Global,
    columns: &[Column],
    factor: Frac,
    sum: &Sum,
    grid: Option<u32>,
) -> Result<Found, Fault>
    requires sum { length sum.now.coefficients.items ≡ length columns.now }
    requires grid { IfSome grid (λ n. 0 < n) }
    ensures is { IfOk result (IsFound grid columns.now (times factor (line_of_sum sum.now))) }
    ensures wide { result ≡ Err Fault.Wide →
        IsWideFound grid columns.now factor (line_of_sum sum.now) }
    ensures narrow { OnOk result (¬ IsWideFound grid columns.now factor (line_of_sum sum.now)) }
{
    let mut terms = Vec::new(alloc);
    for (j, column) in columns.iter().enumerate() {
        let Some(y) = found_term(*column, factor, sum.coefficients[j], grid)? else {
            let Ok(index) = u32::try_from(j) else {
                return Err(Fault::Wide);
            };
            return Ok(Found::Bound(index));
        };
        terms.push(y)?;
    }
    Ok(Found::Terms(terms))
}

/// The coefficient that is found for one of a sum, times the factor.
fn found_term(
    column: Column,
    factor: Frac,
    coefficient: Frac,
    grid: Option<u32>,
) -> Result<Option<Frac>, Wide>
    requires { IfSome grid (λ n. 0 < n) }
    ensures is { IfOk result (IsFoundOrNone grid column (rational factor *ℚ rational coefficient)) }
    ensures wide { OnErr result (IsWideFoundAt grid column factor coefficient) }
    ensures narrow { OnOk result (¬ IsWideFoundAt grid column factor coefficient) }
{
    if is_zero(coefficient) {
        return Ok(Some(coefficient));
    }
    let x = factor.checked_mul(coefficient)?;
    match grid {
        None => Ok(Some(x)),
        Some(n) => on_grid(column, x, n),
    }
}

/// The coefficient on the grid to which x goes; none if it is off the grid and there is no bound.
fn on_grid(column: Column, x: Frac, grid: u32) -> Result<Option<Frac>, Wide>
    requires { 0 < grid }
    ensures is { IfOk result (IsFoundOrNone (Some grid) column (rational x)) }
    ensures wide { OnErr result (IsWideGrid (Some grid) column.lower column.upper x) }
    ensures narrow { OnOk result (¬ IsWideGrid (Some grid) column.lower column.upper x) }
{
    match (column.lower, column.upper) {
        (Some(_), _) => Ok(Some(-below_on_grid(-x, u64::from(grid))?)),
        (None, Some(_)) => Ok(Some(below_on_grid(x, u64::from(grid))?)),
        (None, None) => {
            let y = below_on_grid(x, u64::from(grid))?;
            if y == x { Ok(Some(x)) } else { Ok(None) }
        }
    }
}
