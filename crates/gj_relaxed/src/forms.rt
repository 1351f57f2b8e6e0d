//! The constraints of a problem on a grid, each on its own: what all sums of the problem share.
ghost use Rattle.std.specs.Prelude.{◌≡◌, ◌↔◌, ◌<◌, All, IfOk, IsTrue, Some};
ghost use Rattle.std.specs.List.{AllZip};
ghost use Rattle.gj_fields.specs.Rational.{whole, rational, ◌*ℚ◌};
ghost use Rattle.gj_problem.specs.Moves.{IsGridValue};
ghost use Rattle.gj_problem.specs.Rows.{IsMultiple};
ghost use Rattle.gj_relaxed.specs.RelaxedProblems.{IsOnGrid};
ghost use Rattle.gj_relaxed.specs.RelaxedSteps.{sign_of};
ghost use Rattle.gj_relaxed.specs.RelaxedForms.{IsRoundedWithSign, AreForms};
ghost use Rattle.gj_relaxed.specs.RelaxedForms.{rounded_of, ArePartsOf};

use crate::columns::relaxed_columns;
use gj_frac::Frac;
use gj_problem::{
    Column, Constraint, Entry, Fault, Inequality, Problem, RoundedCut, Sense, rounded,
};
use gj_shape::List;
use std::alloc::{AllocError, Global};

/// The columns and the constraints of a problem on a grid, each on its own: what all sums of the
/// problem share.
#[derive(Drop)]
pub struct RelaxedParts {
    // The columns; none if a number of one does not fit.
    pub(crate) columns: Option<List<Column>>,
    // One for each constraint.
    pub(crate) forms: Vec<Forms>,
}

impl RelaxedParts {
    /// The parts of the problem on the grid of all k/grid.
    ///
    /// `is_shared` says whether more than one sum is to be made of the constraints: then those off
    /// the grid are rounded now. The only error is want of memory.
    pub fn of(
        alloc: Global,
        problem: &Problem,
        grid: u32,
        is_shared: bool,
    ) -> Result<RelaxedParts, AllocError>
        requires { 0 < grid }
        ensures { IfOk result (ArePartsOf grid problem.now) }
    {
        let grid = u64::from(grid);
        let columns = match relaxed_columns(alloc, problem.columns.as_slice(), grid) {
            Ok(columns) => Some(List::of(columns)),
            Err(Fault::Wide) => None,
            Err(Fault::Memory(error)) => return Err(error),
        };
        let forms = forms_of(alloc, problem, grid, is_shared)?;
        Ok(RelaxedParts { columns, forms })
    }
}

/// A constraint on a grid.
#[derive(Drop)]
pub(crate) struct Forms {
    // Whether all its numbers are on the grid.
    pub(crate) is_on_grid: bool,
    // Rounded as it is, if that has been done.
    plain: Option<RoundedCut>,
    // Rounded with its signs turned, if that has been done.
    turned: Option<RoundedCut>,
}

impl Forms {
    /// The constraint rounded with its signs turned or not, if that has been done.
    pub(crate) fn rounded(&self, is_turned: bool) -> &Option<RoundedCut>
        ensures { result.now ≡ rounded_of self.now is_turned }
    {
        if is_turned { &self.turned } else { &self.plain }
    }
}

/// The forms of the constraints.
fn forms_of(
    alloc: Global,
    problem: &Problem,
    grid: u64,
    is_shared: bool,
) -> Result<Vec<Forms>, AllocError>
    requires { 0 < grid }
    ensures { IfOk result (λ made.
        AllZip (AreForms problem.now grid) problem.now.constraints made.items) }
{
    let mut made = Vec::new(alloc);
    for constraint in problem.constraints.as_slice() {
        made.push(form_of(alloc, problem, constraint, grid, is_shared)?)?;
    }
    Ok(made)
}

/// The forms of a constraint.
fn form_of(
    alloc: Global,
    problem: &Problem,
    constraint: &Constraint,
    grid: u64,
    is_shared: bool,
) -> Result<Forms, AllocError>
    requires { 0 < grid }
    ensures { IfOk result (AreForms problem.now grid constraint.now) }
{
    let is_on_grid = is_on_grid(constraint, grid);
    let is_made = is_shared && !is_on_grid;
    let is_plain = is_made && can_be_plain(constraint.sense);
    let is_turned = is_made && can_be_turned(constraint.sense);
    let plain = rounded_if(alloc, problem, constraint, false, grid, is_plain)?;
    let turned = rounded_if(alloc, problem, constraint, true, grid, is_turned)?;
    Ok(Forms {
        is_on_grid,
        plain,
        turned,
    })
}

/// Whether a constraint of this sense can stand in a row as it is.
fn can_be_plain(sense: Sense) -> bool {
    match sense {
        Sense::AtLeast | Sense::Equal => true,
        Sense::AtMost => false,
    }
}

/// Whether a constraint of this sense can stand in a row with its signs turned.
fn can_be_turned(sense: Sense) -> bool {
    match sense {
        Sense::AtMost | Sense::Equal => true,
        Sense::AtLeast => false,
    }
}

/// The constraint rounded with its signs turned or not, if this is wanted.
fn rounded_if(
    alloc: Global,
    problem: &Problem,
    constraint: &Constraint,
    is_turned: bool,
    grid: u64,
    is_wanted: bool,
) -> Result<Option<RoundedCut>, AllocError>
    requires { 0 < grid }
    ensures { IfOk result (IsRoundedWithSign problem.now grid constraint.now is_turned) }
{
    if !is_wanted {
        return Ok(None);
    }
    let made = rounded_with_sign(alloc, problem, constraint, is_turned, grid)?;
    Ok(Some(made))
}

/// The constraint rounded as an inequality, with its signs turned or not.
pub(crate) fn rounded_with_sign(
    alloc: Global,
    problem: &Problem,
    constraint: &Constraint,
    is_turned: bool,
    grid: u64,
) -> Result<RoundedCut, AllocError>
    requires { 0 < grid }
    ensures { IfOk result (λ made.
        IsRoundedWithSign problem.now grid constraint.now is_turned (Some made)) }
{
    let given = as_inequality(alloc, constraint, is_turned)?;
    let made = rounded(alloc, problem, &given, grid)?;
    Ok(made)
}

/// Whether all numbers of the constraint are on the grid.
fn is_on_grid(constraint: &Constraint, grid: u64) -> bool
    requires { 0 < grid }
    ensures { IsTrue result ↔ IsOnGrid grid constraint.now }
{
    is_grid_value(constraint.right, grid) && are_on_grid(constraint.entries.as_slice(), grid)
}

/// Whether all entries are on the grid.
fn are_on_grid(entries: &[Entry], grid: u64) -> bool
    requires { 0 < grid }
    ensures { IsTrue result ↔ All (λ e. IsGridValue grid (rational e.value)) entries.now }
{
    for entry in entries {
        if !is_grid_value(entry.value, grid) {
            return false;
        }
    }
    true
}

/// Whether x is on the grid, so whether its denominator divides that of the grid.
fn is_grid_value(x: Frac, grid: u64) -> bool
    requires { 0 < grid }
    ensures { IsTrue result ↔ IsGridValue grid (rational x) }
{
    match u64::try_from(x.den()) {
        Ok(den) => grid % den == 0,
        Err(_) => false,
    }
}

/// The number, with its sign turned or not.
pub(crate) fn with_sign(x: Frac, is_turned: bool) -> Frac
    ensures { rational result ≡ whole (sign_of is_turned) *ℚ rational x }
{
    if is_turned { -x } else { x }
}

/// The constraint as an inequality, with all signs turned or not.
fn as_inequality(
    alloc: Global,
    constraint: &Constraint,
    is_turned: bool,
) -> Result<Inequality, AllocError>
    ensures { IfOk result (IsMultiple (whole (sign_of is_turned)) constraint.now.entries
        constraint.now.right) }
{
    let mut entries = Vec::new(alloc);
    for entry in constraint.entries.as_slice() {
        entries.push(Entry {
            column: entry.column,
            value: with_sign(entry.value, is_turned),
        })?;
    }
    Ok(Inequality {
        entries: List::of(entries),
        right: with_sign(constraint.right, is_turned),
    })
}
