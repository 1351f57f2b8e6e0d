//! A task with one more line.
ghost use Rattle.std.specs.Prelude.{◌≡◌, ◌≢◌, ◌≤◌, ◌<◌, ◌^◌, [], None, length, IfSome, IfNone};
ghost use Rattle.std.specs.Prelude.{OnOk, IfErr, IsTrue, ◌↔◌, codes};
ghost use Rattle.gj_forms.specs.LineFaults.{IsRefusedFor};
ghost use Rattle.gj_lex.specs.declared.reason.Reason.TheVariants as reason;
ghost use Rattle.gj_problem_text.specs.LinesRead.{line_told};
ghost use Rattle.gj_problem_text.specs.Tasks.{Adds, Refuses, AddsColumn, RefusesColumn};
ghost use Rattle.gj_problem_text.specs.Tasks.{AddsConstraint, RefusesConstraint, AddsEntry};
ghost use Rattle.gj_problem_text.specs.Tasks.{RefusesEntry, AddsUpper, AddsSum, AddsGrid, AddsRound};
ghost use Rattle.gj_problem_text.specs.Tasks.{Unless, Never, IsKnown, TakesEntries, AreLonger, SpellsBound};
ghost use Rattle.gj_problem_text.specs.Tasks.{IsBound, most_columns, RefusesSum, AreWithinSteps, steps_of_sum};

use crate::lines::Line;
use crate::numbers::number_of;
use crate::places::Places;
use crate::task::{Request, Task};
use gj_forms::{LineFault, name_of};
use gj_frac::Frac;
use gj_lex::Reason;
use gj_problem::{Column, Constraint, Entry, Sense, Sparse};
use gj_shape::List;
use std::alloc::{AllocError, Global};
use std::mem;

/// The greatest number of columns.
const MOST_COLUMNS: usize = 10_000;

/// The greatest number of constraints.
const MOST_CONSTRAINTS: usize = 10_000;

/// The greatest number of entries.
const MOST_ENTRIES: u32 = 100_000;

/// The greatest number of steps of all sums.
const MOST_STEPS: u128 = 1_000_000_000;

/// Adds the line to the task, or says why the line cannot follow. The places are those of the
/// task's columns.
///
/// `Broken` has the reason, and comes exactly if the line cannot follow; `Memory` is want of
/// memory. After an error neither the task nor the places are of any use.
pub fn with_line<'a>(
    alloc: Global,
    task: &mut Task,
    places: &mut Places<'a>,
    line: Line<'a>,
) -> Result<(), LineFault>
    requires few { length task.old.names ≤ most_columns }
    requires places { places.old ≡ task.old.names }
    ensures added { OnOk result (Adds task.old (line_told line.entry) task.new) }
    ensures few { OnOk result (length task.new.names ≤ most_columns) }
    ensures places { OnOk result (places.new ≡ task.new.names) }
    ensures refused { IfErr result (IsRefusedFor (Refuses task.old (line_told line.entry))) }
{
    match line {
        Line::Column(name, is_whole, lower, upper) => {
            with_column(alloc, task, places, name, is_whole, lower, upper)
        }
        Line::Constraint(name, sense, right) => with_constraint(alloc, task, name, sense, right),
        Line::Entry(name, value) => with_entry(alloc, task, places, name, value),
        Line::Upper(name) => with_upper(task, places, name),
        Line::Sum(multipliers) => with_sum(task, multipliers),
        Line::Grid(grid) => with_grid(task, grid),
        Line::Round(grid) => with_round(task, grid),
    }
}

/// Adds a column.
fn with_column<'a>(
    alloc: Global,
    task: &mut Task,
    places: &mut Places<'a>,
    name: &'a [u8],
    is_whole: bool,
    lower: &[u8],
    upper: &[u8],
) -> Result<(), LineFault>
    requires { places.old ≡ task.old.names }
    ensures added { OnOk result
        (AddsColumn task.old name.now is_whole lower.now upper.now task.new) }
    ensures places { OnOk result (places.new ≡ task.new.names) }
    ensures refused { IfErr result (IsRefusedFor
        (RefusesColumn task.old name.now lower.now upper.now)) }
{
    let kept = name_of(alloc, name)?;
    let Some(lower) = bound_of(lower) else {
        return Err(LineFault::Broken(Reason::Number));
    };
    let Some(upper) = bound_of(upper) else {
        return Err(LineFault::Broken(Reason::Number));
    };
    if task.names.as_slice().len() >= MOST_COLUMNS {
        return Err(LineFault::Broken(Reason::Large));
    }
    if !are_within_steps(u64::from(task.sums), steps_of_sum(task) + 1) {
        return Err(LineFault::Broken(Reason::Large));
    }
    if places.place_of(name).is_some() {
        return Err(LineFault::Broken(Reason::Place));
    }
    places.push(name)?;
    task.names.push(kept)?;
    task.problem.columns.push(Column {
        is_whole,
        lower,
        upper,
    })?;
    Ok(())
}

/// The bound that the word spells, none for `-`; or nothing if it spells no bound.
pub fn bound_of(word: &[u8]) -> Option<Option<Frac>>
    ensures found { IfSome result (SpellsBound word.now) }
    ensures none { IfNone result (IsBound word.now → ⊥) }
{
    if is_absent(word) {
        return Some(None);
    }
    let Some(bound) = number_of(word) else {
        return None;
    };
    Some(Some(bound))
}

/// Whether the word stands for no bound.
fn is_absent(word: &[u8]) -> bool
    ensures { IsTrue result ↔ (word.now ≡ codes "-") }
{
    word == b"-".as_slice()
}

/// Adds a constraint that has no entries yet.
fn with_constraint(
    alloc: Global,
    task: &mut Task,
    name: &[u8],
    sense: Sense,
    right: Frac,
) -> Result<(), LineFault>
    ensures added { OnOk result (AddsConstraint task.old name.now sense right task.new) }
    ensures refused { IfErr result (IsRefusedFor (RefusesConstraint task.old name.now)) }
{
    if !task.requests.as_slice().is_empty() {
        return Err(LineFault::Broken(Reason::Form));
    }
    name_of(alloc, name)?;
    if task.problem.constraints.as_slice().len() >= MOST_CONSTRAINTS {
        return Err(LineFault::Broken(Reason::Large));
    }
    let entries = Vec::with_capacity(alloc, likely_entries(task))?;
    task.problem.constraints.push(Constraint {
        entries: List::of(entries),
        sense,
        right,
    })?;
    Ok(())
}

/// How many entries of the next constraint to make room for: as many as the last one has. So at most
/// as much room is made as all entries take.
fn likely_entries(task: &Task) -> usize {
    match task.problem.constraints.as_slice().last() {
        Some(last) => last.entries.as_slice().len(),
        None => 0,
    }
}

/// Adds an entry of the last constraint. The places are those of the task's columns.
pub(crate) fn with_entry(
    alloc: Global,
    task: &mut Task,
    places: &Places<'_>,
    name: &[u8],
    value: Frac,
) -> Result<(), LineFault>
    requires few { length task.old.names ≤ most_columns }
    requires places { places.now ≡ task.old.names }
    ensures added { OnOk result (AddsEntry task.old name.now value task.new) }
    ensures refused { IfErr result (IsRefusedFor (RefusesEntry task.old name.now)) }
{
    if !takes_entries(task) {
        return Err(LineFault::Broken(Reason::Form));
    }
    if task.entries >= MOST_ENTRIES {
        return Err(LineFault::Broken(Reason::Large));
    }
    let Some(index) = places.place_of(name) else {
        return Err(LineFault::Broken(Reason::Place));
    };
    push_entry(
        alloc,
        &mut task.problem.constraints,
        Entry {
            column: index as u32,
            value,
        },
    )?;
    task.entries += 1;
    Ok(())
}

/// Whether there is a constraint, and no row is asked for.
fn takes_entries(task: &Task) -> bool
    ensures { IsTrue result ↔ TakesEntries task.now }
{
    task.requests.as_slice().is_empty() && !task.problem.constraints.as_slice().is_empty()
}

/// Appends the entry to those of the last constraint.
fn push_entry(
    alloc: Global,
    constraints: &mut List<Constraint>,
    entry: Entry,
) -> Result<(), AllocError>
    requires { constraints.old ≢ [] }
    ensures { OnOk result (AreLonger constraints.old entry constraints.new) }
{
    let mut items = mem::replace(constraints, List::of(Vec::new(alloc))).into_vec();
    let Some(last) = items.last_mut() else {
        unreachable!();
    };
    last.entries.push(entry)?;
    *constraints = List::of(items);
    Ok(())
}

/// From here on the column with the name is turned by its upper bound.
fn with_upper(task: &mut Task, places: &Places<'_>, name: &[u8]) -> Result<(), LineFault>
    requires few { length task.old.names ≤ most_columns }
    requires places { places.now ≡ task.old.names }
    ensures added { OnOk result (AddsUpper task.old name.now task.new) }
    ensures refused { IfErr result (IsRefusedFor
        (Unless (IsKnown task.old name.now) reason.Place Never)) }
{
    let Some(index) = places.place_of(name) else {
        return Err(LineFault::Broken(Reason::Place));
    };
    task.requests.push(Request::Upper(index as u32))?;
    Ok(())
}

/// Asks for the row by these multipliers.
fn with_sum(task: &mut Task, multipliers: Sparse) -> Result<(), LineFault>
    ensures added { OnOk result (AddsSum task.old multipliers task.new) }
    ensures refused { IfErr result (IsRefusedFor (RefusesSum task.old multipliers)) }
{
    if !multipliers.has_length(task.problem.constraints.as_slice().len()) {
        return Err(LineFault::Broken(Reason::Form));
    }
    if !are_within_steps(u64::from(task.sums) + 1, steps_of_sum(task)) {
        return Err(LineFault::Broken(Reason::Large));
    }
    task.sums = task.sums.checked_add(1).ok_or(AllocError)?;
    task.requests.push(Request::Sum(multipliers))?;
    Ok(())
}

/// Whether so many sums of so many steps are within the bound.
fn are_within_steps(sums: u64, steps: u128) -> bool
    requires few { sums < 2 ^ 33 }
    requires fits { steps < 2 ^ 67 }
    ensures { IsTrue result ↔ AreWithinSteps sums steps }
{
    u128::from(sums) * steps <= MOST_STEPS
}

/// How many steps a sum takes: one for each column, constraint and entry.
fn steps_of_sum(task: &Task) -> u128
    ensures is { result ≡ steps_of_sum task.now }
    ensures fits { result < 2 ^ 66 }
{
    let columns = task.names.as_slice().len();
    let constraints = task.problem.constraints.as_slice().len();
    let entries = task.entries;
    columns as u128 + constraints as u128 + u128::from(entries)
}

/// Sets the grid, once at most.
fn with_grid(task: &mut Task, grid: u32) -> Result<(), LineFault>
    ensures added { OnOk result (AddsGrid task.old grid task.new) }
    ensures refused { IfErr result (IsRefusedFor
        (Unless (task.old.grid ≡ None) reason.Form Never)) }
{
    if task.grid.is_some() {
        return Err(LineFault::Broken(Reason::Form));
    }
    task.grid = Some(grid);
    Ok(())
}

/// Sets the grid of the data, once at most.
fn with_round(task: &mut Task, grid: u32) -> Result<(), LineFault>
    ensures added { OnOk result (AddsRound task.old grid task.new) }
    ensures refused { IfErr result (IsRefusedFor
        (Unless (task.old.round ≡ None) reason.Form Never)) }
{
    if task.round.is_some() {
        return Err(LineFault::Broken(Reason::Form));
    }
    task.round = Some(grid);
    Ok(())
}
