//! The rules on all groups, in the order of their lines.
ghost use Rattle.std.specs.Prelude.{◌≡◌, ◌+◌, ◌<◌, ◌≤◌, length, map, All, IfOk};
ghost use Rattle.std.specs.List.{range_with_len};
ghost use Rattle.std.specs.declared.option.Option.TheVariants.{None};
ghost use Rattle.gj_shape.specs.SlopeRows.{component_in};
ghost use Rattle.gj_limit_system.specs.Unknowns.{columns_for};
ghost use Rattle.gj_limit_proof.specs.LimitText.{IsLimitPivotRowBelow};
ghost use Rattle.gj_limit_check_groups.specs.LimitGroups.{IsLimitGroupsOutcome};

use crate::begin::begin_row;
use crate::group::failure_in_group;
use crate::keep::keep;
use crate::row::{Row, no_row};
use crate::table::{Kept, no_rows};
use gj_check_groups::GroupFailure;
use gj_limit_proof::LimitPivotRow;
use gj_limit_system::LimitRows;
use gj_proof::{Numbers, line_below, lines_with_steps};
use gj_shape::Shape;
use std::alloc::{AllocError, Global};

/// The first rule that fails on the groups of a proof that a function that jumps is extreme, by
/// rows of these numbers, of the rules `row`, `reduce`, `size` and `pivot`; none if all hold. An
/// error says that memory ran out, or that a line of the groups has a number from 2^64 on, so that
/// their text fits no memory. `component` has the component of each interval, and `count` is the
/// number of components.
pub fn failure_in_limit_groups(
    alloc: Global,
    numbers: Numbers,
    shape: &Shape,
    component: &[u32],
    count: u32,
    rows: &[LimitPivotRow],
) -> Result<Option<GroupFailure>, AllocError>
    requires order { length component.now ≡ shape.now.order }
    requires components { All (λ c. c < count) component.now }
    requires few { count ≤ shape.now.order }
    requires rows { All (IsLimitPivotRowBelow shape.now.order) rows.now }
    ensures { IfOk result (IsLimitGroupsOutcome numbers shape.now
        (component_in component.now) count rows.now) }
{
    let system = LimitRows::new(alloc, shape.place(), component, count)?;
    let mut table = no_rows(alloc, system.columns())?;
    let mut row = no_row(alloc);
    failure_in_turn(
        alloc,
        numbers,
        shape,
        &system,
        table.as_mut_slice(),
        &mut row,
        rows,
    )
}

/// The first rule that fails on groups, from a table without rows on. The row is used for one group
/// after another.
fn failure_in_turn(
    alloc: Global,
    numbers: Numbers,
    shape: &Shape,
    system: &LimitRows,
    table: &mut [Kept],
    row: &mut Row,
    rows: &[LimitPivotRow],
) -> Result<Option<GroupFailure>, AllocError>
    requires order { length system.now.component ≡ shape.now.order }
    requires place { system.now.place ≡ shape.now.place }
    requires columns { length table.old < 3000 }
    requires rows { All (IsLimitPivotRowBelow shape.now.order) rows.now }
    requires table { table.old ≡ map (λ i. None) (range_with_len 0
        (columns_for shape.now.order system.now.count)) }
    ensures { IfOk result (IsLimitGroupsOutcome numbers shape.now
        (component_in system.now.component) system.now.count rows.now) }
{
    let mut above = 0;
    for group in rows {
        begin_row(numbers, system, group.name, row)?;
        if let Some(failure) = failure_in_group(numbers, shape, table, row, group)? {
            return Ok(Some(GroupFailure {
                below: line_below(above, failure.below)?,
                rule: failure.rule,
            }));
        }
        keep(alloc, numbers, table, row.entries.as_slice(), group.pivot)?;
        above = line_behind(above, group)?;
    }
    Ok(None)
}

/// How many lines below the first of all groups the first line behind a group stands that begins so
/// many below it.
fn line_behind(above: u64, group: &LimitPivotRow) -> Result<u64, AllocError>
    ensures { IfOk result (λ n. n ≡ above + (length group.now.reduce + 2)) }
{
    let pivot = line_below(above, lines_with_steps(group.reduce.as_slice()))?;
    line_below(pivot, 1)
}
