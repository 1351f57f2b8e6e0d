//! The rules on all groups, in the order of their lines.
ghost use Rattle.std.specs.Prelude.{◌≡◌, ◌<◌, length, map, All, IfOk};
ghost use Rattle.std.specs.List.{range_with_len};
ghost use Rattle.std.specs.declared.option.Option.TheVariants.{None};
ghost use Rattle.gj_shape.specs.SlopeRows.{component_in};
ghost use Rattle.gj_proof.specs.ProofText.{IsPivotRowBelow};
ghost use Rattle.gj_check_groups.specs.Groups.{IsGroupsOutcome};

use crate::begin::begin_row;
use crate::failure::GroupFailure;
use crate::group::failure_in_group;
use crate::keep::keep;
use gj_proof::{Numbers, PivotRow, line_behind_group, line_below};
use gj_shape::{List, Shape};
use std::alloc::{AllocError, Global};

/// The first rule that fails on the groups of a proof that a function is extreme by rows of these
/// numbers, of the rules `row`, `reduce`, `size` and `pivot`; none if all hold. An error says that
/// memory ran out, or that a line of the groups has a number from 2^64 on, so that their text fits
/// no memory. `component` has the component of each interval, and `count` is the number of
/// components.
pub fn failure_in_groups(
    alloc: Global,
    numbers: Numbers,
    shape: &Shape,
    component: &[u32],
    count: u32,
    rows: &[PivotRow],
) -> Result<Option<GroupFailure>, AllocError>
    requires order { length component.now ≡ shape.now.order }
    requires components { All (λ c. c < count) component.now }
    requires rows { All (IsPivotRowBelow shape.now.order) rows.now }
    ensures { IfOk result (IsGroupsOutcome numbers shape.now
        (component_in component.now) count rows.now) }
{
    let mut table = no_rows(alloc, count)?;
    let mut row = vec![in alloc; 0; count as usize]?;
    failure_in_turn(
        alloc,
        numbers,
        shape,
        component,
        table.as_mut_slice(),
        row.as_mut_slice(),
        rows,
    )
}

/// The first rule that fails on groups, from a table without rows on. The row is used for one group
/// after another.
fn failure_in_turn(
    alloc: Global,
    numbers: Numbers,
    shape: &Shape,
    component: &[u32],
    table: &mut [Option<List<i128>>],
    row: &mut [i128],
    rows: &[PivotRow],
) -> Result<Option<GroupFailure>, AllocError>
    requires order { length component.now ≡ shape.now.order }
    requires components { All (λ c. c < length row.old) component.now }
    requires rows { All (IsPivotRowBelow shape.now.order) rows.now }
    requires table { table.old ≡ map (λ i. None) (range_with_len 0 (length row.old)) }
    ensures { IfOk result (IsGroupsOutcome numbers shape.now (component_in component.now)
        (length row.old) rows.now) }
{
    let mut above = 0;
    for group in rows {
        begin_row(numbers, row, component, shape.place(), group.name);
        if let Some(failure) = failure_in_group(numbers, shape, table, row, group) {
            return Ok(Some(GroupFailure {
                below: line_below(above, failure.below)?,
                rule: failure.rule,
            }));
        }
        keep(alloc, numbers, table, row, group.pivot)?;
        above = line_behind_group(above, group)?;
    }
    Ok(None)
}

/// A table of so many columns without rows.
fn no_rows(alloc: Global, columns: u32) -> Result<Vec<Option<List<i128>>>, AllocError>
    ensures { IfOk result (λ v. v.items ≡ map (λ i. None) (range_with_len 0 columns)) }
{
    (0..columns).map(|_| None).collect(alloc)
}
