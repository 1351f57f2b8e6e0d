//! The decision on a function whose intervals are all covered.
ghost use Rattle.std.specs.Prelude.{◌≡◌, [], Some, length, map, All, IfOk, IsSome};
ghost use Rattle.gj_jumps.specs.LimitCover.{IsTightAt};
ghost use Rattle.gj_limit_cover.specs.CoverOf.{IsCoverOf};
ghost use Rattle.gj_shape.specs.FunctionData.{IsWithinBounds};
ghost use Rattle.gj_shape.specs.Table.{IsMinimal};
ghost use Rattle.gj_limit_extreme.specs.Decision.{AreAllCovered, IsDecision, columns_of};
ghost use Rattle.gj_limit_extreme.specs.RowsToCome.{AreInserted};

use crate::faults::LimitDecideFault;
use crate::groups::LimitPivotRows;
use crate::inserted_rows::{Rows, rows_of};
use crate::kernel::kernel_halves;
use crate::residues::extreme_by_residues;
use gj_cover::Cover;
use gj_elim::ElimFault;
use gj_extreme::{groups_of, numbers_of};
use gj_limit_faces::TightLimits;
use gj_limit_proof::LimitClaim;
use gj_limit_system::LimitRows;
use gj_proof::Numbers;
use gj_shape::{List, Shape};
use std::alloc::Global;

/// The claim that the function is extreme, if the rows leave only 0, and that it is not, if they do
/// not.
pub(crate) fn extreme_or_kernel(
    alloc: Global,
    shape: &Shape,
    cover: Cover,
) -> Result<LimitClaim, LimitDecideFault>
    requires minimal { IsMinimal shape.now }
    requires cover { IsCoverOf shape.now.order (IsTightAt shape.now) cover }
    requires covered { cover.class ≡ [] }
    ensures { IsDecision shape.now result }
{
    let component = numbers_of(alloc, cover.component.as_slice())?;
    let system = LimitRows::new(alloc, shape.place(), component.as_slice(), cover.count)?;
    let limits = TightLimits::new(alloc, shape)?;
    match rows_of(alloc, shape, &limits, &system) {
        Ok(rows) => rows_or_kernel(alloc, shape, component.as_slice(), cover, &rows),
        Err(ElimFault::Wide) => extreme_by_residues(alloc, shape, &limits, system, cover),
        Err(ElimFault::Memory(error)) => Err(LimitDecideFault::Memory(error)),
    }
}

/// The claim that the function is extreme, if a row is kept for each column, and that it is not, if
/// fewer are.
fn rows_or_kernel(
    alloc: Global,
    shape: &Shape,
    component: &[u32],
    cover: Cover,
    rows: &Rows,
) -> Result<LimitClaim, LimitDecideFault>
    requires limits { IsWithinBounds shape.now }
    requires minimal { IsMinimal shape.now }
    requires covered { AreAllCovered shape.now cover component.now }
    requires inserted { AreInserted shape.now component.now (columns_of shape.now cover) rows.now }
    ensures { IsDecision shape.now result }
{
    if rows.is_full() {
        let groups = groups_of::<LimitPivotRows>(alloc, rows.names.as_slice(), rows.basis.log())?;
        return Ok(LimitClaim::Extreme(
            Numbers::Whole,
            shape.copy(alloc)?,
            cover.lines,
            List::of(groups),
        ));
    }
    let halves = kernel_halves(alloc, shape, component, rows)?;
    Ok(LimitClaim::NotExtreme(shape.copy(alloc)?, halves))
}
