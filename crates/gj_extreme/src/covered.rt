//! The decision on a function whose intervals are all covered.
ghost use Rattle.std.specs.Prelude.{◌≡◌, [], Some, length, map, All, IfOk, IsSome};
ghost use Rattle.gj_shape.specs.Additive.{IsTight};
ghost use Rattle.gj_shape.specs.FunctionData.{IsContinuous, IsWithinBounds};
ghost use Rattle.gj_shape.specs.SlopeRows.{component_in};
ghost use Rattle.gj_shape.specs.Table.{IsMinimal};
ghost use Rattle.gj_cover.specs.CoverOf.{IsCoverOf};
ghost use Rattle.gj_faces.specs.TightPairs.{AreTightPairsOf};
ghost use Rattle.gj_extreme.specs.Decision.{AreAllCovered, IsDecision};
ghost use Rattle.gj_extreme.specs.RowsToCome.{AreInserted};

use crate::faults::DecideFault;
use crate::groups::{PivotRows, groups_of, numbers_of};
use crate::inserted_rows::{Rows, rows_of};
use crate::residues::extreme_by_residues;
use crate::slopes::slope_halves;
use gj_cover::Cover;
use gj_elim::ElimFault;
use gj_faces::TightPairs;
use gj_proof::Claim;
use gj_shape::{List, Shape};
use gj_system::SlopeRows;
use std::alloc::Global;

/// The claim that the function is extreme, if the rows leave no other slopes than 0, and that it is
/// not, if they do.
pub(crate) fn extreme_or_slopes(
    alloc: Global,
    shape: &Shape,
    pairs: &TightPairs,
    cover: Cover,
) -> Result<Claim, DecideFault>
    requires pairs { AreTightPairsOf shape.now pairs.now }
    requires minimal { IsMinimal shape.now }
    requires continuous { IsContinuous shape.now }
    requires cover { IsCoverOf shape.now.order (IsTight shape.now) cover }
    requires covered { cover.class ≡ [] }
    ensures { IsDecision shape.now result }
{
    let component = numbers_of(alloc, cover.component.as_slice())?;
    let system = SlopeRows::new(alloc, component.as_slice(), cover.count)?;
    match rows_of(alloc, shape, pairs, &system) {
        Ok(rows) => extreme_or_kernel(alloc, shape, component.as_slice(), cover, &rows),
        Err(ElimFault::Wide) => extreme_by_residues(alloc, shape, pairs, &system, cover),
        Err(ElimFault::Memory(error)) => Err(DecideFault::Memory(error)),
    }
}

/// The claim that the function is extreme, if a row is kept for each component, and that it is not,
/// if fewer are.
fn extreme_or_kernel(
    alloc: Global,
    shape: &Shape,
    component: &[u32],
    cover: Cover,
    rows: &Rows,
) -> Result<Claim, DecideFault>
    requires limits { IsWithinBounds shape.now }
    requires minimal { IsMinimal shape.now }
    requires continuous { IsContinuous shape.now }
    requires order { length component.now ≡ shape.now.order }
    requires covered { AreAllCovered shape.now cover.lines (component_in component.now)
        (length rows.now.row.items) }
    requires inserted { AreInserted shape.now (component_in component.now)
        (length rows.now.row.items) rows.now }
    ensures { IsDecision shape.now result }
{
    if rows.is_full() {
        let groups = groups_of::<PivotRows>(alloc, rows.names.as_slice(), rows.basis.log())?;
        return Ok(Claim::Extreme(shape.copy(alloc)?, cover.lines, List::of(groups)));
    }
    let halves = slope_halves(alloc, shape, component, rows)?;
    Ok(Claim::NotExtreme(shape.copy(alloc)?, halves))
}
