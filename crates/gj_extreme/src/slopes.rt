//! The halves of a function whose intervals are all covered, if slopes solve the linear system.
ghost use Rattle.std.specs.Prelude.{◌≡◌, ◌<◌, List, length, IfOk, IfErr};
ghost use Rattle.gj_shape.specs.Perturbation.{AreHalvesInBounds};
ghost use Rattle.gj_shape.specs.SlopeRows.{component_in};
ghost use Rattle.gj_shape.specs.FunctionData.{IsWithinBounds, IsContinuous};
ghost use Rattle.gj_shape.specs.Table.{IsMinimal};
ghost use Rattle.gj_shape.specs.declared.extremality.CoverLine.{CoverLine};
ghost use Rattle.gj_extreme.specs.Decision.{AreAllCovered, AreSlopeHalves, IsCause};
ghost use Rattle.gj_extreme.specs.RowsToCome.{AreInserted};

use crate::faults::DecideFault;
use crate::inserted_rows::Rows;
use gj_perturb::{from_slopes, split};
use gj_shape::{Halves, Shape};
use std::alloc::Global;

/// The halves of the slopes that solve the rows, of which there are fewer than components.
pub(crate) fn slope_halves(
    alloc: Global,
    shape: &Shape,
    component: &[u32],
    rows: &Rows,
) -> Result<Halves, DecideFault>
    requires limits { IsWithinBounds shape.now }
    requires minimal { IsMinimal shape.now }
    requires continuous { IsContinuous shape.now }
    requires order { length component.now ≡ shape.now.order }
    requires covered { (lines : List CoverLine) ×
        AreAllCovered shape.now lines (component_in component.now) (length rows.now.row.items) }
    requires inserted { AreInserted shape.now (component_in component.now)
        (length rows.now.row.items) rows.now }
    requires fewer { length rows.now.basis.kept < length rows.now.row.items }
    ensures halves { IfOk result (AreSlopeHalves shape.now) }
    ensures limits { IfOk result AreHalvesInBounds }
    ensures cause { IfErr result (IsCause shape.now) }
{
    let numbers = rows.basis.kernel()?.unwrap();
    let perturbation = from_slopes(alloc, component, numbers.as_slice())?;
    Ok(split(alloc, shape, &perturbation)?)
}
