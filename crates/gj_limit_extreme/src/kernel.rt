//! The halves of a function whose intervals are all covered, if numbers solve the linear system.
ghost use Rattle.std.specs.Prelude.{◌≡◌, ◌<◌, length, IfOk, IfErr};
ghost use Rattle.gj_limit_halves.specs.LimitHalves.{AreWithinLimits};
ghost use Rattle.gj_cover.specs.declared.covered.Cover.{Cover};
ghost use Rattle.gj_shape.specs.FunctionData.{IsWithinBounds};
ghost use Rattle.gj_shape.specs.Table.{IsMinimal};
ghost use Rattle.gj_limit_extreme.specs.Decision.{AreAllCovered, AreKernelHalves, IsCause};
ghost use Rattle.gj_limit_extreme.specs.Decision.{columns_of};
ghost use Rattle.gj_limit_extreme.specs.RowsToCome.{AreInserted};

use crate::faults::LimitDecideFault;
use crate::inserted_rows::Rows;
use gj_limit_halves::{limits_of, split_limits};
use gj_shape::{LimitHalves, Shape};
use std::alloc::Global;

/// The halves of the numbers that solve the rows, of which there are fewer than columns.
pub(crate) fn kernel_halves(
    alloc: Global,
    shape: &Shape,
    component: &[u32],
    rows: &Rows,
) -> Result<LimitHalves, LimitDecideFault>
    requires limits { IsWithinBounds shape.now }
    requires minimal { IsMinimal shape.now }
    requires inserted { (cover : Cover) × AreAllCovered shape.now cover component.now ×
        AreInserted shape.now component.now (columns_of shape.now cover) rows.now }
    requires fewer { length rows.now.basis.kept < rows.now.basis.columns }
    ensures halves { IfOk result (AreKernelHalves shape.now) }
    ensures limits { IfOk result AreWithinLimits }
    ensures cause { IfErr result (IsCause shape.now) }
{
    let numbers = rows.basis.kernel()?.unwrap();
    let perturbation = limits_of(alloc, component, numbers.as_slice())?;
    Ok(split_limits(alloc, shape, 1, &perturbation)?)
}
