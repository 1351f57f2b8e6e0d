//! The halves of a function with an uncovered interval.
ghost use Rattle.std.specs.Prelude.{◌≡◌, ◌≢◌, [], IfOk, IfErr};
ghost use Rattle.gj_jumps.specs.LimitCover.{IsTightAt};
ghost use Rattle.gj_limit_cover.specs.CoverOf.{IsLeastClass};
ghost use Rattle.gj_limit_halves.specs.LimitHalves.{AreWithinLimits};
ghost use Rattle.gj_shape.specs.Table.{IsMinimal};
ghost use Rattle.gj_limit_extreme.specs.Decision.{AreZigzagHalves};
ghost use Rattle.gj_limit_extreme.specs.Faults.{IsMemoryFault};

use crate::faults::LimitDecideFault;
use gj_limit_grids::slacks::zigzags_are_perturbations;
use gj_limit_halves::{split_limits, zigzag_sides};
use gj_shape::{LimitHalves, Shape};
use std::alloc::Global;

/// The halves of the zigzag of the class of the least uncovered interval. They are never too wide.
pub(crate) fn zigzag_halves(
    alloc: Global,
    shape: &Shape,
    class: &[u32],
) -> Result<LimitHalves, LimitDecideFault>
    requires minimal { IsMinimal shape.now }
    requires least { IsLeastClass shape.now.order (IsTightAt shape.now) class.now }
    requires some { class.now ≢ [] }
    ensures halves { IfOk result (AreZigzagHalves shape.now) }
    ensures limits { IfOk result AreWithinLimits }
    ensures memory { IfErr result IsMemoryFault }
{
    zigzags_are_perturbations();
    let perturbation = zigzag_sides(alloc, shape.order(), class)?;
    Ok(split_limits(alloc, shape, 4, &perturbation)?)
}
