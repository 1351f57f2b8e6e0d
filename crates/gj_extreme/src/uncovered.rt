//! The halves of a function with an uncovered interval.
ghost use Rattle.std.specs.Prelude.{◌≡◌, ◌≢◌, [], IfOk, IfErr};
ghost use Rattle.gj_shape.specs.Perturbation.{AreHalvesInBounds};
ghost use Rattle.gj_shape.specs.Additive.{IsTight};
ghost use Rattle.gj_shape.specs.FunctionData.{IsContinuous};
ghost use Rattle.gj_shape.specs.Table.{IsMinimal};
ghost use Rattle.gj_cover.specs.CoverOf.{IsLeastClass};
ghost use Rattle.gj_theory.specs.Uncovered.{AreUncoveredClasses};
ghost use Rattle.gj_extreme.specs.Decision.{AreZigzagHalves};
ghost use Rattle.gj_extreme.specs.Faults.{IsMemoryFault};

use crate::faults::DecideFault;
use gj_perturb::{split, zigzag};
use gj_shape::{Halves, Shape};
use std::alloc::Global;

/// The halves of the zigzag of the class of the least uncovered interval. They are never too wide.
pub(crate) fn zigzag_halves(
    alloc: Global,
    shape: &Shape,
    class: &[u32],
) -> Result<Halves, DecideFault>
    requires minimal { IsMinimal shape.now }
    requires continuous { IsContinuous shape.now }
    requires least { IsLeastClass shape.now.order (IsTight shape.now) class.now }
    requires uncovered { AreUncoveredClasses shape.now.order (IsTight shape.now) class.now }
    requires some { class.now ≢ [] }
    ensures halves { IfOk result (AreZigzagHalves shape.now) }
    ensures limits { IfOk result AreHalvesInBounds }
    ensures memory { IfErr result IsMemoryFault }
{
    let order = shape.order();
    let perturbation = zigzag(alloc, order, class)?;
    Ok(split(alloc, shape, &perturbation)?)
}
