//! The two functions that a perturbation gives.
ghost use Rattle.std.specs.Prelude.{◌*◌, ◌<◌, IfOk, OnOk, IsErrOf};
ghost use Rattle.std.specs.Prelude.{length};
ghost use Rattle.gj_shape.specs.Table.{IsMinimal};
ghost use Rattle.gj_limit_halves.specs.LimitHalves.{AreLimitHalvesOf, AreShownHalves};
ghost use Rattle.gj_limit_halves.specs.LimitHalves.{AreWithinLimits, CanSplitLimits, IsWideSplit};
ghost use Rattle.gj_limit_halves.specs.Sides.{limits_on_sides, IsGreatestOf};

use crate::least::least_limit;
use crate::moved::moved_sides;
use gj_limit_averages::halves::perturbations_give_parts;
use gj_limit_grids::slacks::corners_bound_limits;
use gj_perturb::{SplitFault, greatest_size, scale_of_halves};
use gj_shape::{LimitHalves, Shape, SideNumbers};
use std::alloc::Global;

/// The halves of a perturbation of a minimal function, which may jump, on the grid of order `times`
/// q: with the least positive limit u of the function's slack on that grid and the greatest absolute
/// value P of the perturbation, limits counted, the function plus and minus u/(3 P) times the
/// perturbation. `Wide` exactly if the scale 3 P D `times` passes 2^124, D being the common
/// denominator of the function.
pub fn split_limits(
    alloc: Global,
    shape: &Shape,
    times: u32,
    perturbation: &SideNumbers,
) -> Result<LimitHalves, SplitFault>
    requires minimal { IsMinimal shape.now }
    requires perturbation { CanSplitLimits shape.now times perturbation.now }

    ensures halves { IfOk result
        (AreLimitHalvesOf shape.now times (limits_on_sides perturbation.now)) }
    ensures shown { IfOk result (AreShownHalves shape.now) }
    ensures limits { IfOk result AreWithinLimits }

    ensures narrow { OnOk result
        (¬ IsWideSplit shape.now times (limits_on_sides perturbation.now)) }
    ensures wide { IsErrOf result SplitFault.Wide →
        IsWideSplit shape.now times (limits_on_sides perturbation.now) }
{
    corners_bound_limits();
    perturbations_give_parts();
    let order = shape.order() * times;
    let size = greatest_of(perturbation);
    let Some(scale) = scale_of_halves(shape, times, size) else {
        return Err(SplitFault::Wide);
    };
    let least = least_limit(alloc, shape, times)?;
    let step = i128::from(least);
    let factor = 3 * size as i128;
    let first = moved_sides(alloc, shape, times, factor, step, perturbation)?;
    let second = moved_sides(alloc, shape, times, factor, -step, perturbation)?;
    Ok(LimitHalves {
        order,
        scale,
        first,
        second,
    })
}

/// The greatest absolute value of the numbers of all sides.
fn greatest_of(sides: &SideNumbers) -> u128
    requires left { 0 < length sides.now.left }
    requires value { 0 < length sides.now.value }
    requires right { 0 < length sides.now.right }
    ensures { IsGreatestOf (limits_on_sides sides.now) result }
{
    let left = greatest_size(sides.left.as_slice());
    let value = greatest_size(sides.value.as_slice());
    let right = greatest_size(sides.right.as_slice());
    left.max(value).max(right)
}
