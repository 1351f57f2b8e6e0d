//! The least positive slack of a minimal continuous function on a finer grid.
ghost use Rattle.std.specs.Prelude.{◌≤◌, IfOk};
ghost use Rattle.gj_shape.specs.FunctionData.{IsContinuous};
ghost use Rattle.gj_shape.specs.Perturbation.{IsLeastSlack};
ghost use Rattle.gj_shape.specs.Table.{IsMinimal};
ghost use Rattle.gj_perturb.specs.Lanes.{HoldValues};

use crate::lanes::{least_at_corners, least_on_grid, least_slacks};
use gj_loops::write_periods;
use gj_shape::Shape;
use std::alloc::{AllocError, Global};

/// The least positive slack of the function's table on the grid of order `times` q. The slack is
/// affine on each face, so those at the corners give it; on the grid of order q the corners are all
/// there is.
pub(crate) fn least_slack(alloc: Global, shape: &Shape, times: u32) -> Result<u64, AllocError>
    requires minimal { IsMinimal shape.now }
    requires continuous { IsContinuous shape.now }
    requires low { 1 ≤ times }
    requires high { times ≤ 4 }
    ensures { IfOk result (IsLeastSlack shape.now times) }
{
    let periods = two_periods(alloc, shape)?;
    let lanes = periods.as_slice();
    let order = shape.order() as usize;
    if times == 1 {
        let least = least_at_corners(lanes, order);
        return Ok(u64::from(least) + 1);
    }
    let least = least_slacks(lanes, order);
    Ok(least_on_grid(least.any, least.beside_zero, times))
}

/// The values at 0, 1/q, .., 2 as lanes, so that no sum of two indices is reduced.
fn two_periods(alloc: Global, shape: &Shape) -> Result<Vec<u32>, AllocError>
    requires { IsMinimal shape.now }
    ensures { IfOk result (λ v. HoldValues shape.now v.items) }
{
    let values = shape.value_numerators();
    let mut lanes = vec![in alloc; 0u32; 2 * values.len() + 1]?;
    write_periods(&mut lanes, values);
    Ok(lanes)
}
