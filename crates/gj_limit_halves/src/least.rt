//! The least positive limit of the slack on a finer grid.
ghost use Rattle.std.specs.Prelude.{pos, ◌≤◌, ◌<◌, ◌*◌, ◌+◌, ◌^◌, length, IfOk};
ghost use Rattle.gj_loops.specs.Lanes.{AreInRange, ArePeriods};
ghost use Rattle.gj_shape.specs.Table.{IsMinimal};
ghost use Rattle.gj_limit_halves.specs.LeastLimit.{IsLeastLimit};

use crate::lanes::least_of_all;
use gj_loops::write_periods;
use gj_perturb::least_on_grid;
use gj_shape::Shape;
use std::alloc::{AllocError, Global};

/// The least positive limit of the slack of a minimal function on the grid of order `times` q, times
/// the common denominator and `times`: the least number that is a positive limit at a corner of a
/// face that has also the limit 0, or `times` times a positive limit at a corner.
pub fn least_limit(alloc: Global, shape: &Shape, times: u32) -> Result<u64, AllocError>
    requires minimal { IsMinimal shape.now }
    requires low { 1 ≤ times }
    requires high { times ≤ 4 }
    ensures { IfOk result (IsLeastLimit shape.now times) }
{
    let lefts = periods(alloc, shape.left_numerators())?;
    let values = periods(alloc, shape.value_numerators())?;
    let rights = periods(alloc, shape.right_numerators())?;
    let least = least_of_all(
        shape,
        lefts.as_slice(),
        values.as_slice(),
        rights.as_slice(),
    );
    Ok(least_on_grid(least.any, least.beside_zero, times))
}

/// The numbers two times over in lanes, and the first once more.
fn periods(alloc: Global, numbers: &[i64]) -> Result<Vec<u32>, AllocError>
    requires some { 0 < length numbers.now }
    requires few { length numbers.now < 2 ^ 31 }
    requires range { AreInRange (pos 0) (2 ^ 31) numbers.now }
    ensures { IfOk result (λ v. ArePeriods (λ n. pos n) (pos 0) (2 ^ 31) v.items numbers.now) }
{
    let mut lanes = vec![in alloc; 0u32; 2 * numbers.len() + 1]?;
    write_periods(lanes.as_mut_slice(), numbers);
    Ok(lanes)
}
