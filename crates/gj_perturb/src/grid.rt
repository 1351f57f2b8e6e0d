//! The table of a continuous function on a grid.
ghost use Rattle.std.specs.Prelude.{◌≡◌, ◌*◌, ◌<◌, ◌≤◌, map, IfOk};
ghost use Rattle.std.specs.List.{range_with_len};
ghost use Rattle.gj_shape.specs.FunctionData.{IsContinuous};
ghost use Rattle.gj_shape.specs.Limits.{greatest_halves_order};
ghost use Rattle.gj_shape.specs.Table.{table};

use gj_shape::Shape;
use std::alloc::{AllocError, Global};

/// The table on the grid of order `times` q, over one period.
pub(crate) fn table_on_grid(
    alloc: Global,
    shape: &Shape,
    times: u32,
) -> Result<Vec<i64>, AllocError>
    requires continuous { IsContinuous shape.now }
    requires low { 1 ≤ times }
    requires high { times ≤ 4 }
    ensures { IfOk result (λ v. v.items ≡
        map (table shape.now times) (range_with_len 0 (shape.now.order * times))) }
{
    let count = shape.order() * times;
    let mut values = Vec::with_capacity(alloc, count as usize)?;
    for i in 0..count {
        values.push(table_entry(shape, times, i))?;
    }
    Ok(values)
}

/// The entry of the table at an index: on each interval it is affine.
fn table_entry(shape: &Shape, times: u32, i: u32) -> i64
    requires continuous { IsContinuous shape.now }
    requires low { 1 ≤ times }
    requires high { times ≤ 4 }
    requires below { i < greatest_halves_order }
    ensures { result ≡ table shape.now times i }
{
    let start = i / times;
    let rest = i % times;
    i64::from(times - rest) * shape.value_numerator(start)
        + i64::from(rest) * shape.value_numerator(start + 1)
}
