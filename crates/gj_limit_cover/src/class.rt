//! The class of the least uncovered interval.
ghost use Rattle.std.specs.Prelude.{IfOk};
ghost use Rattle.gj_cover.specs.Reached.{AreUncovered};
ghost use Rattle.gj_jumps.specs.LimitCover.{IsTightAt};
ghost use Rattle.gj_limit_cover.specs.CoverOf.{IsLeastClass};
ghost use Rattle.gj_limit_cover.specs.Linking.{limit_linking};
ghost use Rattle.gj_limit_cover.specs.Table.{IsTableOf};

use crate::reached::Reached;
use crate::table::Table;
use gj_cover::listed;
use gj_loops::IndexSet;
use gj_shape::Shape;
use std::alloc::{AllocError, Global};

/// The class of the least free interval, in ascending order, if the free intervals are the
/// uncovered ones.
pub(crate) fn least_class(
    alloc: Global,
    shape: &Shape,
    table: &Table,
    free: &IndexSet,
) -> Result<Vec<u32>, AllocError>
    requires table { IsTableOf shape.now table.now }
    requires uncovered { AreUncovered
        (limit_linking shape.now.order (IsTightAt shape.now)) free.now }
    ensures { IfOk result (λ v. IsLeastClass shape.now.order (IsTightAt shape.now) v.items) }
{
    let Some(least) = free.first() else {
        return Ok(Vec::new(alloc));
    };
    let reached = Reached::from(shape, table, free, least as u32);
    let places = listed(alloc, &reached, shape.order())?;
    Ok(places)
}
