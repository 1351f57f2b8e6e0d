//! The class of the least uncovered interval.
ghost use Rattle.std.specs.Prelude.{ℕ, ◌↔◌, ◌<◌, ◌≤◌, Contains, IfOk, IsTrue};
ghost use Rattle.std.specs.List.Sorted.{IsStrictlyIncreasing};
ghost use Rattle.gj_loops.specs.IndexSets.{has};
ghost use Rattle.gj_shape.specs.Limits.{greatest_order};
ghost use Rattle.gj_cover.specs.CoverOf.{IsLeastClass};
ghost use Rattle.gj_cover.specs.Linking.{tight_linking};
ghost use Rattle.gj_cover.specs.Reached.{AreUncovered};
ghost use Rattle.gj_cover.specs.Table.{IsTightInTable};

use crate::reached::Reached;
use crate::table::Table;
use gj_loops::IndexSet;
use std::alloc::{AllocError, Global};

/// The class of the least free interval, in ascending order, if the free intervals are the
/// uncovered ones.
pub(crate) fn least_class(
    alloc: Global,
    table: &Table,
    free: &IndexSet,
) -> Result<Vec<u32>, AllocError>
    requires { AreUncovered (tight_linking table.now.order (IsTightInTable table.now)) free.now }
    ensures { IfOk result (λ v. IsLeastClass table.now.order (IsTightInTable table.now) v.items) }
{
    let Some(least) = free.first() else {
        return Ok(Vec::new(alloc));
    };
    let reached = Reached::from(table, free, least as u32);
    let places = listed(alloc, &reached, table.order())?;
    Ok(places)
}

/// The indices in the set, in ascending order, if all are below this order.
pub fn listed(alloc: Global, set: &IndexSet, order: u32) -> Result<Vec<u32>, AllocError>
    requires few { order ≤ greatest_order }
    requires within { (i : ℕ) → IsTrue (has set.now i) → i < order }
    ensures ascending { IfOk result (λ v. IsStrictlyIncreasing v.items) }
    ensures members { IfOk result (λ v. (i : ℕ) → Contains v.items i ↔ IsTrue (has set.now i)) }
{
    let mut indices = Vec::new(alloc);
    for index in 0..order {
        if !set.contains(index as usize) {
            continue;
        }
        indices.push(index)?;
    }
    Ok(indices)
}
