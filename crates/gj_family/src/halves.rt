//! The function that is 1/2 almost everywhere.
ghost use Rattle.std.specs.Prelude.{pos, IfOk, IfErr, OnOk, length};
ghost use Rattle.gj_shape.specs.FunctionData.{IsWithinBounds};
ghost use Rattle.gj_family.specs.Families.{IsHalf};
ghost use Rattle.gj_family.specs.Faults.{order_of, place_of, HasFamilyFault, HasNoFamilyFault};
ghost use Rattle.gj_shape.specs.Entries.{HasEntries};
ghost use Rattle.gj_family.specs.Numerators.{doubled_value};

use crate::faults::{FamilyFault, order_and_place};
use crate::numerators::shape_over;
use gj_frac::Frac;
use gj_shape::Shape;
use std::alloc::{AllocError, Global};

/// The function that is 0 at 0 and 1 at f, with every other value and every limit 1/2. Its order is
/// the denominator of f.
///
/// The error is `BadF` exactly if f is not between 0 and 1, both excluded, and otherwise
/// `TooManyPieces` exactly if the order is above 1,000.
pub fn half(alloc: Global, f: Frac) -> Result<Shape, FamilyFault>
    ensures closed_form { IfOk result (IsHalf (order_of f) (place_of f)) }
    ensures within_bounds { IfOk result IsWithinBounds }
    ensures ok { OnOk result (HasNoFamilyFault f) }
    ensures fault { IfErr result (HasFamilyFault f) }
{
    let (order, place) = order_and_place(f)?;
    let limits = ones(alloc, order)?;
    let values = doubled_values(alloc, order, place)?;
    Ok(shape_over(alloc, place, 2, limits.as_slice(), values.as_slice())?)
}

/// So many ones.
fn ones(alloc: Global, count: u32) -> Result<Vec<i64>, AllocError>
    ensures { IfOk result (λ v. HasEntries (λ _. pos 1) count v.items) }
{
    let mut entries = Vec::with_capacity(alloc, count as usize)?;
    for _ in 0..count {
        entries.push(1)?;
    }
    Ok(entries)
}

/// Twice the values: 0 at 0, 2 at the place and 1 elsewhere.
fn doubled_values(alloc: Global, order: u32, place: u32) -> Result<Vec<i64>, AllocError>
    ensures { IfOk result (λ v. HasEntries (doubled_value place) order v.items) }
{
    let mut entries = Vec::with_capacity(alloc, order as usize)?;
    for i in 0..order {
        let entry = if i == 0 {
            0
        } else if i == place {
            2
        } else {
            1
        };
        entries.push(entry)?;
    }
    Ok(entries)
}
