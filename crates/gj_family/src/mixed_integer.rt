//! The mixed-integer cut of Gomory.
ghost use Rattle.std.specs.Prelude.{pos, IfOk, IfErr, OnOk};
ghost use Rattle.gj_shape.specs.FunctionData.{IsWithinBounds};
ghost use Rattle.gj_shape.specs.Given.{IsOrder, IsPlace};
ghost use Rattle.gj_shape.specs.Gmic.{gmic_table};
ghost use Rattle.gj_family.specs.Families.{IsGmic};
ghost use Rattle.gj_family.specs.Faults.{order_of, place_of, HasFamilyFault, HasNoFamilyFault};
ghost use Rattle.gj_shape.specs.Entries.{HasEntries};

use crate::faults::{FamilyFault, order_and_place};
use crate::numerators::shape_over;
use gj_frac::Frac;
use gj_shape::Shape;
use std::alloc::{AllocError, Global};

/// The mixed-integer cut of Gomory for this f: x/f from 0 to f and (1 - x)/(1 - f) from f to 1,
/// continuous. Its order is the denominator of f.
///
/// The error is `BadF` exactly if f is not between 0 and 1, both excluded, and otherwise
/// `TooManyPieces` exactly if the order is above 1,000.
///
/// ```
/// let shape = gmic(alloc, Frac::new(3, 5).unwrap())?;
/// assert_eq!(shape.value(1), Frac::new(1, 3).unwrap());
/// assert_eq!(shape.value(4), Frac::new(1, 2).unwrap());
/// ```
pub fn gmic(alloc: Global, f: Frac) -> Result<Shape, FamilyFault>
    ensures closed_form { IfOk result (IsGmic (order_of f) (place_of f)) }
    ensures within_bounds { IfOk result IsWithinBounds }
    ensures ok { OnOk result (HasNoFamilyFault f) }
    ensures fault { IfErr result (HasFamilyFault f) }
{
    let (order, place) = order_and_place(f)?;
    let entries = gmic_entries(alloc, order, place)?;
    let values = entries.as_slice();
    Ok(shape_over(alloc, place, place * (order - place), values, values)?)
}

/// The values of the mixed-integer cut with this order and place, each times the place and the
/// order less the place.
fn gmic_entries(alloc: Global, order: u32, place: u32) -> Result<Vec<i64>, AllocError>
    requires order_fits { IsOrder order }
    requires place_fits { IsPlace order place }
    ensures { IfOk result (λ v. HasEntries (λ i. pos (gmic_table order place i)) order v.items) }
{
    let mut entries = Vec::with_capacity(alloc, order as usize)?;
    for i in 0..order {
        let entry = if i <= place {
            (order - place) * i
        } else {
            place * (order - i)
        };
        entries.push(i64::from(entry))?;
    }
    Ok(entries)
}
