//! A row of the system.
ghost use Rattle.std.specs.Prelude.{pos, ◌≡◌, ◌<◌, length, All, IfOk};
ghost use Rattle.gj_shape.specs.SlopeRows.{row_of as row_entries, component_in};
ghost use Rattle.gj_system.specs.Components.{IsNameBelow};

use crate::rises::{add_rises, subtract_rises};
use gj_shape::RowName;
use std::alloc::{AllocError, Global};

/// Fills a row of zeros, of one entry for each component.
fn fill(row: &mut [i128], component: &[u32], place: u32, name: RowName)
    requires components { All (λ c. c < length row.old) component.now }
    requires place_within { place < length component.now }
    requires name_within { IsNameBelow name (length component.now) }
    requires zeros { All (λ x. x ≡ pos 0) row.old }
    ensures { row.new ≡ row_entries (component_in component.now) (length row.old)
        (length component.now) place name }
{
    let order = component.len();
    match name {
        RowName::Period => add_rises(row, component, order),
        RowName::F => add_rises(row, component, place as usize),
        RowName::Pair(a, b) => {
            let sum = (u64::from(a) + u64::from(b)) % order as u64;
            add_rises(row, component, a as usize);
            add_rises(row, component, b as usize);
            subtract_rises(row, component, sum as usize);
        }
    }
}

/// The row with this name over `count` components, for a function with f at the place: at each
/// component the rise up to 1, up to f, or up to both points of the pair less that up to their sum.
/// `component` has the component of each interval, and its length is the order.
pub fn row_of(
    alloc: Global,
    component: &[u32],
    count: u32,
    place: u32,
    name: RowName,
) -> Result<Vec<i128>, AllocError>
    requires components { All (λ c. c < count) component.now }
    requires place_within { place < length component.now }
    requires name_within { IsNameBelow name (length component.now) }
    ensures { IfOk result (λ v.
        v.items ≡ row_entries (component_in component.now) count
        (length component.now) place name) }
{
    let mut row = vec![in alloc; 0; count as usize]?;
    fill(row.as_mut_slice(), component, place, name);
    Ok(row)
}
