//! The row with which a group begins.
ghost use Rattle.std.specs.Prelude.{pos, ◌≡◌, ◌<◌, length, All};
ghost use Rattle.gj_shape.specs.SlopeRows.{row_of, component_in};
ghost use Rattle.gj_proof.specs.ProofText.{IsRowNameBelow};
ghost use Rattle.gj_proof.specs.PresentRows.{arithmetic_of};

use crate::modulo::take_residues;
use crate::rises::add_rises;
use gj_proof::Numbers;
use gj_shape::RowName;

/// Adds the row of this name to a row of zeros.
fn add_named(row: &mut [i128], component: &[u32], place: u32, name: RowName)
    requires components { All (λ c. c < length row.old) component.now }
    requires place_within { place < length component.now }
    requires name_within { IsRowNameBelow (length component.now) name }
    requires zeros { All (λ x. x ≡ pos 0) row.old }
    ensures { row.new ≡ row_of (component_in component.now) (length row.old)
        (length component.now) place name }
{
    let order = component.len();
    match name {
        RowName::Period => add_rises(row, component, 0, order),
        RowName::F => add_rises(row, component, 0, place as usize),
        RowName::Pair(a, b) => {
            let sum = (u64::from(a) + u64::from(b)) % order as u64;
            add_rises(row, component, 0, a as usize);
            add_rises(row, component, sum as usize, b as usize);
        }
    }
}

/// Reads a row: of residues, it takes those of its entries.
fn read(numbers: Numbers, row: &mut [i128])
    ensures { row.new ≡ (arithmetic_of numbers).read row.old }
{
    match numbers {
        Numbers::Whole => {}
        Numbers::Residues => take_residues(row),
    }
}

/// Puts the row of this name, of one entry for each component, in the place of a row, as these
/// numbers read it. `component` has the component of each interval, and its length is the order.
pub(crate) fn begin_row(
    numbers: Numbers,
    row: &mut [i128],
    component: &[u32],
    place: u32,
    name: RowName,
)
    requires components { All (λ c. c < length row.old) component.now }
    requires place_within { place < length component.now }
    requires name_within { IsRowNameBelow (length component.now) name }
    ensures { row.new ≡ (arithmetic_of numbers).read (row_of (component_in component.now)
        (length row.old) (length component.now) place name) }
{
    row.fill(0);
    add_named(row, component, place, name);
    read(numbers, row);
}
