//! Perturbations as lists of limits and values.
ghost use Rattle.std.specs.Prelude.{◌≡◌, ◌*◌, ◌<◌, ◌≤◌, ◌==◌, ◌%◌, length, All, IfOk, IsErrOf};
ghost use Rattle.std.specs.Prelude.{map};
ghost use Rattle.std.specs.List.{list_any, range_with_len};
ghost use Rattle.gj_frac.specs.Fraction.{Fits};
ghost use Rattle.gj_shape.specs.Elimination.{at_column};
ghost use Rattle.gj_shape.specs.Given.{IsOrder};
ghost use Rattle.gj_shape.specs.Limits.{greatest_order};
ghost use Rattle.gj_shape.specs.SlopeRows.{component_in};
ghost use Rattle.gj_limit_grids.specs.Grids.{zigzag_limits};
ghost use Rattle.gj_limit_system.specs.Unknowns.{limits_from, right_column, slope_column, value_from};
ghost use Rattle.gj_limit_halves.specs.Sides.{listed, AreSidesWithin, HasWide};

use gj_perturb::{SplitFault, sum, zigzag};
use gj_shape::{List, SideNumbers, wrapped};
use std::alloc::{AllocError, Global};

/// The zigzag of a class of intervals on the grid of order 4 `order`, as limits and values: it does
/// not jump. It is 1 at the first quarter point of each interval of the class, -1 at the third, and
/// 0 elsewhere.
pub fn zigzag_sides(alloc: Global, order: u32, class: &[u32]) -> Result<SideNumbers, AllocError>
    requires low { 2 ≤ order }
    requires high { order ≤ greatest_order }
    requires within { All (λ a. a < order) class.now }
    ensures { IfOk result (λ s. s ≡ listed (order * 4)
        (zigzag_limits (λ i. list_any (λ a. a == i % order) class.now))) }
{
    Ok(SideNumbers {
        left: zigzag(alloc, order, class)?.values,
        value: zigzag(alloc, order, class)?.values,
        right: zigzag(alloc, order, class)?.values,
    })
}

/// The limits and values that the numbers for the columns of the system of limits give, for intervals
/// in these components: the value at 0 is 0, and the limit from the left at the end of an interval is
/// the one from the right at its start and the slope of its component. `Wide` exactly if one of these
/// sums passes 2^127 - 1 in absolute value.
pub fn limits_of(
    alloc: Global,
    component: &[u32],
    numbers: &[i128],
) -> Result<SideNumbers, SplitFault>
    requires order { IsOrder (length component.now) }
    requires components { All (λ c. slope_column (length component.now) c < length numbers.now)
        component.now }
    requires fits { All Fits numbers.now }

    ensures value { IfOk result (λ s. s ≡ listed (length component.now)
        (limits_from (length component.now) (component_in component.now)
        (at_column numbers.now))) }
    ensures within { IfOk result (AreSidesWithin (length component.now)) }
    ensures wide { IsErrOf result SplitFault.Wide → HasWide (length component.now)
        (limits_from (length component.now) (component_in component.now)
        (at_column numbers.now)) }
{
    Ok(SideNumbers {
        left: left_limits(alloc, component, numbers)?,
        value: values(alloc, component.len(), numbers)?,
        right: right_limits(alloc, component.len(), numbers)?,
    })
}

/// The limits from the left.
fn left_limits(alloc: Global, component: &[u32], numbers: &[i128]) -> Result<List<i128>, SplitFault>
    requires order { IsOrder (length component.now) }
    requires components { All (λ c. slope_column (length component.now) c < length numbers.now)
        component.now }
    ensures value { IfOk result (λ l. l ≡ (listed (length component.now)
        (limits_from (length component.now) (component_in component.now)
        (at_column numbers.now))).left) }
    ensures fits { IfOk result (All Fits) }
    ensures wide { IsErrOf result SplitFault.Wide → HasWide (length component.now)
        (limits_from (length component.now) (component_in component.now)
        (at_column numbers.now)) }
{
    let order = component.len() as u32;
    let mut limits = Vec::with_capacity(alloc, component.len())?;
    for i in 0..order {
        let before = wrapped(i + (order - 1), order);
        let start = numbers[2 * (order - 1 - before) as usize];
        let slope = numbers[(2 * order - 1) as usize + component[before as usize] as usize];
        limits.push(sum(start, slope)?)?;
    }
    Ok(List::of(limits))
}

/// The values.
fn values(alloc: Global, order: usize, numbers: &[i128]) -> Result<List<i128>, AllocError>
    requires order { IsOrder order }
    requires columns { 2 * order ≤ length numbers.now }
    ensures { IfOk result (λ l. l ≡
        map (λ i. value_from order (at_column numbers.now) (i % order)) (range_with_len 0 order)) }
{
    let mut values = Vec::with_capacity(alloc, order)?;
    values.push(0)?;
    for i in 1..order {
        values.push(numbers[2 * (order - i) - 1])?;
    }
    Ok(List::of(values))
}

/// The limits from the right.
fn right_limits(alloc: Global, order: usize, numbers: &[i128]) -> Result<List<i128>, AllocError>
    requires order { IsOrder order }
    requires columns { 2 * order ≤ length numbers.now }
    ensures { IfOk result (λ l. l ≡
        map (λ i. at_column numbers.now (right_column order (i % order)))
        (range_with_len 0 order)) }
{
    let mut limits = Vec::with_capacity(alloc, order)?;
    for i in 0..order {
        limits.push(numbers[2 * (order - 1 - i)])?;
    }
    Ok(List::of(limits))
}
