//! How many intervals before a grid point are in each component.
ghost use Rattle.std.specs.Prelude.{ℕ, pos, ◌≡◌, ◌<◌, ◌≤◌, ◌^◌, ◌+ℤ◌, get_or, length, All};
ghost use Rattle.std.specs.Prelude.{unsigned_abs};
ghost use Rattle.gj_shape.specs.SlopeRows.{rises, component_in};

/// Adds to each column the number of intervals before one grid point that are in its component,
/// less that of those before another: only the intervals between both are counted.
pub(crate) fn add_rises(row: &mut [i128], component: &[u32], less: usize, before: usize)
    requires components { All (λ c. c < length row.old) component.now }
    requires less { less ≤ length component.now }
    requires within { before ≤ length component.now }
    requires small { All (λ x. unsigned_abs x < 2 ^ 100) row.old }
    ensures { (c : ℕ) → c < length row.old →
        get_or row.new c (pos 0) +ℤ pos (rises (component_in component.now) less c)
        ≡ get_or row.old c (pos 0) +ℤ pos (rises (component_in component.now) before c) }
{
    if less <= before {
        add_between(row, component, less, before);
    } else {
        subtract_between(row, component, before, less);
    }
}

/// Adds to each column the number of intervals between two grid points that are in its component.
fn add_between(row: &mut [i128], component: &[u32], from: usize, to: usize)
    requires components { All (λ c. c < length row.old) component.now }
    requires order { from ≤ to }
    requires within { to ≤ length component.now }
    requires small { All (λ x. unsigned_abs x < 2 ^ 100) row.old }
    ensures { (c : ℕ) → c < length row.old →
        get_or row.new c (pos 0) +ℤ pos (rises (component_in component.now) from c)
        ≡ get_or row.old c (pos 0) +ℤ pos (rises (component_in component.now) to c) }
{
    for i in from..to {
        row[component[i] as usize] += 1;
    }
}

/// Subtracts from each column the number of intervals between two grid points that are in its
/// component.
fn subtract_between(row: &mut [i128], component: &[u32], from: usize, to: usize)
    requires components { All (λ c. c < length row.old) component.now }
    requires order { from ≤ to }
    requires within { to ≤ length component.now }
    requires small { All (λ x. unsigned_abs x < 2 ^ 100) row.old }
    ensures { (c : ℕ) → c < length row.old →
        get_or row.new c (pos 0) +ℤ pos (rises (component_in component.now) to c)
        ≡ get_or row.old c (pos 0) +ℤ pos (rises (component_in component.now) from c) }
{
    for i in from..to {
        row[component[i] as usize] -= 1;
    }
}
