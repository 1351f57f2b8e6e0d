//! How many intervals before a grid point are in each component.
ghost use Rattle.std.specs.Prelude.{ℕ, pos, ◌≡◌, ◌<◌, ◌≤◌, ◌^◌, ◌+ℤ◌, ◌-ℤ◌, get_or, length, All};
ghost use Rattle.std.specs.Prelude.{unsigned_abs};
ghost use Rattle.gj_shape.specs.SlopeRows.{rises, component_in};

/// Adds to each column the number of intervals before the grid point that are in its component.
pub(crate) fn add_rises(row: &mut [i128], component: &[u32], before: usize)
    requires components { All (λ c. c < length row.old) component.now }
    requires within { before ≤ length component.now }
    requires small { All (λ x. unsigned_abs x < 2 ^ 100) row.old }
    ensures { (c : ℕ) → c < length row.old →
        get_or row.new c (pos 0) ≡ get_or row.old c (pos 0) +ℤ pos
        (rises (component_in component.now) before c) }
{
    for i in 0..before {
        row[component[i] as usize] += 1;
    }
}

/// Subtracts from each column the number of intervals before the grid point that are in its
/// component.
pub(crate) fn subtract_rises(row: &mut [i128], component: &[u32], before: usize)
    requires components { All (λ c. c < length row.old) component.now }
    requires within { before ≤ length component.now }
    requires small { All (λ x. unsigned_abs x < 2 ^ 100) row.old }
    ensures { (c : ℕ) → c < length row.old →
        get_or row.new c (pos 0) ≡ get_or row.old c (pos 0) -ℤ pos
        (rises (component_in component.now) before c) }
{
    for i in 0..before {
        row[component[i] as usize] -= 1;
    }
}
