//! The slacks at the corners of the complex, over lanes of 32 bits, so that the processor finds
//! several at once.
ghost use Rattle.std.specs.Prelude.{ℕ, ◌≡◌, ◌≢◌, ◌⊎◌, ◌+◌, ◌*◌, ◌<◌, ◌≤◌, min};
ghost use Rattle.gj_perturb.specs.Lanes.{AreSubadditive, AreLeast, IsLeastAt, IsInRow, IsInRows};
ghost use Rattle.gj_perturb.specs.Lanes.{no_slack};

/// The least positive slack at the corners (i, j) with i and j below n, less 1, of a table over two
/// periods of n lanes each; `u32::MAX` if none is positive.
pub(crate) fn least_at_corners(lanes: &[u32], n: usize) -> u32
    requires { AreSubadditive lanes.now n }
    ensures { IsLeastAt lanes.now n (IsInRows n n) result }
{
    let mut least = u32::MAX;
    for i in 0..n {
        least = least.min(least_in_row_of_corners(lanes, n, i));
    }
    least
}

/// The same of the corners (i, j) with j from i to below n.
fn least_in_row_of_corners(lanes: &[u32], n: usize, i: usize) -> u32
    requires lanes { AreSubadditive lanes.now n }
    requires below { i < n }
    ensures { IsLeastAt lanes.now n (IsInRow i n) result }
{
    let first = lanes[i];
    let mut least = u32::MAX;
    for j in i..n {
        let slack = first + lanes[j] - lanes[i + j];
        // One below a slack of 0 is the greatest lane, so the least lane is that of a positive
        // slack.
        least = least.min(slack.wrapping_sub(1));
    }
    least
}

/// The least positive slacks at the corners of lower triangles, each less 1; `u32::MAX` if none is
/// positive.
#[derive(Clone, Copy)]
pub(crate) struct LeastSlacks {
    /// At any corner.
    pub(crate) any: u32,
    /// At the corners of triangles that have a corner with the slack 0.
    pub(crate) beside_zero: u32,
}

/// The least positive slacks of a table over two periods of n lanes each. The slack is symmetric:
/// of each two squares that are mirrored one is read.
pub(crate) fn least_slacks(lanes: &[u32], n: usize) -> LeastSlacks
    requires { AreSubadditive lanes.now n }
    ensures { AreLeast lanes.now n (IsInRows n n) result.any result.beside_zero }
{
    let mut any = u32::MAX;
    let mut beside_zero = u32::MAX;
    for i in 0..n {
        let row = least_in_row(lanes, n, i);
        any = any.min(row.any);
        beside_zero = beside_zero.min(row.beside_zero);
    }
    LeastSlacks { any, beside_zero }
}

/// The same of the squares (i, j) with j from i to below n.
fn least_in_row(lanes: &[u32], n: usize, i: usize) -> LeastSlacks
    requires lanes { AreSubadditive lanes.now n }
    requires below { i < n }
    ensures { AreLeast lanes.now n (IsInRow i n) result.any result.beside_zero }
{
    let first = lanes[i];
    let second = lanes[i + 1];
    let mut any = u32::MAX;
    let mut beside_zero = u32::MAX;
    for j in i..n {
        let corner = first + lanes[j] - lanes[i + j];
        let across = second + lanes[j] - lanes[i + 1 + j];
        let along = first + lanes[j + 1] - lanes[i + (j + 1)];
        // One below a slack of 0 is the greatest lane, so the least lane is that of a positive
        // slack.
        let x = corner.wrapping_sub(1);
        let y = across.wrapping_sub(1);
        let z = along.wrapping_sub(1);
        let least = x.min(y).min(z);
        let greatest = x.max(y).max(z);
        any = any.min(least);
        beside_zero = beside_zero.min(where_greatest_is_none(least, greatest));
    }
    LeastSlacks { any, beside_zero }
}

/// The least of lanes, if one of them stands for none, which is then the greatest.
fn where_greatest_is_none(least: u32, greatest: u32) -> u32
    ensures none { greatest ≡ no_slack → result ≡ least }
    ensures some { greatest ≢ no_slack → result ≡ no_slack }
{
    if greatest == u32::MAX {
        least
    } else {
        u32::MAX
    }
}

/// The least positive slack on the grid that is so many times finer, from the least positive one at
/// any corner and the one at the corners of faces that have a corner with the slack 0, each less 1;
/// `u32::MAX` if none is positive.
#[inline]
pub fn least_on_grid(any: u32, beside_zero: u32, times: u32) -> u64
    requires { times ≤ 4 }
    ensures corners { result ≤ times * (any + 1) }
    ensures beside { beside_zero < no_slack → result ≤ beside_zero + 1 }
    ensures met { (result ≡ times * (any + 1)) ⊎ ((beside_zero < no_slack) ×
        (result ≡ beside_zero + 1)) }
{
    let at_corners = u64::from(times) * (u64::from(any) + 1);
    if beside_zero == u32::MAX {
        return at_corners;
    }
    at_corners.min(u64::from(beside_zero) + 1)
}
