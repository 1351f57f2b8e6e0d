//! Points on grids, and the coarsest grid with a point near a corner at which a number is negative.
ghost use Rattle.std.specs.Prelude.{ℕ, ℤ, pos, ◌≡◌, ◌+◌, ◌-◌, ◌*◌, ◌<◌, ◌≤◌, ◌^◌, ◌+ℤ◌, ◌*ℤ◌, ◌<ℤ◌};
ghost use Rattle.std.specs.Prelude.{◌≤ℤ◌, unsigned_abs};
ghost use Rattle.gj_frac.specs.Fraction.{IsRatio};
ghost use Rattle.gj_shape.specs.FirstViolation.{IsLeastFrom};

use gj_frac::Frac;

/// The point index/(order h).
pub(crate) fn grid_point(index: u64, order: u32, h: u64) -> Frac
    requires order { 0 < order }
    requires some { 0 < h }
    requires fine { order * h ≤ 2 ^ 62 }
    ensures { IsRatio result (pos index) (pos (order * h)) }
{
    Frac::reduced(i128::from(index), i128::from(u64::from(order) * h))
}

/// On the grid of order h times the function's, the point with the weight 1/h at each other of n
/// corners and the rest of the weight at the corner with this coordinate, in units of 1/order. The
/// sum is that of all n coordinates.
pub(crate) fn point_near(order: u32, h: u64, n: u32, coordinate: u32, sum: u32) -> Frac
    requires some { 0 < n }
    requires corners { n ≤ h }
    requires coordinate { coordinate ≤ order }
    requires sum { sum < order * n }
    requires fine { order * h ≤ 2 ^ 62 }
    ensures below { (h - n) * coordinate + sum < order * h }
    ensures value { IsRatio result (pos ((h - n) * coordinate + sum)) (pos (order * h)) }
{
    let index = (h - u64::from(n)) * u64::from(coordinate) + u64::from(sum);
    grid_point(index, order, h)
}

/// The least h, at least the number of corners n, at which (h - n) limit + total is negative, if
/// the limit is.
///
/// That is h times the number near the corner with this limit, if the total is the sum of the
/// limits at all corners.
pub(crate) fn least_denominator(limit: i64, total: i64, n: u32) -> u64
    requires negative { limit <ℤ pos 0 }
    requires fits { unsigned_abs total < 2 ^ 62 }
    ensures least { IsLeastFrom n (λ h. (pos (h - n) *ℤ limit +ℤ total) <ℤ pos 0) result }
    ensures bounded { (t : ℕ) → total ≤ℤ pos t → result ≤ n + t + 1 }
{
    if total < 0 {
        return u64::from(n);
    }
    u64::from(n) + total.unsigned_abs() / limit.unsigned_abs() + 1
}
