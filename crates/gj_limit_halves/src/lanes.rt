//! The limits of the slack at the corners of faces, over lanes of 32 bits, so that the processor
//! finds several at once.
ghost use Rattle.std.specs.Prelude.{ℤ, [], ◌∷◌, ◌≡◌, ◌≢◌, ◌+◌, ◌<◌, ◌≤◌, ◌^◌, pos, min};
ghost use Rattle.gj_shape.specs.Faces.{slack_from};
ghost use Rattle.gj_limit_halves.specs.LimitLanes.{AreSideLanes, AreLeastOf, AreLeastIn, StandsFor};
ghost use Rattle.gj_limit_halves.specs.LimitLanes.{IsInRow, IsInRows, IsSquare, no_lane};

use gj_shape::Shape;

/// The least positive limits at corners, each less 1; `u32::MAX` if none is positive.
#[derive(Clone, Copy)]
pub(crate) struct LeastLimits {
    /// At any corner.
    pub(crate) any: u32,
    /// At the corners of faces that have a corner with the limit 0.
    pub(crate) beside_zero: u32,
}

/// The least positive limits of all squares, from lanes of a minimal function over two periods. Of
/// each two squares that are mirrored one is read.
pub(crate) fn least_of_all(
    shape: &Shape,
    lefts: &[u32],
    values: &[u32],
    rights: &[u32],
) -> LeastLimits
    requires { AreSideLanes shape.now lefts.now values.now rights.now }
    ensures { AreLeastOf shape.now (IsInRows shape.now.order shape.now.order) result.any
        result.beside_zero }
{
    let mut any = u32::MAX;
    let mut beside_zero = u32::MAX;
    for a in 0..shape.order() {
        let row = least_in_row(shape, lefts, values, rights, a as usize);
        any = any.min(row.any);
        beside_zero = beside_zero.min(row.beside_zero);
    }
    LeastLimits { any, beside_zero }
}

/// The same of the squares (a, b) with b from a on.
fn least_in_row(
    shape: &Shape,
    lefts: &[u32],
    values: &[u32],
    rights: &[u32],
    a: usize,
) -> LeastLimits
    requires lanes { AreSideLanes shape.now lefts.now values.now rights.now }
    requires within { a < shape.now.order }
    ensures { AreLeastOf shape.now (IsInRow a shape.now.order) result.any result.beside_zero }
{
    let mut any = u32::MAX;
    let mut beside_zero = u32::MAX;
    for b in a..shape.order() as usize {
        let square = least_in_square(shape, lefts, values, rights, a, b);
        any = any.min(square.any);
        beside_zero = beside_zero.min(square.beside_zero);
    }
    LeastLimits { any, beside_zero }
}

/// The same of one square.
fn least_in_square(
    shape: &Shape,
    lefts: &[u32],
    values: &[u32],
    rights: &[u32],
    a: usize,
    b: usize,
) -> LeastLimits
    requires lanes { AreSideLanes shape.now lefts.now values.now rights.now }
    requires first { a < shape.now.order }
    requires second { b < shape.now.order }
    ensures { AreLeastOf shape.now (IsSquare a b) result.any result.beside_zero }
{
    let sum = a + b;
    let next = sum + 1;
    let (left, value, right) = (lefts[a + 1], values[a], rights[a]);
    let (left_up, value_up, right_up) = (lefts[b + 1], values[b], rights[b]);
    let vertex = lane_of(value, value_up, values[sum]);
    let bottom = lane_of(right, value_up, rights[sum]);
    let bottom_end = lane_of(left, value_up, lefts[next]);
    let side = lane_of(value, right_up, rights[sum]);
    let side_end = lane_of(value, left_up, lefts[next]);
    let slope = lane_of(left, right_up, values[next]);
    let slope_end = lane_of(right, left_up, values[next]);
    let lower_first = lane_of(right, right_up, rights[sum]);
    let lower_east = lane_of(left, right_up, lefts[next]);
    let lower_north = lane_of(right, left_up, lefts[next]);
    let upper_east = lane_of(left, right_up, rights[next]);
    let upper_north = lane_of(right, left_up, rights[next]);
    let upper_last = lane_of(left, left_up, lefts[next + 1]);
    let horizontal = of_two(bottom, bottom_end);
    let vertical = of_two(side, side_end);
    let diagonal = of_two(slope, slope_end);
    let lower = of_three(lower_first, lower_east, lower_north);
    let upper = of_three(upper_east, upper_north, upper_last);
    of_square(vertex, horizontal, vertical, diagonal, lower, upper)
}

/// The lane of the limit that these make up: one below it, so that the least lane is that of a
/// positive limit.
fn lane_of(x: u32, y: u32, sum: u32) -> u32
    ensures { x < 2 ^ 31 → y < 2 ^ 31 → sum ≤ x + y →
        StandsFor (slack_from (pos x) (pos y) (pos sum)) result }
{
    x.wrapping_add(y).wrapping_sub(sum).wrapping_sub(1)
}

/// The least positive limits of an edge.
fn of_two(x: u32, y: u32) -> LeastLimits
    ensures { (s t : ℤ) → StandsFor s x → StandsFor t y →
        AreLeastIn (s ∷ t ∷ []) result.any result.beside_zero }
{
    let least = x.min(y);
    LeastLimits {
        any: least,
        beside_zero: where_greatest_is_none(least, x.max(y)),
    }
}

/// The least positive limits of a triangle.
fn of_three(x: u32, y: u32, z: u32) -> LeastLimits
    ensures { (s t r : ℤ) → StandsFor s x → StandsFor t y → StandsFor r z →
        AreLeastIn (s ∷ t ∷ r ∷ []) result.any result.beside_zero }
{
    let least = x.min(y).min(z);
    LeastLimits {
        any: least,
        beside_zero: where_greatest_is_none(least, x.max(y).max(z)),
    }
}

/// The least of lanes, if one of them stands for none, which is then the greatest.
fn where_greatest_is_none(least: u32, greatest: u32) -> u32
    ensures none { greatest ≡ no_lane → result ≡ least }
    ensures some { greatest ≢ no_lane → result ≡ no_lane }
{
    if greatest == u32::MAX {
        least
    } else {
        u32::MAX
    }
}

/// The least of the limits of the faces of one square.
fn of_square(
    vertex: u32,
    horizontal: LeastLimits,
    vertical: LeastLimits,
    diagonal: LeastLimits,
    lower: LeastLimits,
    upper: LeastLimits,
) -> LeastLimits
    ensures any { result.any ≡ min (min (min vertex horizontal.any) (min vertical.any
        diagonal.any)) (min lower.any upper.any) }
    ensures beside { result.beside_zero ≡ min (min (min horizontal.beside_zero vertical.beside_zero)
        diagonal.beside_zero) (min lower.beside_zero upper.beside_zero) }
{
    let edges = horizontal
        .beside_zero
        .min(vertical.beside_zero)
        .min(diagonal.beside_zero);
    LeastLimits {
        any: vertex
            .min(horizontal.any)
            .min(vertical.any.min(diagonal.any))
            .min(lower.any.min(upper.any)),
        beside_zero: edges.min(lower.beside_zero.min(upper.beside_zero)),
    }
}
