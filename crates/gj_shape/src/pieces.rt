//! The points of a function on the grid, from one breakpoint to the next.
ghost use Rattle.std.specs.Prelude.{◌≡◌, ◌<◌, ◌≤◌, ◌+◌, ◌-◌, ◌*◌, ◌+ℤ◌, ◌*ℤ◌, ◌++◌, ◌∷◌, [], ℕ};
ghost use Rattle.std.specs.Prelude.{pos, List, map, IfOk, IfErr, OnOk, unsigned_abs};
ghost use Rattle.std.specs.Int.{◌∣◌};
ghost use Rattle.gj_frac.specs.declared.Frac.{Frac};
ghost use Rattle.gj_frac.specs.Fraction.{IsRatio, denominator};
ghost use Rattle.gj_shape.specs.Breaks.{even, IsStraightLine};
ghost use Rattle.gj_shape.specs.Limits.{greatest_order, denominator_bound};
ghost use Rattle.gj_shape.specs.Given.{AreWithinBounds, IsGivenBy, HasFault};
ghost use Rattle.gj_shape.specs.Points.{lefts, values, rights};
ghost use Rattle.gj_shape.specs.declared.points.Point.{Point};

use crate::faults::ShapeFault;
use crate::numerators::numerator_over;
use crate::points::Point;
use crate::shape::Shape;
use crate::values::weighted;
use gj_frac::{Frac, lcm};
use std::alloc::{AllocError, Global};

/// The p of x = p/q.
pub(crate) fn place_of(x: Frac, q: u32) -> u32
    requires low { 0 < q }
    requires high { q ≤ greatest_order }
    requires place { (p : ℕ) × (p < q) × IsRatio x (pos p) (pos q) }
    ensures { IsRatio x (pos result) (pos q) }
{
    numerator_over(x, q) as u32
}

/// Adds the points on the line from u to w, so many steps long, without its two ends.
pub(crate) fn push_line(
    points: &mut Vec<Point>,
    u: Frac,
    w: Frac,
    steps: u32,
) -> Result<(), AllocError>
    requires some { 0 < steps }
    requires few { steps ≤ greatest_order }
    requires within { AreWithinBounds (u ∷ w ∷ []) }
    ensures { OnOk result ((between : List Frac) × IsStraightLine u w steps between
        × (points.new.items ≡ points.old.items ++ map even between)) }
{
    let scale = scale_of(u, w);
    let start = numerator_over(u, scale);
    let end = numerator_over(w, scale);
    for i in 1..steps {
        let x = on_line(start, end, scale, steps, i);
        points.push(Point {
            left: x,
            value: x,
            right: x,
        })?;
    }
    Ok(())
}

/// The least common denominator of two fractions.
fn scale_of(x: Frac, y: Frac) -> u32
    requires { AreWithinBounds (x ∷ y ∷ []) }
    ensures low { 1 ≤ result }
    ensures high { result < denominator_bound }
    ensures first { unsigned_abs (denominator x) ∣ result }
    ensures second { unsigned_abs (denominator y) ∣ result }
{
    lcm(x.den() as u32, y.den() as u32) as u32
}

/// What the line from start/scale to end/scale has after i of so many steps.
fn on_line(start: i64, end: i64, scale: u32, steps: u32, i: u32) -> Frac
    requires low { 0 < scale }
    requires i { i < steps }
    ensures { IsRatio result (pos (steps - i) *ℤ start +ℤ pos i *ℤ end) (pos (scale * steps)) }
{
    let numerator = weighted(u64::from(steps - i), start) + weighted(u64::from(i), end);
    Frac::reduced(numerator, i128::from(u64::from(scale) * u64::from(steps)))
}

/// The function of order `q` with f = `k/q` and these points.
pub(crate) fn with_points(
    alloc: Global,
    q: u32,
    k: u32,
    points: &[Point],
) -> Result<Shape, ShapeFault>
    ensures given { IfOk result (IsGivenBy q k (lefts points.now) (values points.now)
        (rights points.now)) }
    ensures fault { IfErr result (HasFault q k (lefts points.now) (values points.now)
        (rights points.now)) }
{
    let mut left = Vec::with_capacity(alloc, points.len())?;
    let mut value = Vec::with_capacity(alloc, points.len())?;
    let mut right = Vec::with_capacity(alloc, points.len())?;
    for point in points {
        left.push(point.left)?;
        value.push(point.value)?;
        right.push(point.right)?;
    }
    Shape::new(
        alloc,
        q,
        k,
        left.as_slice(),
        value.as_slice(),
        right.as_slice(),
    )
}
