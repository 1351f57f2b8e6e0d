//! The points of the fill-in.
ghost use Rattle.std.specs.Prelude.{ℤ, ◌≡◌, ◌<◌, ◌≤◌, ◌^◌, ◌++◌, ◌<ℤ◌, ◌+ℤ◌, ◌*ℤ◌, ◌↔◌, neg_ℤ, pos};
ghost use Rattle.std.specs.Prelude.{List, map, IfOk, IfErr, OnOk, IsTrue, unsigned_abs};
ghost use Rattle.std.specs.List.{AllZip};
ghost use Rattle.gj_frac.specs.declared.Frac.{Frac};
ghost use Rattle.gj_frac.specs.Fraction.{IsRatio, IsInside};
ghost use Rattle.gj_shape.specs.Breaks.{AreAscending};
ghost use Rattle.gj_shape.specs.FunctionData.{IsContinuous, at};
ghost use Rattle.gj_shape.specs.TwoSlopes.{rise};
ghost use Rattle.gj_fill.specs.Faults.{IsFillFault};
ghost use Rattle.gj_fill.specs.FillIn.{AreGreatestSteps, IsSubadditiveTable};
ghost use Rattle.gj_fill.specs.FillPoints.{IsPairOf, AreFillPoints, IsFillIn, value_point};
ghost use Rattle.gj_fill.specs.FillPoints.{crossing_point, points_from, fill_points};

use crate::faults::FillFault;
use crate::pairs::first_pair;
use crate::steps::{Steps, greatest_steps, rise_at};
use gj_frac::Frac;
use gj_shape::{List, Shape};
use std::alloc::{AllocError, Global};

/// A continuous function that is affine between neighbouring points, and behind the last one goes
/// back to the first, at 1.
#[derive(Debug, Drop)]
pub struct Filled {
    /// f, between 0 and 1.
    pub f: Frac,
    /// The points, from 0 up to, not including, 1: where each is, and the value there.
    pub points: List<(Frac, Frac)>,
}

/// The two-slope fill-in of a continuous function of order q: with s the greatest rise from one
/// multiple of 1/q to the next and t the greatest fall, between two neighbours the lesser of the
/// line that rises by s from the left one and the line that falls by t to the right one. Its points
/// are those of the function at the multiples of 1/q and, if the function goes by neither slope
/// from one to the next, the crossing of the two lines.
///
/// `NotSubadditive` comes exactly if the function is not subadditive at its multiples of 1/q, with
/// the first two, a ascending, inside it b. The only other error is want of memory. Source: Gomory
/// and Johnson, "Some continuous functions related to corner polyhedra" (1972).
pub fn fill(alloc: Global, shape: &Shape) -> Result<Filled, FillFault>
    requires { IsContinuous shape.now }
    ensures f { IfOk result (λ g. IsRatio g.f (pos shape.now.place) (pos shape.now.order)) }
    ensures inside { IfOk result (λ g. IsInside g.f) }
    ensures points { IfOk result (λ g. AreFillPoints shape.now g.points) }
    ensures ascending { IfOk result (λ g.
        AreAscending (map (λ p. record {
          x = p.0;
          left = p.1;
          value = p.1;
          right =
              p.1;
        }) g.points)) }
    // It is the function at the multiples of 1/q, subadditive, and affine between its points.
    ensures fill_in { IfOk result (λ g. (s t : ℤ) → AreGreatestSteps (at shape.now.value) s t →
        IsFillIn shape.now s t) }
    ensures subadditive { IfOk result (λ g. IsSubadditiveTable (at shape.now.value)) }
    ensures fault { IfErr result (IsFillFault shape.now) }
{
    if let Some((a, b)) = first_pair(shape) {
        return Err(FillFault::NotSubadditive(a, b));
    }
    let steps = greatest_steps(shape);
    let points = points_of(alloc, shape, steps)?;
    let f = shape.f();
    Ok(Filled {
        f,
        points: List::of(points),
    })
}

/// All points of the fill-in by lines with these steps, from 0 on.
fn points_of(alloc: Global, shape: &Shape, steps: Steps) -> Result<Vec<(Frac, Frac)>, AllocError>
    ensures { IfOk result (λ points. AllZip IsPairOf
        (fill_points shape.now steps.rise steps.fall) points.items) }
{
    let mut points = Vec::with_capacity(alloc, 2 * shape.order() as usize)?;
    for a in 0..shape.order() {
        push_points(&mut points, shape, steps, a)?;
    }
    Ok(points)
}

/// Adds the points from a/q up to the next multiple of 1/q.
fn push_points(
    points: &mut Vec<(Frac, Frac)>,
    shape: &Shape,
    steps: Steps,
    a: u32,
) -> Result<(), AllocError>
    requires { a < shape.now.order }
    ensures { OnOk result ((more : List (Frac × Frac)) × AllZip IsPairOf
        (points_from shape.now steps.rise steps.fall a) more
        × (points.new.items ≡ points.old.items ++ more)) }
{
    let x = Frac::ratio(i64::from(a), shape.order());
    points.push((x, shape.value(a)))?;
    if crosses(shape, steps, a) {
        points.push(crossing_pair(shape, steps, a))?;
    }
    Ok(())
}

/// Whether the function goes by neither slope from a/q to the next multiple of 1/q.
fn crosses(shape: &Shape, steps: Steps, a: u32) -> bool
    requires { a < shape.now.order }
    ensures { IsTrue result ↔ ((neg_ℤ steps.fall <ℤ rise shape.now a) ×
        (rise shape.now a <ℤ steps.rise)) }
{
    let rise = rise_at(shape, a);
    -steps.fall < rise && rise < steps.rise
}

/// The point behind a/q at which the two lines cross.
fn crossing_pair(shape: &Shape, steps: Steps, a: u32) -> (Frac, Frac)
    requires within { a < shape.now.order }
    requires above { neg_ℤ steps.fall <ℤ rise shape.now a }
    requires below { rise shape.now a <ℤ steps.rise }
    ensures { IsPairOf (crossing_point shape.now steps.rise steps.fall a) result }
{
    let width = steps.rise + steps.fall;
    let part = rise_at(shape, a) + steps.fall;
    let x = place_over(shape.order(), a, part, width);
    let value = shape.value_numerator(a);
    let scale = shape.common_denominator() as u32;
    (x, height_over(scale, value, steps.rise, part, width))
}

/// Where the lines cross: behind a/q by part/width of the way to the next multiple of 1/q.
fn place_over(order: u32, a: u32, part: i64, width: i64) -> Frac
    requires order { 0 < order }
    requires part { unsigned_abs part ≤ 2 ^ 53 }
    requires wide { pos 0 <ℤ width }
    requires narrow { unsigned_abs width ≤ 2 ^ 53 }
    ensures { IsRatio result (pos a *ℤ width +ℤ part) (pos order *ℤ width) }
{
    over_width(
        product(i64::from(a), width) + i128::from(part),
        order,
        width,
    )
}

/// What a line that begins at this value and rises by so much to the next place has after
/// part/width of the way.
fn height_over(scale: u32, value: i64, rise: i64, part: i64, width: i64) -> Frac
    requires scale { 0 < scale }
    requires value { unsigned_abs value ≤ 2 ^ 53 }
    requires rise { unsigned_abs rise ≤ 2 ^ 53 }
    requires part { unsigned_abs part ≤ 2 ^ 53 }
    requires wide { pos 0 <ℤ width }
    requires narrow { unsigned_abs width ≤ 2 ^ 53 }
    ensures { IsRatio result (value *ℤ width +ℤ rise *ℤ part) (pos scale *ℤ width) }
{
    let height = sum_of_products(value, width, rise, part);
    over_width(height, scale, width)
}

/// The product of two numbers.
fn product(x: i64, y: i64) -> i128
    requires first { unsigned_abs x ≤ 2 ^ 53 }
    requires second { unsigned_abs y ≤ 2 ^ 53 }
    ensures value { result ≡ x *ℤ y }
    ensures small { unsigned_abs result ≤ 2 ^ 106 }
{
    i128::from(x) * i128::from(y)
}

/// x y + u w.
pub(crate) fn sum_of_products(x: i64, y: i64, u: i64, w: i64) -> i128
    requires x { unsigned_abs x ≤ 2 ^ 53 }
    requires y { unsigned_abs y ≤ 2 ^ 53 }
    requires u { unsigned_abs u ≤ 2 ^ 53 }
    requires w { unsigned_abs w ≤ 2 ^ 53 }
    ensures value { result ≡ x *ℤ y +ℤ u *ℤ w }
    ensures small { unsigned_abs result ≤ 2 ^ 107 }
{
    product(x, y) + product(u, w)
}

/// The fraction with this numerator over n times the width.
pub(crate) fn over_width(numerator: i128, n: u32, width: i64) -> Frac
    requires fits { unsigned_abs numerator < 2 ^ 127 }
    requires some { 0 < n }
    requires wide { pos 0 <ℤ width }
    requires narrow { unsigned_abs width ≤ 2 ^ 53 }
    ensures { IsRatio result numerator (pos n *ℤ width) }
{
    Frac::reduced(numerator, product(i64::from(n), width))
}
