//! The violation that a failed test shows.
ghost use Rattle.std.specs.Prelude.{ℕ, ℤ, pos, ◌≡◌, ◌<◌, ◌*◌, ◌<ℤ◌, length, sum, get_or};
ghost use Rattle.std.specs.Prelude.{unsigned_abs, ◌^◌, ◌+◌};
ghost use Rattle.gj_shape.specs.FunctionData.{at};
ghost use Rattle.gj_shape.specs.Faces.{corners_of, limits_of};
ghost use Rattle.gj_shape.specs.FirstViolation.{Shows, ShowsNearCorner, first_coordinates};
ghost use Rattle.gj_shape.specs.FirstViolation.{second_coordinates};
ghost use Rattle.gj_shape.specs.FirstViolation.Test.{nonnegative_after, nonnegative_before};
ghost use Rattle.gj_shape.specs.FirstViolation.Test.{symmetric_between};
ghost use Rattle.gj_complex.specs.Squares.{limits_in};
ghost use Rattle.gj_theory.specs.EarlierTests.{PassesSymmetry};
ghost use Rattle.gj_shape.specs.SlopeRows.{total};
ghost use Rattle.gj_minimal.specs.Failures.{FailsFirst, test_of, HasGridPoints};

use crate::failures::Failure;
use crate::points::{grid_point, least_denominator, point_near};
use crate::symmetry::midpoints_agree;
use gj_complex::{Square, corner, corners};
use gj_frac::Frac;
use gj_shape::{Face, FaceKind, Shape, Violation};

/// What the first failed test shows.
pub(crate) fn shown(shape: &Shape, failure: Failure) -> Violation
    requires { FailsFirst shape.now failure }
    ensures shows { Shows shape.now (test_of failure) result }
    ensures points { HasGridPoints shape.now result }
{
    let order = shape.order();
    match failure {
        Failure::Zero => Violation::Zero,
        Failure::Value(i) => Violation::Negative(grid_point(u64::from(i), order, 1)),
        Failure::Start(i) => Violation::Negative(point_after(shape, i)),
        Failure::End(i) => Violation::Negative(point_before(shape, i)),
        Failure::Mirror(i) => Violation::Asymmetric(grid_point(u64::from(i), order, 1)),
        Failure::Interval(i) => Violation::Asymmetric(point_between(shape, i)),
        Failure::Corner(face, corner) => {
            let (x, y) = pair_near(shape, face, corner);
            Violation::Superadditive(x, y)
        }
    }
}

/// The point near i/q to its right where the value is negative, as the limit there is.
fn point_after(shape: &Shape, i: u32) -> Frac
    requires within { i < shape.now.order }
    requires negative { at shape.now.right i <ℤ pos 0 }
    ensures shows { Shows shape.now (nonnegative_after i) (Violation.Negative result) }
    ensures points { HasGridPoints shape.now (Violation.Negative result) }
{
    let order = shape.order();
    let limit = shape.right_numerator(i);
    let h = least_denominator(limit, limit + shape.left_numerator(i + 1), 2);
    point_near(order, h, 2, i, 2 * i + 1)
}

/// The point near (i + 1)/q to its left where the value is negative, as the limit there is.
fn point_before(shape: &Shape, i: u32) -> Frac
    requires within { i < shape.now.order }
    requires negative { at shape.now.left (i + 1) <ℤ pos 0 }
    ensures shows { Shows shape.now (nonnegative_before i) (Violation.Negative result) }
    ensures points { HasGridPoints shape.now (Violation.Negative result) }
{
    let order = shape.order();
    let limit = shape.left_numerator(i + 1);
    let h = least_denominator(limit, shape.right_numerator(i) + limit, 2);
    point_near(order, h, 2, i + 1, 2 * i + 1)
}

/// The midpoint of the open interval from i/q to (i + 1)/q where the values there and at f less it
/// do not add up to 1, and else the point at a quarter of it.
fn point_between(shape: &Shape, i: u32) -> Frac
    requires within { i < shape.now.order }
    ensures shows { Shows shape.now (symmetric_between i) (Violation.Asymmetric result) }
    ensures points { HasGridPoints shape.now (Violation.Asymmetric result) }
{
    let index = u64::from(i);
    if midpoints_agree(shape, i) {
        grid_point(4 * index + 1, shape.order(), 4)
    } else {
        grid_point(2 * index + 1, shape.order(), 2)
    }
}

/// The pair of points near a corner of the face where the slack is negative, as its limit at the
/// corner is.
fn pair_near(shape: &Shape, face: Face, at_corner: u32) -> (Frac, Frac)
    requires first { face.a < shape.now.order }
    requires second { face.b < shape.now.order }
    requires corner { at_corner < length (corners_of face.kind face.a face.b) }
    requires symmetry { PassesSymmetry shape.now }
    requires negative { get_or (limits_of shape.now face.kind face.a face.b) at_corner
        (pos 0) <ℤ pos 0 }
    ensures shows { ShowsNearCorner shape.now face.kind face.a face.b at_corner
        (Violation.Superadditive result.0 result.1) }
    ensures points { HasGridPoints shape.now (Violation.Superadditive result.0 result.1) }
{
    let order = shape.order();
    let square = Square::of(shape, face.a, face.b);
    let n = corners(face.kind);
    let limit = square.limit(face.kind, at_corner);
    let h = least_denominator(limit, limit_total(&square, face.kind), n);
    let (a, b) = corner(face, at_corner);
    let (sum_a, sum_b) = coordinate_sums(face);
    (
        point_near(order, h, n, a, sum_a),
        point_near(order, h, n, b, sum_b),
    )
}

/// The sum of the limits of the slack at the corners of the square's face of this kind.
fn limit_total(square: &Square, kind: FaceKind) -> i64
    ensures value { result ≡ total (limits_in square.now kind) }
    ensures fits { unsigned_abs result < 2 ^ 55 }
{
    let mut total = 0;
    for corner in 0..corners(kind) {
        total += square.limit(kind, corner);
    }
    total
}

/// The sums of the first and of the second coordinates of the corners of the face.
fn coordinate_sums(face: Face) -> (u32, u32)
    requires first { face.a < 2 ^ 20 }
    requires second { face.b < 2 ^ 20 }
    ensures first { result.0 ≡ sum (first_coordinates face.kind face.a face.b) }
    ensures second { result.1 ≡ sum (second_coordinates face.kind face.a face.b) }
{
    let (a, b) = (face.a, face.b);
    match face.kind {
        FaceKind::Vertex => (a, b),
        FaceKind::Horizontal => (2 * a + 1, 2 * b),
        FaceKind::Vertical => (2 * a, 2 * b + 1),
        FaceKind::Diagonal => (2 * a + 1, 2 * b + 1),
        FaceKind::Lower => (3 * a + 1, 3 * b + 1),
        FaceKind::Upper => (3 * a + 2, 3 * b + 2),
    }
}
