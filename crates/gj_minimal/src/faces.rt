//! The tests of the slack on the faces that are no vertices.
ghost use Rattle.std.specs.Prelude.{ℕ, ◌≡◌, ◌*◌, ◌<◌, length, IsTrue, IfSome, IfNone};
ghost use Rattle.gj_shape.specs.Faces.{corners_of};
ghost use Rattle.gj_shape.specs.FunctionData.{IsContinuous};
ghost use Rattle.gj_theory.specs.EarlierTests.{PassesVertices, PassesSquare, HoldsBefore};
ghost use Rattle.gj_minimal.specs.FirstFailure.{IsFirstFailingIndex, HoldsBelow};
ghost use Rattle.gj_minimal.specs.Failures.{FailsFirst, PassesRow, IsNonnegativeIn};
ghost use Rattle.gj_minimal.specs.Lanes.{AreLimits};

use crate::failures::Failure;
use crate::squares::squares_pass;
use crate::widths::{COUNT, SMALL_COUNT, SMALL_ORDER, is_short};
use gj_complex::{Square, corners};
use gj_loops::{UnsignedLane, write_periods};
use gj_shape::{Face, FaceKind, Shape};

/// The kinds of faces that are no vertices, in walk order.
const EDGES_AND_TRIANGLES: [FaceKind; 5] = [
    FaceKind::Horizontal,
    FaceKind::Vertical,
    FaceKind::Diagonal,
    FaceKind::Lower,
    FaceKind::Upper,
];

/// The first failed test of the slack on the faces that are no vertices, square by square. The
/// limits of a continuous function are slacks at grid points, and need no test.
pub(crate) fn failed_face(shape: &Shape, is_continuous: bool) -> Option<Failure>
    requires vertices { PassesVertices shape.now }
    requires continuous { IsTrue is_continuous → IsContinuous shape.now }
    ensures found { IfSome result (FailsFirst shape.now) }
    ensures none { IfNone result (HoldsBelow (PassesRow shape.now) shape.now.order) }
{
    let order = shape.order();
    if is_continuous {
        return None;
    }
    if !is_short(shape) {
        return failed_over(
            shape,
            &mut [0u32; COUNT],
            &mut [0u32; COUNT],
            &mut [0u32; COUNT],
        );
    }
    if order <= SMALL_ORDER {
        failed_over(
            shape,
            &mut [0u16; SMALL_COUNT],
            &mut [0u16; SMALL_COUNT],
            &mut [0u16; SMALL_COUNT],
        )
    } else {
        failed_over(
            shape,
            &mut [0u16; COUNT],
            &mut [0u16; COUNT],
            &mut [0u16; COUNT],
        )
    }
}

/// The same over lanes of one width, which are written over.
fn failed_over<L: UnsignedLane>(
    shape: &Shape,
    lefts: &mut [L],
    values: &mut [L],
    rights: &mut [L],
) -> Option<Failure>
    requires vertices { PassesVertices shape.now }
    requires fits { shape.now.scale < L.bound }
    requires lefts { 2 * shape.now.order < length lefts.old }
    requires values { 2 * shape.now.order < length values.old }
    requires rights { 2 * shape.now.order < length rights.old }
    ensures found { IfSome result (FailsFirst shape.now) }
    ensures none { IfNone result (HoldsBelow (PassesRow shape.now) shape.now.order) }
{
    write_periods(lefts, shape.left_numerators());
    write_periods(values, shape.value_numerators());
    write_periods(rights, shape.right_numerators());
    for a in 0..shape.order() {
        if let Some(failure) = failed_in_row(shape, lefts, values, rights, a) {
            return Some(failure);
        }
    }
    None
}

/// The first failed test in the squares of row a, which are searched one by one if one may fail.
fn failed_in_row<L: UnsignedLane>(
    shape: &Shape,
    lefts: &[L],
    values: &[L],
    rights: &[L],
    a: u32,
) -> Option<Failure>
    requires within { a < shape.now.order }
    requires vertices { PassesVertices shape.now }
    requires lanes { AreLimits L.number L.least L.bound shape.now lefts.now values.now rights.now }
    requires rows { HoldsBelow (PassesRow shape.now) a }
    ensures found { IfSome result (FailsFirst shape.now) }
    ensures none { IfNone result (PassesRow shape.now a) }
{
    if squares_pass(lefts, values, rights, shape, a as usize) {
        return None;
    }
    for b in 0..shape.order() {
        if let Some(failure) = failed_in_square(shape, a, b) {
            return Some(failure);
        }
    }
    None
}

/// The first failed test in the square (a, b).
fn failed_in_square(shape: &Shape, a: u32, b: u32) -> Option<Failure>
    requires first { a < shape.now.order }
    requires second { b < shape.now.order }
    requires vertices { PassesVertices shape.now }
    requires squares { HoldsBefore shape.now (PassesSquare shape.now) a b }
    ensures found { IfSome result (FailsFirst shape.now) }
    ensures none { IfNone result (PassesSquare shape.now a b) }
{
    let square = Square::of(shape, a, b);
    for kind in EDGES_AND_TRIANGLES {
        if let Some(corner) = first_negative(&square, kind) {
            return Some(Failure::Corner(Face { kind, a, b }, corner));
        }
    }
    None
}

/// The first corner of the square's face of this kind at which the limit of the slack is negative.
fn first_negative(square: &Square, kind: FaceKind) -> Option<u32>
    ensures found { IfSome result (IsFirstFailingIndex (IsNonnegativeIn square.now kind)
        (length (corners_of kind 0 0))) }
    ensures none { IfNone result (HoldsBelow (IsNonnegativeIn square.now kind)
        (length (corners_of kind 0 0))) }
{
    for corner in 0..corners(kind) {
        if square.limit(kind, corner) < 0 {
            return Some(corner);
        }
    }
    None
}
