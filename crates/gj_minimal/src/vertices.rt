//! The tests of the slack at grid points.
ghost use Rattle.std.specs.Prelude.{◌≡◌, ◌<◌, ◌*◌, length, IfSome, IfNone};
ghost use Rattle.gj_shape.specs.FunctionData.{IsWithinBounds};
ghost use Rattle.gj_theory.specs.EarlierTests.{PassesVertex, PassesSymmetry, PassesVertices};
ghost use Rattle.gj_minimal.specs.FirstFailure.{IsFirstFailingIndex, HoldsBelow};
ghost use Rattle.gj_minimal.specs.Failures.{FailsFirst, PassesVertexRow};
ghost use Rattle.gj_loops.specs.Lanes.{ArePeriods};

use crate::failures::Failure;
use crate::value_lanes::row_passes;
use crate::widths::{COUNT, SMALL_COUNT, SMALL_ORDER, is_short};
use gj_loops::{UnsignedLane, write_periods};
use gj_shape::{Face, FaceKind, Shape};

/// The first failed test of the slack at grid points, row by row, over lanes that are as narrow and
/// as few as serve.
pub(crate) fn failed_vertex(shape: &Shape) -> Option<Failure>
    requires { PassesSymmetry shape.now }
    ensures found { IfSome result (FailsFirst shape.now) }
    ensures none { IfNone result (PassesVertices shape.now) }
{
    if !is_short(shape) {
        return failed_over(shape, &mut [0u32; COUNT]);
    }
    if shape.order() <= SMALL_ORDER {
        failed_over(shape, &mut [0u16; SMALL_COUNT])
    } else {
        failed_over(shape, &mut [0u16; COUNT])
    }
}

/// The same over lanes of one width, which are written over.
fn failed_over<L: UnsignedLane>(shape: &Shape, lanes: &mut [L]) -> Option<Failure>
    requires symmetry { PassesSymmetry shape.now }
    requires fits { shape.now.scale < L.bound }
    requires room { 2 * shape.now.order < length lanes.old }
    ensures found { IfSome result (FailsFirst shape.now) }
    ensures none { IfNone result (PassesVertices shape.now) }
{
    write_periods(lanes, shape.value_numerators());
    for a in 0..shape.order() {
        if let Some(b) = failed_in_row(shape, lanes, a) {
            return Some(Failure::Corner(vertex(a, b), 0));
        }
    }
    None
}

/// The vertex at (a/q, b/q).
fn vertex(a: u32, b: u32) -> Face
    ensures { result ≡ record { kind = FaceKind.Vertex; a = a; b = b } }
{
    Face {
        kind: FaceKind::Vertex,
        a,
        b,
    }
}

/// The first b at which the slack at (a/q, b/q) is negative. They are searched one by one if one
/// may be.
fn failed_in_row<L: UnsignedLane>(shape: &Shape, lanes: &[L], a: u32) -> Option<u32>
    requires within { a < shape.now.order }
    requires symmetry { PassesSymmetry shape.now }
    requires lanes { ArePeriods L.number L.least L.bound lanes.now shape.now.value }
    requires rows { HoldsBelow (PassesVertexRow shape.now) a }
    requires limits { IsWithinBounds shape.now }
    ensures found { IfSome result (IsFirstFailingIndex (PassesVertex shape.now a) shape.now.order) }
    ensures none { IfNone result (PassesVertexRow shape.now a) }
{
    if row_passes(lanes, shape, a as usize) {
        return None;
    }
    first_negative(shape, a)
}

/// The first b at which the slack at (a/q, b/q) is negative, searched one by one.
fn first_negative(shape: &Shape, a: u32) -> Option<u32>
    requires { a < shape.now.order }
    ensures found { IfSome result (IsFirstFailingIndex (PassesVertex shape.now a) shape.now.order) }
    ensures none { IfNone result (PassesVertexRow shape.now a) }
{
    for b in 0..shape.order() {
        if shape.value_numerator(a) + shape.value_numerator(b) < shape.value_numerator(a + b) {
            return Some(b);
        }
    }
    None
}
