//! The tight pairs of a function, row by row, off its values in lanes.
ghost use Rattle.std.specs.Prelude.{ℕ, pos, ◌≡◌, ◌↔◌, ◌+◌, ◌*◌, ◌-ℤ◌, ◌<◌, ◌≤◌, ◌^◌, length, IfOk};
ghost use Rattle.std.specs.Prelude.{IsTrue};
ghost use Rattle.gj_shape.specs.Limits.{greatest_order};
ghost use Rattle.gj_loops.specs.Lanes.{AreInRange};
ghost use Rattle.gj_faces.specs.Rows.{AreRows};

use gj_loops::{IndexSet, SignedLane, write_periods};
use gj_shape::{GREATEST_ORDER, Shape};
use std::alloc::{AllocError, Global};

/// How many lanes serve each order: one for each index below 2 q, q being the greatest order, and
/// 64 behind the last.
const COUNT: usize = 2 * GREATEST_ORDER as usize + 64;

/// The orders up to it are small.
const SMALL_ORDER: u32 = 120;

/// How many lanes serve a small order.
const SMALL_COUNT: usize = 2 * SMALL_ORDER as usize + 64;

/// For each a below the order, the indices b below it for which the pair (a, b) is tight.
///
/// The values, each times the common denominator, are added in the narrowest lanes in which they
/// fit.
pub(crate) fn tight_rows(alloc: Global, shape: &Shape) -> Result<Vec<IndexSet>, AllocError>
    ensures { IfOk result (λ rows. AreRows shape.now shape.now.order rows.items) }
{
    let values = shape.value_numerators();
    if are_below(values, 1 << 14) {
        if shape.order() <= SMALL_ORDER {
            rows_over(alloc, shape, &mut [0i16; SMALL_COUNT])
        } else {
            rows_over(alloc, shape, &mut [0i16; COUNT])
        }
    } else if are_below(values, 1 << 30) {
        narrow_rows(alloc, shape)
    } else {
        wide_rows(alloc, shape)
    }
}

/// Whether each number is below the bound in absolute value.
fn are_below(values: &[i64], bound: u64) -> bool
    requires { 0 < bound }
    ensures { IsTrue result ↔ AreInRange (pos 1 -ℤ pos bound) bound values.now }
{
    for value in values {
        if value.unsigned_abs() >= bound {
            return false;
        }
    }
    true
}

/// The rows of tight pairs off lanes of 32 bits.
///
/// It stands apart, so that a call whose values fit narrower lanes has no room for these on its
/// stack.
#[inline(never)]
fn narrow_rows(alloc: Global, shape: &Shape) -> Result<Vec<IndexSet>, AllocError>
    requires few { shape.now.order ≤ greatest_order }
    requires range { AreInRange (pos 1 -ℤ pos (2 ^ 30)) (2 ^ 30) shape.now.value }
    ensures { IfOk result (λ rows. AreRows shape.now shape.now.order rows.items) }
{
    rows_over(alloc, shape, &mut [0i32; COUNT])
}

/// The rows of tight pairs off lanes of 64 bits.
///
/// It stands apart, so that a call whose values fit narrower lanes has no room for these on its
/// stack.
#[inline(never)]
fn wide_rows(alloc: Global, shape: &Shape) -> Result<Vec<IndexSet>, AllocError>
    requires few { shape.now.order ≤ greatest_order }
    requires range { AreInRange (pos 1 -ℤ pos (2 ^ 62)) (2 ^ 62) shape.now.value }
    ensures { IfOk result (λ rows. AreRows shape.now shape.now.order rows.items) }
{
    rows_over(alloc, shape, &mut [0i64; COUNT])
}

/// The rows of tight pairs off lanes of one width, which the call fills.
///
/// There is a lane for each index below twice the order, and there are 64 more.
fn rows_over<L: SignedLane>(
    alloc: Global,
    shape: &Shape,
    lanes: &mut [L],
) -> Result<Vec<IndexSet>, AllocError>
    requires room { 2 * shape.now.order + 64 ≤ length lanes.old }
    requires range { AreInRange L.least L.bound shape.now.value }
    ensures { IfOk result (λ rows. AreRows shape.now shape.now.order rows.items) }
{
    let values = shape.value_numerators();
    write_periods(lanes, values);
    let lanes = &lanes[..];
    let order = values.len();
    let mut rows = Vec::with_capacity(alloc, order)?;
    for a in 0..order {
        rows.push_reserved(IndexSet::of_sums(lanes, lanes[a], &lanes[a..], order));
    }
    Ok(rows)
}
