//! How wide and how many lanes serve a function.
ghost use Rattle.std.specs.Prelude.{◌<◌, ◌^◌, IsTrue};
ghost use Rattle.gj_shape.specs.FunctionData.{IsWithinBounds};

use gj_shape::{GREATEST_ORDER, Shape};

/// How many lanes serve each order: one for each index from 0 to 2 q, q being the greatest order.
pub(crate) const COUNT: usize = 2 * GREATEST_ORDER as usize + 1;

/// The orders up to it are small.
pub(crate) const SMALL_ORDER: u32 = 120;

/// How many lanes serve a small order.
pub(crate) const SMALL_COUNT: usize = 2 * SMALL_ORDER as usize + 1;

/// If the common denominator is below this, the sum of two numbers from 0 to it fits 16 bits.
const SHORT_BOUND: i128 = 1 << 15;

/// Whether lanes of 16 bits are enough for a function whose tests of signs and of symmetry pass.
pub(crate) fn is_short(shape: &Shape) -> bool
    ensures short { IsTrue result → shape.now.scale < 2 ^ 15 }
    ensures limits { IsWithinBounds shape.now }
{
    shape.common_denominator() < SHORT_BOUND
}
