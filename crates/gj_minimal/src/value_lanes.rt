//! The values in lanes, over which a whole row of vertices is tested at once.
ghost use Rattle.std.specs.Prelude.{◌≡◌, ◌⊎◌, ◌+◌, ◌-◌, ◌*◌, ◌<◌, IsTrue, max};
ghost use Rattle.gj_shape.specs.FunctionData.{IsWithinBounds};
ghost use Rattle.gj_minimal.specs.Failures.{PassesAhead, PassesWithSum};
ghost use Rattle.gj_loops.specs.Lanes.{ArePeriods};

use gj_loops::UnsignedLane;
use gj_shape::Shape;

/// Whether no slack at (a/q, b/q) is found to be negative, for each b and c from a with b at most c
/// and with a + b + c the place modulo q. The pairs of any two of such indices pass or fail
/// together, since the values are symmetric.
///
/// The lanes are the values at i/q for each i up to 2 q, each times the common denominator.
pub(crate) fn row_passes<L: UnsignedLane>(lanes: &[L], shape: &Shape, a: usize) -> bool
    requires lanes { ArePeriods L.number L.least L.bound lanes.now shape.now.value }
    requires within { a < shape.now.order }
    ensures { IsTrue result → PassesAhead shape.now a }
{
    let rest = rest_of(shape, a);
    if !part_passes(lanes, shape, a, rest) {
        return false;
    }
    part_passes(lanes, shape, a, rest + shape.order() as usize)
}

/// The same of the indices b and c with this sum.
fn part_passes<L: UnsignedLane>(lanes: &[L], shape: &Shape, a: usize, rest: usize) -> bool
    requires lanes { ArePeriods L.number L.least L.bound lanes.now shape.now.value }
    requires within { a < shape.now.order }
    requires rest { rest < 2 * shape.now.order }
    ensures { IsTrue result → PassesWithSum shape.now a rest }
{
    let start = first_index(shape, a, rest);
    let first = lanes[a];
    let mut excess = L::of(0);
    for b in start..rest / 2 + 1 {
        excess = excess.greater(lanes[a + b].excess_over(first.plus(lanes[b])));
    }
    excess.is_zero()
}

/// The index that with a adds up to the place modulo q.
fn rest_of(shape: &Shape, a: usize) -> usize
    requires { a < shape.now.order }
    ensures below { result < shape.now.order }
    ensures sum { (a + result ≡ shape.now.place) ⊎
        (a + result ≡ shape.now.place + shape.now.order) }
    ensures limits { IsWithinBounds shape.now }
{
    let place = shape.place() as usize;
    if a <= place {
        place - a
    } else {
        place + shape.order() as usize - a
    }
}

/// The least index from a on that has this sum with an index below the order.
fn first_index(shape: &Shape, a: usize, rest: usize) -> usize
    requires { rest < 2 * shape.now.order }
    ensures least { result ≡ max a (rest + 1 - shape.now.order) }
    ensures limits { IsWithinBounds shape.now }
{
    let order = shape.order() as usize;
    a.max((rest + 1).saturating_sub(order))
}
