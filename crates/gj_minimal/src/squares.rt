//! Rows of squares over lanes of one width.
ghost use Rattle.std.specs.Prelude.{ℕ, ◌≡◌, ◌<◌, ◌≤◌, IsTrue};
ghost use Rattle.gj_theory.specs.EarlierTests.{PassesVertices, PassesSquare};
ghost use Rattle.gj_minimal.specs.Lanes.{AreLimits};

use gj_loops::UnsignedLane;
use gj_shape::Shape;

/// Whether no limit of the slack on the faces of the square (a, b) but its vertex is found to be
/// negative, for each b from a to below q.
pub(crate) fn squares_pass<L: UnsignedLane>(
    lefts: &[L],
    values: &[L],
    rights: &[L],
    shape: &Shape,
    a: usize,
) -> bool
    requires lanes { AreLimits L.number L.least L.bound shape.now lefts.now values.now rights.now }
    requires within { a < shape.now.order }
    requires vertices { PassesVertices shape.now }
    ensures { IsTrue result → (b : ℕ) → a ≤ b → b < shape.now.order → PassesSquare shape.now a b }
{
    let order = shape.order() as usize;
    let right_first = rights[a];
    let left_first = lefts[a + 1];
    let least_first = right_first.lesser(values[a]);
    let mut excess = L::of(0);
    for b in a..order {
        let sum = a + b;
        let next = sum + 1;
        let value = values[b];
        let right = rights[b];
        let left = lefts[b + 1];
        let at_sum = above(
            rights[sum],
            right_first.plus(value),
            least_first.plus(right),
        );
        let least = value.lesser(right);
        let before_next = above(lefts[next], left_first.plus(least), least_first.plus(left));
        let greatest = values[next].greater(rights[next]);
        let at_next = above(greatest, left_first.plus(right), right_first.plus(left));
        let before_last = lefts[next + 1].excess_over(left_first.plus(left));
        excess = excess
            .greater(at_sum)
            .greater(before_next)
            .greater(at_next)
            .greater(before_last);
    }
    excess.is_zero()
}

/// By how much the sum is above the lesser of two others, and 0 if it is not.
fn above<L: UnsignedLane>(sum: L, first: L, second: L) -> L
    ensures { L.natural result ≡ 0 → (L.natural sum ≤ L.natural first) ×
        (L.natural sum ≤ L.natural second) }
{
    sum.excess_over(first.lesser(second))
}
