//! Rows of squares, whose limits of the subadditivity slack are tested all at once over lanes of
//! one width.
ghost use Rattle.std.specs.Prelude.{◌≡◌, ◌<◌, ◌≤◌, ◌↔◌, IsTrue};
ghost use Rattle.gj_check_minimal.specs.Tests.{IsSubadditiveRow};
ghost use Rattle.gj_check_minimal.specs.Lanes.{IsPartBelow, HasNoExcess};

use gj_loops::UnsignedLane;
use gj_shape::Shape;

/// The numbers of a function at i/q for each i up to 2 q, each times the common denominator.
#[derive(Clone, Copy)]
pub(crate) struct Lanes<'a, L: UnsignedLane> {
    /// The values.
    pub(crate) value: &'a [L],
    /// The limits from the right.
    pub(crate) right: &'a [L],
    /// The limits from the left.
    pub(crate) left: &'a [L],
}

/// The lanes of one piece.
#[derive(Clone, Copy)]
struct Part<L: UnsignedLane> {
    /// The value at its start.
    value: L,
    /// The limit from the right at its start.
    right: L,
    /// The limit from the left at its end.
    left: L,
}

impl<'a, L: UnsignedLane> Lanes<'a, L> {
    ghost use Rattle.gj_check_minimal.specs.Lanes.{AreLanesOf, HasIndex, part_at};

    /// Whether no limit of the slack is negative in any square (a, b) with b from a on.
    pub(crate) fn is_subadditive_row(self, shape: &Shape, a: usize) -> bool
        requires lanes { AreLanesOf L.number L.least L.bound shape.now self }
        requires within { a < shape.now.order }
        ensures { IsTrue result ↔ IsSubadditiveRow shape.now a }
    {
        let order = shape.order() as usize;
        let first = self.part(a);
        let mut excess = L::of(0);
        for b in a..order {
            let sum = a + b;
            let here = excess_in_square(first, self.part(b), self.part(sum), self.part(sum + 1));
            excess = excess.greater(here);
        }
        excess.is_zero()
    }

    /// The lanes of the piece from i/q on.
    fn part(self, i: usize) -> Part<L>
        requires { HasIndex self i }
        ensures { (e : L) → result ≡ part_at self.entry i e }
    {
        Part {
            value: self.value[i],
            right: self.right[i],
            left: self.left[i + 1],
        }
    }
}

/// By how much a limit of the slack in a square is negative at most, and 0 if none is: by the
/// pieces from a/q, from b/q, from (a + b)/q and from (a + b + 1)/q on.
fn excess_in_square<L: UnsignedLane>(
    first: Part<L>,
    second: Part<L>,
    sum: Part<L>,
    next: Part<L>,
) -> L
    requires first { IsPartBelow L.natural L.bound first }
    requires second { IsPartBelow L.natural L.bound second }
    ensures { (L.natural result ≡ 0) ↔ HasNoExcess L.natural first second sum next }
{
    let least = first.right.lesser(first.value);
    let at_vertex = sum.value.excess_over(first.value.plus(second.value));
    let at_sum = excess_over_lesser(
        sum.right,
        first.right.plus(second.value),
        least.plus(second.right),
    );
    let before_next = excess_over_lesser(
        sum.left,
        first.left.plus(second.value.lesser(second.right)),
        least.plus(second.left),
    );
    let at_next = excess_over_lesser(
        next.value.greater(next.right),
        first.left.plus(second.right),
        first.right.plus(second.left),
    );
    let before_last = next.left.excess_over(first.left.plus(second.left));
    at_vertex
        .greater(at_sum)
        .greater(before_next)
        .greater(at_next)
        .greater(before_last)
}

/// By how much the sum is above the lesser of two totals, and 0 if it is not.
fn excess_over_lesser<L: UnsignedLane>(sum: L, first: L, second: L) -> L
    ensures { (L.natural result ≡ 0) ↔ ((L.natural sum ≤ L.natural first) ×
        (L.natural sum ≤ L.natural second)) }
{
    sum.excess_over(first.lesser(second))
}
