//! The pieces of a function between neighbouring grid points.
ghost use Rattle.std.specs.Prelude.{◌≡◌, ◌+ℤ◌, ◌*◌, ◌<◌, ◌%◌, ◌↔◌, IsTrue};
ghost use Rattle.gj_shape.specs.Limits.{IsNumerator};

use gj_shape::Shape;

/// A function from a grid point i/q up to the next, each number times the common denominator.
#[derive(Clone, Copy)]
pub struct Piece {
    /// The value at i/q.
    pub value: i64,
    /// The limit from the right at i/q.
    pub right: i64,
    /// The limit from the left at (i + 1)/q.
    pub left: i64,
    ghost value_small: { IsNumerator value },
    ghost right_small: { IsNumerator right },
    ghost left_small: { IsNumerator left },
}

impl Piece {
    ghost use Rattle.gj_check_minimal.specs.Pieces.{IsPieceAt};

    /// The piece from i/q on, for an i below twice the order.
    pub fn at(shape: &Shape, i: usize) -> Piece
        requires { i < 2 * shape.now.order }
        ensures { IsPieceAt shape.now i result }
    {
        let order = shape.order() as usize;
        let here = wrapped(i, order);
        let next = wrapped(here + 1, order);
        Piece {
            value: shape.value_numerators()[here],
            right: shape.right_numerators()[here],
            left: shape.left_numerators()[next],
        }
    }
}

/// Whether x + y is the total.
pub fn adds_up(x: i64, y: i64, total: i64) -> bool
    requires first { IsNumerator x }
    requires second { IsNumerator y }
    ensures { IsTrue result ↔ (x +ℤ y ≡ total) }
{
    x + y == total
}

/// The index modulo the order, for one below twice the order.
pub(crate) fn wrapped(i: usize, order: usize) -> usize
    requires { i < 2 * order }
    ensures { result ≡ i % order }
{
    if i < order { i } else { i - order }
}
