//! The limits of the slack in one square of the complex.
ghost use Rattle.std.specs.Prelude.{◌≡◌, ◌<◌, ◌^◌, length, get_or, pos, unsigned_abs};
ghost use Rattle.gj_shape.specs.Faces.{corners_of, slack_from};
ghost use Rattle.gj_complex.specs.Bounds.{AreNumerators};

use gj_shape::{FaceKind, Shape};

/// The numbers that the limits of the slack in one square are made of, over the function's common
/// denominator.
#[derive(Clone, Copy, Debug, PartialEq, Eq)]
pub struct Square {
    /// The limit from the right, the value, and the limit from the left one further on, at the
    /// square's first index.
    right_first: i64,
    value_first: i64,
    left_first: i64,
    /// The same at its second index.
    right_second: i64,
    value_second: i64,
    left_second: i64,
    /// The value and the limit from the right at the sum of the indices.
    value_sum: i64,
    right_sum: i64,
    /// The limits and the value one further on.
    left_next: i64,
    value_next: i64,
    right_next: i64,
    /// The limit from the left two further on.
    left_last: i64,
    ghost around_first: { AreNumerators right_first value_first left_first },
    ghost around_second: { AreNumerators right_second value_second left_second },
    ghost at_sum: { AreNumerators value_sum right_sum left_last },
    ghost around_next: { AreNumerators left_next value_next right_next },
}

impl Square {
    ghost use Rattle.gj_complex.specs.Squares.{limits_in, HasLimits};

    /// The square whose lower left corner is (a/q, b/q).
    pub fn of(shape: &Shape, a: u32, b: u32) -> Square
        requires first { a < shape.now.order }
        requires second { b < shape.now.order }
        ensures { HasLimits result shape.now a b }
    {
        Square {
            right_first: shape.right_numerator(a),
            value_first: shape.value_numerator(a),
            left_first: shape.left_numerator(a + 1),
            right_second: shape.right_numerator(b),
            value_second: shape.value_numerator(b),
            left_second: shape.left_numerator(b + 1),
            value_sum: shape.value_numerator(a + b),
            right_sum: shape.right_numerator(a + b),
            left_next: shape.left_numerator(a + b + 1),
            value_next: shape.value_numerator(a + b + 1),
            right_next: shape.right_numerator(a + b + 1),
            left_last: shape.left_numerator(a + b + 1 + 1),
        }
    }

    /// The limit of the slack from inside the face of this kind at a corner, times the common
    /// denominator.
    pub fn limit(&self, kind: FaceKind, corner: u32) -> i64
        requires { corner < length (corners_of kind 0 0) }
        ensures value { result ≡ get_or (limits_in self.now kind) corner (pos 0) }
        ensures fits { unsigned_abs result < 2 ^ 53 }
    {
        let (x, y, sum) = self.terms(kind, corner);
        x + y - sum
    }

    /// The values or limits at x, at y and at their sum that make up the limit of the slack at a
    /// corner.
    fn terms(&self, kind: FaceKind, corner: u32) -> (i64, i64, i64)
        requires { corner < length (corners_of kind 0 0) }
        ensures value { slack_from result.0 result.1 result.2 ≡ get_or
            (limits_in self.now kind) corner (pos 0) }
        ensures fits { AreNumerators result.0 result.1 result.2 }
    {
        match (kind, corner) {
            (FaceKind::Vertex, _) => (self.value_first, self.value_second, self.value_sum),
            (FaceKind::Horizontal, 0) => (self.right_first, self.value_second, self.right_sum),
            (FaceKind::Horizontal, _) => (self.left_first, self.value_second, self.left_next),
            (FaceKind::Vertical, 0) => (self.value_first, self.right_second, self.right_sum),
            (FaceKind::Vertical, _) => (self.value_first, self.left_second, self.left_next),
            (FaceKind::Diagonal, 0) => (self.left_first, self.right_second, self.value_next),
            (FaceKind::Diagonal, _) => (self.right_first, self.left_second, self.value_next),
            (FaceKind::Lower, 0) => (self.right_first, self.right_second, self.right_sum),
            (FaceKind::Lower, 1) => (self.left_first, self.right_second, self.left_next),
            (FaceKind::Lower, _) => (self.right_first, self.left_second, self.left_next),
            (FaceKind::Upper, 0) => (self.left_first, self.right_second, self.right_next),
            (FaceKind::Upper, 1) => (self.right_first, self.left_second, self.right_next),
            (FaceKind::Upper, _) => (self.left_first, self.left_second, self.left_last),
        }
    }
}
