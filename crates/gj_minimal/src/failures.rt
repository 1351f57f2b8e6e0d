//! Failed tests of minimality.
use gj_shape::Face;

/// A test of minimality that a function of order q fails. Each index i is below q.
#[derive(Clone, Copy)]
pub(crate) enum Failure {
    /// The value at 0 is not 0.
    Zero,
    /// The value at i/q is negative.
    Value(u32),
    /// The limit from the right at i/q is negative.
    Start(u32),
    /// The limit from the left at (i + 1)/q is negative.
    End(u32),
    /// The values at i/q and at f - i/q do not add up to 1.
    Mirror(u32),
    /// On the open interval from i/q to (i + 1)/q the values at x and at f - x do not add up to 1.
    Interval(u32),
    /// The limit of the slack at this corner of the face is negative.
    Corner(Face, u32),
}
