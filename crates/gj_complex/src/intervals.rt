//! The intervals onto which a face projects.

/// The intervals onto which a face projects; interval i is from i/q to (i + 1)/q.
#[derive(Clone, Copy, Debug, PartialEq, Eq)]
pub struct Projections {
    /// The projection by x, from 0 to q - 1; None if it is a point.
    pub x: Option<u32>,
    /// The projection by y, from 0 to q - 1; None if it is a point.
    pub y: Option<u32>,
    /// The projection by x + y modulo 1, from 0 to q - 1; None if it is a point.
    pub sum: Option<u32>,
}
