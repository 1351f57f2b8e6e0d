//! What the decision of extremality and its proofs speak of.
use crate::faces::Face;
use crate::list::List;

/// Why an interval is covered: a face that joins it to another interval, or, if `from` is the
/// interval itself, an additive triangle of which it is a projection.
#[derive(Clone, Copy, Debug, PartialEq, Eq)]
pub struct CoverLine {
    /// The interval that is covered.
    pub interval: u32,
    /// The interval to which it is joined, or the interval itself.
    pub from: u32,
    /// The face that joins the two, or the triangle.
    pub face: Face,
}

/// A row of the linear system for the slopes of a perturbation.
#[derive(Clone, Copy, Debug, PartialEq, Eq)]
pub enum RowName {
    /// The perturbation is 0 at 1.
    Period,
    /// It is 0 at f.
    F,
    /// It is additive at the pair.
    Pair(u32, u32),
}

/// Two functions on one grid, given by their values there over one scale.
#[derive(Debug, Drop)]
pub struct Halves {
    /// The order of the grid.
    pub order: u32,
    /// The scale of all values.
    pub scale: i128,
    /// The values of the first function, each times the scale.
    pub first: List<i128>,
    /// The values of the second function, each times the scale.
    pub second: List<i128>,
}

/// A function that may jump, given on a grid by whole numbers over some scale.
#[derive(Debug, Drop)]
pub struct SideNumbers {
    /// The limit from the left at each point of the grid.
    pub left: List<i128>,
    /// The value there.
    pub value: List<i128>,
    /// The limit from the right there.
    pub right: List<i128>,
}

/// Two functions that may jump, on one grid and over one scale.
#[derive(Debug, Drop)]
pub struct LimitHalves {
    /// The order of the grid.
    pub order: u32,
    /// The scale of all numbers.
    pub scale: i128,
    /// The first function.
    pub first: SideNumbers,
    /// The second function.
    pub second: SideNumbers,
}
