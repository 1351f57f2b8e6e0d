//! The cover of a function.
use gj_shape::{CoverLine, List};

/// Which intervals are covered, why, and in which components; interval i is from i/q to (i + 1)/q.
#[derive(Debug, PartialEq, Eq, Drop)]
pub struct Cover {
    /// The number of the component of each interval, from 0, or None if the interval is uncovered.
    pub component: List<Option<u32>>,
    /// How many components there are.
    pub count: u32,
    /// Why each covered interval is covered, in the order in which they are found.
    pub lines: List<CoverLine>,
    /// All intervals to which joined ones lead from the least uncovered interval, in ascending
    /// order; none if all are covered.
    pub class: List<u32>,
}
