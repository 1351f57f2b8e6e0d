//! Rows of the linear system for slopes, as a proof that a function is extreme has them.

use gj_shape::{List, RowName};

/// A row, the steps that change it, and its pivot.
#[derive(Debug, Drop)]
pub struct PivotRow {
    /// The row with which the group begins.
    pub name: RowName,
    /// The columns at which it is reduced, in their order.
    pub reduce: List<u32>,
    /// The column of its pivot.
    pub pivot: u32,
}
