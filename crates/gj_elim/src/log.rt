//! What is told of insertions.
use gj_shape::List;

/// What becomes of a row that is inserted.
#[derive(Clone, Copy, Debug, PartialEq, Eq)]
pub enum Inserted {
    /// It is kept, with its pivot at this column.
    Pivot(u32),
    /// Nothing is left of it: each solution of the kept rows solves it.
    Nothing,
}

/// How a row came to be kept.
#[derive(Debug, Drop, PartialEq, Eq)]
pub struct LogRow {
    /// The row's number among all rows that were inserted, from 0.
    pub number: u64,
    /// The columns at which it was reduced, in this order.
    pub reduce: List<u32>,
    /// The column of its pivot.
    pub pivot: u32,
}
