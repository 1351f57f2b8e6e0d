//! The lines of rows with continuous columns.
use gj_proof::{CutLine, CutTerm};
use gj_shape::List;

/// A row of a tableau with continuous columns.
#[derive(Debug, Drop)]
pub struct MixedLine {
    /// Its cut with the terms of the whole columns, or that it is passed over.
    pub line: CutLine,
    /// The terms of the continuous columns, each with its weight for a coefficient.
    pub weights: List<CutTerm>,
}
