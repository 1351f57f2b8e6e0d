//! The rows that are kept.
use gj_elim::LogRow;
use gj_shape::List;

/// The rows that are kept over residues.
#[derive(Drop)]
pub(crate) struct KeptResidues {
    /// How each row came to be kept.
    pub(crate) log: Vec<LogRow>,
    /// The entries of the rows, in the order of the log.
    pub(crate) rows: Vec<List<u64>>,
}
