//! The rows that are kept.
use crate::entry::Entry;
use gj_elim::LogRow;
use gj_shape::List;

/// The rows that are kept, and what is known of them.
#[derive(Drop)]
pub(crate) struct KeptSparse {
    /// How each row came to be kept.
    pub(crate) log: Vec<LogRow>,
    /// The entries of the rows, in the order of the log.
    pub(crate) rows: Vec<List<Entry>>,
    /// A bound of the absolute values of each row.
    pub(crate) bounds: Vec<u64>,
    /// For each column the place of the row with its pivot there.
    pub(crate) places: Vec<Option<u32>>,
}
