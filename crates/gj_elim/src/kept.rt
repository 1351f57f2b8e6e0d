//! The rows that are kept.
use crate::extent::Extent;
use crate::log::LogRow;
use gj_shape::List;

/// The rows that are kept, and what is known of them.
#[derive(Drop)]
pub(crate) struct KeptRows {
    /// How each row came to be kept.
    pub(crate) log: Vec<LogRow>,
    /// The entries of the rows, in the order of the log.
    pub(crate) rows: Vec<List<i128>>,
    /// How far each row goes.
    pub(crate) extents: Vec<Extent>,
    /// For each column the place of the row with its pivot there.
    pub(crate) places: Vec<Option<u32>>,
}
