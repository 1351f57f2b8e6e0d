//! The row of a group, and its entries.
ghost use Rattle.std.specs.Prelude.{◌≡◌, []};
ghost use Rattle.gj_sparse_elim.specs.Sparse.{factor_at};

use gj_sparse_elim::Entry;
use std::alloc::Global;

/// The entries of a row, and room for those that it has after a step: the two change places.
#[derive(Drop)]
pub(crate) struct Row {
    pub(crate) entries: Vec<Entry>,
    pub(crate) next: Vec<Entry>,
}

/// A row without entries.
pub(crate) fn no_row(alloc: Global) -> Row {
    Row {
        entries: Vec::new(alloc),
        next: Vec::new(alloc),
    }
}

/// The factor at the column; 0 if no entry stands there.
pub(crate) fn factor_of(row: &[Entry], column: u32) -> i128
    ensures { result ≡ factor_at row.now column }
{
    for entry in row {
        if entry.column == column {
            return entry.factor;
        }
    }
    0
}
