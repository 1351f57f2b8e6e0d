//! Rows that are given from a list.
ghost use Rattle.std.specs.Prelude.{◌≡◌, IfOk};
ghost use Rattle.gj_residue.specs.Source.{Gives};

use crate::source::RowSource;
use gj_shape::List;
use std::alloc::{AllocError, Global};
use std::marker::Model;

/// The rows of a list. Contracts see all of them, and those that are still to come.
#[derive(Drop)]
pub struct ListedRows {
    rows: Vec<List<i128>>,
    given: usize,
}

impl Model for ListedRows {
    ghost use Rattle.std.specs.Prelude.{◌≤◌, drop, vec_len};
    ghost use Rattle.gj_residue.specs.Source.{RowsToCome};

    ghost Value = { RowsToCome };

    ghost view = { λ s. record { all = s.rows.items; left = drop s.given s.rows.items } };

    ghost invariant = { λ s. s.given ≤ vec_len s.rows };
}

impl ListedRows {
    /// The rows of this list, of which all are to come.
    pub fn new(rows: Vec<List<i128>>) -> ListedRows
        ensures { result ≡ record { all = rows.items; left = rows.items } }
    {
        ListedRows { rows, given: 0 }
    }
}

impl RowSource for ListedRows {
    ghost all = { λ s. s.all };

    ghost left = { λ s. s.left };

    fn next(&mut self, alloc: Global) -> Result<Option<Vec<i128>>, AllocError> {
        if self.given == self.rows.len() {
            return Ok(None);
        }
        let row = Vec::from_slice(alloc, self.rows[self.given].as_slice())?;
        self.given += 1;
        Ok(Some(row))
    }

    fn restart(&mut self) {
        self.given = 0;
    }
}
