//! The rows of a system, one after another.
ghost use Rattle.std.specs.Prelude.{pos, ◌≡◌, length, map, All, IfOk};
ghost use Rattle.gj_limit_system.specs.LimitRows.{IsLimitRowBelow};
ghost use Rattle.gj_residue.specs.Source.{Gives};
ghost use Rattle.gj_sparse_elim.specs.Sparse.{AreSparse, dense};
ghost use Rattle.gj_limit_extreme.specs.SystemRows.{columns_in, row_in};

use gj_limit_system::{LimitRow, LimitRows};
use gj_residue::RowSource;
use gj_sparse_elim::Entry;
use std::alloc::{AllocError, Global};
use std::marker::Model;

/// The rows of a system with the names of a list. Contracts see all of them, and those that are
/// still to come.
#[derive(Drop)]
pub(crate) struct NamedRows {
    system: LimitRows,
    names: Vec<LimitRow>,
    given: usize,
}

impl Model for NamedRows {
    ghost use Rattle.std.specs.Prelude.{drop};
    ghost use Rattle.gj_residue.specs.Source.{RowsToCome};

    ghost Value = { RowsToCome };

    ghost use Rattle.gj_limit_extreme.specs.NamedRows.{data_of, AreNamedRows};

    ghost view = { data_of };

    ghost invariant = { AreNamedRows };
}

impl NamedRows {
    /// The rows with these names, of which all are to come.
    pub(crate) fn new(system: LimitRows, names: Vec<LimitRow>) -> NamedRows
        requires { All (λ name. IsLimitRowBelow name (length system.component)) names.items }
        ensures { result ≡ record {
          all = map (row_in system) names.items;
          left = map (row_in system) names.items;
        } }
    {
        NamedRows {
            system,
            names,
            given: 0,
        }
    }
}

impl RowSource for NamedRows {
    ghost all = { λ s. s.all };

    ghost left = { λ s. s.left };

    fn next(&mut self, alloc: Global) -> Result<Option<Vec<i128>>, AllocError> {
        if self.given == self.names.len() {
            return Ok(None);
        }
        let row = dense_row(alloc, &self.system, self.names[self.given])?;
        self.given += 1;
        Ok(Some(row))
    }

    fn restart(&mut self) {
        self.given = 0;
    }
}

/// The row of the system with this name.
fn dense_row(alloc: Global, system: &LimitRows, name: LimitRow) -> Result<Vec<i128>, AllocError>
    requires { IsLimitRowBelow name (length system.now.component) }
    ensures { IfOk result (λ v. v.items ≡ row_in system.now name) }
{
    let mut entries = Vec::new(alloc);
    system.write_row(name, &mut entries)?;
    let mut row = vec![in alloc; 0; system.columns() as usize]?;
    write_entries(entries.as_slice(), row.as_mut_slice());
    Ok(row)
}

/// Writes the entries into a row that is 0 everywhere.
fn write_entries(entries: &[Entry], row: &mut [i128])
    requires sparse { AreSparse (length row.old) entries.now }
    requires zero { All (λ x. x ≡ pos 0) row.old }
    ensures { row.new ≡ dense (length row.old) entries.now }
{
    for entry in entries {
        row[entry.column as usize] = entry.factor;
    }
}
