//! Sparse rows that are kept by plain elimination.
ghost use Rattle.std.specs.Prelude.{ℤ, pos, ◌≡◌, ◌+◌, ◌<◌, ◌^◌, ◌<ℤ◌, ◌↔◌, [], List, length};
ghost use Rattle.std.specs.Prelude.{map, All, Any, IfOk, IfSome, IsNone, OnOk, OnErr, IsErrOf};
ghost use Rattle.gj_shape.specs.Elimination.{inserted, kernel, free_column, Passes};
ghost use Rattle.gj_theory.specs.TriangularRows.{Solves, SolvesKept, AreTriangular};
ghost use Rattle.gj_elim.specs.Data.{behind};
ghost use Rattle.gj_elim.specs.KeptRows.{log_row, answer_of, marked_in};
ghost use Rattle.gj_elim.specs.declared.log.LogRow.{LogRow};
ghost use Rattle.gj_sparse_elim.specs.Sparse.{AreSparse, dense};

use crate::columns::no_columns;
use crate::entry::Entry;
use crate::keep::keep;
use crate::kept::KeptSparse;
use crate::lazy::zeros;
use crate::reduce::reduce_row;
use crate::seen::{empty_rows, is_at, place_of};
use crate::solve::solve_at;
use gj_elim::{ElimFault, Inserted, LogRow, Origin, free_column, no_places, unit_row};
use gj_loops::IndexSet;
use gj_shape::List;
use std::alloc::{AllocError, Global};
use std::marker::Model;

/// How many places for rows there are for each column.
const PLACES_OF_COLUMN: usize = 4;

/// Rows of whole numbers, given and kept by their entries that are not 0, of which plain
/// elimination keeps those that are needed. Contracts see how many columns they have, how many rows
/// were inserted, and the kept rows, as those of `gj_elim::Basis`. It takes some 50 bytes a column,
/// 80 bytes a kept row, 4 bytes a step of the log, and 32 bytes an entry that is kept. Beside them
/// it remembers the last rows, up to four a column.
///
/// ```rust
/// let mut basis = SparseBasis::new(alloc, 3)?;
/// let first = Entry { column: 0, factor: 2 };
/// basis.insert(&[first, Entry { column: 1, factor: 4 }])?; // kept, with its pivot in column 0
/// basis.insert(&[first])?; // kept, with its pivot in column 1
/// let numbers = basis.kernel()?; // some numbers that solve both: a multiple of 0, 0, 1
/// ```
#[derive(Drop)]
pub struct SparseBasis {
    alloc: Global,
    columns: u32,
    inserted: u64,
    kept: KeptSparse,
    /// The row that is being reduced, and a kept row, with 128 bits a number.
    row: Vec<i128>,
    kept_row: Vec<i128>,
    /// The row that is being reduced with 64 bits a number, the columns outside of which it is 0,
    /// and the columns of its steps.
    small: Vec<i64>,
    touched: Vec<IndexSet>,
    reduce: Vec<u32>,
    /// At each place the last inserted row whose code led there: of it nothing is left any more.
    seen: Vec<List<Entry>>,
}

impl Model for SparseBasis {
    ghost use Rattle.gj_elim.specs.Data.{BasisData};

    ghost Value = { BasisData };

    ghost use Rattle.gj_sparse_elim.specs.Basis.{data_of, IsSparseBasis};

    ghost view = { data_of };

    ghost invariant = { IsSparseBasis };
}

impl SparseBasis {
    /// A basis of no rows, for rows with so many columns.
    pub fn new(alloc: Global, columns: u32) -> Result<SparseBasis, AllocError>
        ensures columns { IfOk result (λ b. b.columns ≡ columns) }
        ensures inserted { IfOk result (λ b. b.inserted ≡ 0) }
        ensures kept { IfOk result (λ b. b.kept ≡ []) }
    {
        Ok(SparseBasis {
            alloc,
            columns,
            inserted: 0,
            kept: KeptSparse {
                log: Vec::new(alloc),
                rows: Vec::new(alloc),
                bounds: Vec::new(alloc),
                places: no_places(alloc, columns as usize)?,
            },
            row: vec![in alloc; 0; columns as usize]?,
            kept_row: vec![in alloc; 0; columns as usize]?,
            small: zeros(alloc, columns as usize)?,
            touched: no_columns(alloc, columns as usize)?,
            reduce: Vec::new(alloc),
            seen: empty_rows(alloc, PLACES_OF_COLUMN * columns as usize + 1)?,
        })
    }

    /// Inserts the row with these entries: it is reduced by the kept rows, and what is left of it
    /// is kept. A row that was inserted shortly before is known again without a step. `Wide`
    /// exactly if one of the numbers that the elimination marks passes 2^127 - 1 in absolute value.
    /// After an error the basis is as it was.
    pub fn insert(&mut self, row: &[Entry]) -> Result<Inserted, ElimFault>
        requires sparse { AreSparse self.old.columns row.now }
        requires count { self.old.inserted + 1 < 2 ^ 64 }

        ensures kept { OnOk result (self.new ≡ behind self.old (dense self.old.columns row.now)) }
        ensures answer { IfOk result (λ a. a ≡ answer_of
            (inserted self.old.columns self.old.kept (dense self.old.columns row.now)).kept) }
        ensures narrow { OnOk result (¬ Passes
            (inserted self.old.columns self.old.kept (dense self.old.columns row.now)).marked) }
        ensures wide { IsErrOf result ElimFault.Wide → Passes
            (inserted self.old.columns self.old.kept (dense self.old.columns row.now)).marked }
        ensures unchanged { OnErr result (self.new ≡ self.old) }

        ensures solutions { OnOk result ((w : List ℤ) → (SolvesKept w self.new.kept
            ↔ (SolvesKept w self.old.kept × Solves w (dense self.old.columns row.now)))) }
        ensures triangular { OnOk result (AreTriangular self.new.columns self.new.kept) }
    {
        let place = place_of(row, self.seen.len());
        if is_at(self.seen.as_slice(), place, row) {
            self.inserted += 1;
            return Ok(Inserted::Nothing);
        }
        let copy = List::of(Vec::from_slice(self.alloc, row)?);
        let inserted = self.insert_new(row)?;
        let place = place_of(row, self.seen.len());
        self.seen[place] = copy;
        Ok(inserted)
    }

    /// Inserts a row that is not known to have been inserted. After an error the basis is as it
    /// was.
    fn insert_new(&mut self, row: &[Entry]) -> Result<Inserted, ElimFault>
        requires sparse { AreSparse self.old.columns row.now }
        requires count { self.old.inserted + 1 < 2 ^ 64 }

        ensures kept { OnOk result (self.new ≡ behind self.old (dense self.old.columns row.now)) }
        ensures answer { IfOk result (λ a. a ≡ answer_of
            (inserted self.old.columns self.old.kept (dense self.old.columns row.now)).kept) }
        ensures narrow { OnOk result (¬ Passes
            (inserted self.old.columns self.old.kept (dense self.old.columns row.now)).marked) }
        ensures wide { IsErrOf result ElimFault.Wide → Passes
            (inserted self.old.columns self.old.kept (dense self.old.columns row.now)).marked }
        ensures unchanged { OnErr result (self.new ≡ self.old) }

        ensures solutions { OnOk result ((w : List ℤ) → (SolvesKept w self.new.kept
            ↔ (SolvesKept w self.old.kept × Solves w (dense self.old.columns row.now)))) }
        ensures triangular { OnOk result (AreTriangular self.new.columns self.new.kept) }
    {
        self.reduce.clear();
        let left = reduce_row(
            self.alloc,
            &self.kept,
            row,
            self.row.as_mut_slice(),
            self.kept_row.as_mut_slice(),
            self.small.as_mut_slice(),
            self.touched.as_mut_slice(),
            &mut self.reduce,
        )?;
        match left {
            None => {
                self.inserted += 1;
                Ok(Inserted::Nothing)
            }
            Some(left) => {
                let column = left.column;
                keep(
                    self.alloc,
                    &mut self.kept,
                    Origin {
                        number: self.inserted,
                        reduce: self.reduce.as_slice(),
                        pivot: column,
                    },
                    left.entries,
                )?;
                self.inserted += 1;
                Ok(Inserted::Pivot(column))
            }
        }
    }

    /// The number of rows that were inserted.
    pub fn inserted(&self) -> u64
        ensures { result ≡ self.now.inserted }
    {
        self.inserted
    }

    /// The number of rows that are kept, at most the number of columns. If they are as many, only 0
    /// solves them.
    pub fn rank(&self) -> u32
        ensures count { result ≡ length self.now.kept }
        ensures triangular { AreTriangular self.now.columns self.now.kept }
        ensures full { result ≡ self.now.columns → (w : List ℤ) → length w ≡ self.now.columns →
            SolvesKept w self.now.kept → All (λ x. x ≡ pos 0) w }
    {
        self.kept.log.len() as u32
    }

    /// How each kept row came to be kept, in the order of insertion.
    pub fn log(&self) -> &[LogRow]
        ensures { result.now ≡ map log_row self.now.kept }
    {
        self.kept.log.as_slice()
    }

    /// How each kept row came to be kept, in the order of insertion.
    pub fn into_log(self) -> Vec<LogRow>
        ensures { result.items ≡ map log_row self.kept }
    {
        self.kept.log
    }

    /// Numbers that solve all kept rows and are not all 0; None exactly if there are as many kept
    /// rows as columns. `Wide` exactly if one of the numbers that the definition marks passes 2^127
    /// - 1 in absolute value.
    pub fn kernel(&self) -> Result<Option<Vec<i128>>, ElimFault>
        ensures none { IfOk result (λ o. IsNone o ↔ (length self.now.kept ≡ self.now.columns)) }
        ensures value { IfOk result (λ o. IfSome o (λ v.
            IfSome (kernel self.now.columns self.now.kept) (λ s. v.items ≡ s.numbers))) }
        ensures narrow { OnOk result (¬ Passes
            (marked_in (kernel self.now.columns self.now.kept))) }
        ensures wide { IsErrOf result ElimFault.Wide → Passes
            (marked_in (kernel self.now.columns self.now.kept)) }

        ensures solves { IfOk result (λ o. IfSome o (λ v. SolvesKept v.items self.now.kept)) }
        ensures some { IfOk result (λ o. IfSome o (λ v. Any (λ x. pos 0 <ℤ x) v.items)) }
    {
        let Some(free) = free_column(self.kept.places.as_slice()) else {
            return Ok(None);
        };
        let mut numbers = unit_row(self.alloc, self.columns as usize, free as usize)?;
        for column in (0..free).rev() {
            if let Some(place) = self.kept.places[column as usize] {
                solve_at(
                    self.kept.rows[place as usize].as_slice(),
                    column as usize,
                    numbers.as_mut_slice(),
                )?;
            }
        }
        Ok(Some(numbers))
    }
}
