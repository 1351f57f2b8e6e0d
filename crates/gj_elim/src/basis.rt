//! Rows that are kept by plain elimination.
ghost use Rattle.std.specs.Prelude.{ℤ, pos, ◌≡◌, ◌+◌, ◌<◌, ◌^◌, ◌<ℤ◌, ◌↔◌, [], List, length};
ghost use Rattle.std.specs.Prelude.{map, All, Any, IfOk, IfSome, IsNone, OnOk, OnErr, IsErrOf};
ghost use Rattle.gj_shape.specs.Elimination.{inserted, kernel, Passes};
ghost use Rattle.gj_theory.specs.TriangularRows.{Solves, SolvesKept, AreTriangular};
ghost use Rattle.gj_frac.specs.Fraction.{Fits};
ghost use Rattle.gj_elim.specs.Data.{behind};
ghost use Rattle.gj_elim.specs.KeptRows.{log_row, answer_of, marked_in};

use crate::faults::ElimFault;
use crate::keep::{Origin, keep, no_places};
use crate::kept::KeptRows;
use crate::log::{Inserted, LogRow};
use crate::reduce::{free_column, reduce_row};
use crate::solve::{solve_at, unit_row};
use std::alloc::{AllocError, Global};
use std::marker::Model;

/// Rows of whole numbers, of which plain elimination keeps those that are needed. Contracts see how
/// many columns they have, how many rows were inserted, and the kept rows.
///
/// ```rust
/// let mut basis = Basis::new(alloc, 3)?;
/// basis.insert(&[2, 4, 0])?; // kept, with its pivot in column 0
/// basis.insert(&[3, 6, 0])?; // a multiple of it: not kept
/// basis.insert(&[0, 0, 5])?; // kept, with its pivot in column 2
/// let two = basis.rank(); // 2
/// let numbers = basis.kernel()?; // some numbers that solve both kept rows: a multiple of -2, 1, 0
/// ```
#[derive(Drop)]
pub struct Basis {
    alloc: Global,
    columns: u32,
    inserted: u64,
    kept: KeptRows,
    /// The row that is being reduced, with 128 and with 64 bits a number, and the columns of its
    /// steps.
    row: Vec<i128>,
    small: Vec<i64>,
    reduce: Vec<u32>,
}

impl Model for Basis {
    ghost use Rattle.gj_elim.specs.Data.{BasisData};

    ghost Value = { BasisData };

    ghost use Rattle.gj_elim.specs.Basis.{data_of, IsBasis};

    ghost view = { data_of };

    ghost invariant = { IsBasis };
}

impl Basis {
    /// A basis of no rows, for rows with so many columns.
    pub fn new(alloc: Global, columns: u32) -> Result<Basis, AllocError>
        ensures columns { IfOk result (λ b. b.columns ≡ columns) }
        ensures inserted { IfOk result (λ b. b.inserted ≡ 0) }
        ensures kept { IfOk result (λ b. b.kept ≡ []) }
    {
        Ok(Basis {
            alloc,
            columns,
            inserted: 0,
            kept: KeptRows {
                log: Vec::new(alloc),
                rows: Vec::new(alloc),
                extents: Vec::new(alloc),
                places: no_places(alloc, columns as usize)?,
            },
            row: vec![in alloc; 0; columns as usize]?,
            small: vec![in alloc; 0; columns as usize]?,
            reduce: Vec::new(alloc),
        })
    }

    /// Inserts a row: it is reduced by the kept rows, and what is left of it is kept. `Wide`
    /// exactly if one of the numbers that the elimination marks passes 2^127 - 1 in absolute value.
    /// After an error the basis is as it was.
    pub fn insert(&mut self, row: &[i128]) -> Result<Inserted, ElimFault>
        requires columns { length row.now ≡ self.old.columns }
        requires entries { All Fits row.now }
        requires count { self.old.inserted + 1 < 2 ^ 64 }

        ensures kept { OnOk result (self.new ≡ behind self.old row.now) }
        ensures answer { IfOk result (λ a. a ≡ answer_of
            (inserted self.old.columns self.old.kept row.now).kept) }
        ensures narrow { OnOk result (¬ Passes
            (inserted self.old.columns self.old.kept row.now).marked) }
        ensures wide { IsErrOf result ElimFault.Wide → Passes
            (inserted self.old.columns self.old.kept row.now).marked }
        ensures unchanged { OnErr result (self.new ≡ self.old) }

        ensures solutions { OnOk result ((w : List ℤ) →
            (SolvesKept w self.new.kept ↔ (SolvesKept w self.old.kept × Solves w row.now))) }
        ensures triangular { OnOk result (AreTriangular self.new.columns self.new.kept) }
    {
        self.reduce.clear();
        let left = reduce_row(
            &self.kept,
            row,
            self.row.as_mut_slice(),
            self.small.as_mut_slice(),
            &mut self.reduce,
        )?;
        match left {
            None => {
                self.inserted += 1;
                Ok(Inserted::Nothing)
            }
            Some(column) => {
                keep(
                    self.alloc,
                    &mut self.kept,
                    Origin {
                        number: self.inserted,
                        reduce: self.reduce.as_slice(),
                        pivot: column,
                    },
                    self.row.as_slice(),
                )?;
                self.inserted += 1;
                Ok(Inserted::Pivot(column))
            }
        }
    }

    /// The number of rows that were inserted.
    pub fn inserted(&self) -> u64
        ensures { result ≡ self.now.inserted }
    {
        self.inserted
    }

    /// The number of rows that are kept, at most the number of columns.
    pub fn rank(&self) -> u32
        ensures count { result ≡ length self.now.kept }
        ensures triangular { AreTriangular self.now.columns self.now.kept }
    {
        self.kept.log.len() as u32
    }

    /// How each kept row came to be kept, in the order of insertion.
    pub fn log(&self) -> &[LogRow]
        ensures { result.now ≡ map log_row self.now.kept }
    {
        self.kept.log.as_slice()
    }

    /// How each kept row came to be kept, in the order of insertion.
    pub fn into_log(self) -> Vec<LogRow>
        ensures { result.items ≡ map log_row self.kept }
    {
        self.kept.log
    }

    /// Numbers that solve all kept rows and are not all 0; None exactly if there are as many kept
    /// rows as columns. `Wide` exactly if one of the numbers that the definition marks passes 2^127
    /// - 1 in absolute value.
    pub fn kernel(&self) -> Result<Option<Vec<i128>>, ElimFault>
        ensures none { IfOk result (λ o. IsNone o ↔ (length self.now.kept ≡ self.now.columns)) }
        ensures value { IfOk result (λ o. IfSome o (λ v.
            IfSome (kernel self.now.columns self.now.kept) (λ s. v.items ≡ s.numbers))) }
        ensures narrow { OnOk result (¬ Passes
            (marked_in (kernel self.now.columns self.now.kept))) }
        ensures wide { IsErrOf result ElimFault.Wide → Passes
            (marked_in (kernel self.now.columns self.now.kept)) }

        ensures solves { IfOk result (λ o. IfSome o (λ v. SolvesKept v.items self.now.kept)) }
        ensures some { IfOk result (λ o. IfSome o (λ v. Any (λ x. pos 0 <ℤ x) v.items)) }
    {
        let Some(free) = free_column(self.kept.places.as_slice()) else {
            return Ok(None);
        };
        let mut numbers = unit_row(self.alloc, self.columns as usize, free as usize)?;
        for column in (0..free).rev() {
            if let Some(place) = self.kept.places[column as usize] {
                solve_at(
                    self.kept.rows[place as usize].as_slice(),
                    column as usize,
                    numbers.as_mut_slice(),
                )?;
            }
        }
        Ok(Some(numbers))
    }
}
