//! Rows that are kept by elimination over residues.
ghost use Rattle.std.specs.Prelude.{ℕ, ℤ, ◌≡◌, ◌+◌, ◌<◌, ◌^◌, [], List, length, map, IfOk, OnOk};
ghost use Rattle.std.specs.Prelude.{OnErr};
ghost use Rattle.gj_shape.specs.Elimination.{inserted_by};
ghost use Rattle.gj_shape.specs.Residues.{modulo, SolvesModulo};
ghost use Rattle.gj_theory.specs.Modulus.{modulus};
ghost use Rattle.gj_theory.specs.TriangularResidues.{AreTriangularResidues, SolvesKeptModulo};
ghost use Rattle.gj_elim.specs.Data.{behind_by};
ghost use Rattle.gj_elim.specs.KeptRows.{log_row, answer_of};

use crate::keep::keep;
use crate::kept::KeptResidues;
use crate::reduce::reduce_row;
use gj_elim::{Inserted, LogRow, Origin};
use std::alloc::{AllocError, Global};
use std::marker::Model;

/// Rows of whole numbers, read modulo 2^61 - 1, of which elimination keeps those that it can.
/// Contracts see how many columns they have, how many rows were inserted, and the kept rows.
#[derive(Drop)]
pub struct ResidueBasis {
    alloc: Global,
    columns: u32,
    inserted: u64,
    kept: KeptResidues,
    /// The row that is being reduced, and the columns of its steps.
    row: Vec<u64>,
    reduce: Vec<u32>,
}

impl Model for ResidueBasis {
    ghost use Rattle.gj_elim.specs.Data.{BasisData};

    ghost Value = { BasisData };

    ghost use Rattle.gj_residue.specs.Basis.{data_of, IsResidueBasis};

    ghost view = { data_of };

    ghost invariant = { IsResidueBasis };
}

impl ResidueBasis {
    /// A basis of no rows, for rows with so many columns.
    pub fn new(alloc: Global, columns: u32) -> Result<ResidueBasis, AllocError>
        ensures columns { IfOk result (λ b. b.columns ≡ columns) }
        ensures inserted { IfOk result (λ b. b.inserted ≡ 0) }
        ensures kept { IfOk result (λ b. b.kept ≡ []) }
    {
        Ok(ResidueBasis {
            alloc,
            columns,
            inserted: 0,
            kept: KeptResidues {
                log: Vec::new(alloc),
                rows: Vec::new(alloc),
            },
            row: vec![in alloc; 0; columns as usize]?,
            reduce: Vec::new(alloc),
        })
    }

    /// Inserts a row: its residues are reduced by the kept rows, and what is left is kept if its
    /// first entry that is not 0 has an inverse. The answer is `Nothing` exactly if the row is not
    /// kept. After an error the basis is as it was.
    pub fn insert(&mut self, row: &[i128]) -> Result<Inserted, AllocError>
        requires columns { length row.now ≡ self.old.columns }
        requires count { self.old.inserted + 1 < 2 ^ 64 }

        ensures kept { OnOk result (self.new ≡ behind_by (modulo modulus) self.old row.now) }
        ensures answer { IfOk result (λ a. a
            ≡ answer_of (inserted_by (modulo modulus) self.old.columns
            self.old.kept row.now).kept) }
        ensures unchanged { OnErr result (self.new ≡ self.old) }

        ensures solved { OnOk result ((w : List ℤ) → SolvesKeptModulo modulus w self.old.kept →
            SolvesModulo modulus w row.now →
            SolvesKeptModulo modulus w self.new.kept) }
        ensures triangular { OnOk result (AreTriangularResidues self.new.columns self.new.kept) }
    {
        self.reduce.clear();
        let left = reduce_row(&self.kept, row, self.row.as_mut_slice(), &mut self.reduce)?;
        match left {
            None => {
                self.inserted += 1;
                Ok(Inserted::Nothing)
            }
            Some(left) => {
                keep(
                    self.alloc,
                    &mut self.kept,
                    Origin {
                        number: self.inserted,
                        reduce: self.reduce.as_slice(),
                        pivot: left.column,
                    },
                    left.factor,
                    self.row.as_slice(),
                )?;
                self.inserted += 1;
                Ok(Inserted::Pivot(left.column))
            }
        }
    }

    /// The number of rows that were inserted.
    pub fn inserted(&self) -> u64
        ensures { result ≡ self.now.inserted }
    {
        self.inserted
    }

    /// The number of rows that are kept, at most the number of columns.
    pub fn rank(&self) -> u32
        ensures count { result ≡ length self.now.kept }
        ensures triangular { AreTriangularResidues self.now.columns self.now.kept }
    {
        self.kept.log.len() as u32
    }

    /// How each kept row came to be kept, in the order of insertion.
    pub fn log(&self) -> &[LogRow]
        ensures { result.now ≡ map log_row self.now.kept }
    {
        self.kept.log.as_slice()
    }

    /// How each kept row came to be kept, in the order of insertion.
    pub fn into_log(self) -> Vec<LogRow>
        ensures { result.items ≡ map log_row self.kept }
    {
        self.kept.log
    }
}
