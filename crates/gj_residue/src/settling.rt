//! Whether only 0 solves all rows: by plain elimination, and over residues if it passes.
ghost use Rattle.std.specs.Prelude.{ℤ, ◌≡◌, ◌<◌, ◌≤◌, ◌^◌, List, length, All, IfOk, OnOk, IsErrOf};
ghost use Rattle.gj_shape.specs.Elimination.{elimination, elimination_by, kernel, Passes};
ghost use Rattle.gj_shape.specs.Residues.{modulo};
ghost use Rattle.gj_theory.specs.Modulus.{modulus};
ghost use Rattle.gj_theory.specs.TriangularResidues.{AreTriangularResidues};
ghost use Rattle.gj_theory.specs.TriangularRows.{AreTriangular};
ghost use Rattle.gj_frac.specs.Fraction.{Fits};
ghost use Rattle.gj_residue.specs.Settled.{IsSettled, IsSettledBy, IsFullLog, AreRowsTooWide};
ghost use Rattle.gj_residue.specs.Settled.{AnswersRows, fault_of};
ghost use Rattle.gj_elim.specs.KeptRows.{marked_in};

use crate::basis::ResidueBasis;
use crate::source::RowSource;
use gj_elim::{Basis, ElimFault, LogRow};
use gj_shape::List;
use std::alloc::{AllocError, Global};
use thiserror::Error;

/// What solves all rows, and how that is known.
#[derive(Debug, Drop)]
pub enum Settled {
    /// Only 0: plain elimination keeps as many rows as there are columns.
    Plain(List<LogRow>),
    /// Only 0: elimination over residues keeps as many rows as there are columns.
    Residues(List<LogRow>),
    /// These numbers, one of which is positive.
    Kernel(List<i128>),
}

/// Why it is not known what solves all rows.
#[derive(Debug, Drop, Error)]
pub enum SettleFault {
    /// A number passes 2^127 - 1 in absolute value, and residues do not help.
    #[error("a number passes 127 bits")]
    Wide,
    /// There was no memory.
    #[error("out of memory")]
    Memory(AllocError),
}

impl From<ElimFault> for SettleFault {
    ghost from_gives = { λ fault settle. settle ≡ fault_of fault };

    fn from(fault: ElimFault) -> SettleFault {
        match fault {
            ElimFault::Wide => SettleFault::Wide,
            ElimFault::Memory(error) => SettleFault::Memory(error),
        }
    }
}

impl From<AllocError> for SettleFault {
    ghost use Rattle.gj_residue.specs.declared.settling.SettleFault.TheVariants.{Memory};

    ghost from_gives = { λ error fault. fault ≡ Memory error };

    fn from(error: AllocError) -> SettleFault {
        SettleFault::Memory(error)
    }
}

/// What solves all rows of the source. `Plain` and `Kernel` come exactly if plain elimination marks
/// no number that passes 2^127 - 1 in absolute value, `Residues` exactly if it does and residues
/// keep as many rows as there are columns; `Wide` exactly if it does and they keep fewer, or if a
/// number of the kernel passes. The only other error is `Memory`.
pub fn settle<R: RowSource>(
    alloc: Global,
    columns: u32,
    rows: &mut R,
) -> Result<Settled, SettleFault>
    requires some { 1 ≤ columns }
    requires lengths { All (λ row. length row ≡ columns) (R.all rows.old) }
    requires entries { All (All Fits) (R.all rows.old) }
    requires count { length (R.all rows.old) < 2 ^ 63 }
    ensures settled { IfOk result (IsSettled columns (R.all rows.old)) }
    ensures wide { IsErrOf result SettleFault.Wide → AreRowsTooWide columns (R.all rows.old) }
    ensures rows { R.all rows.new ≡ R.all rows.old }
    ensures answers { IfOk result (AnswersRows columns (R.all rows.old)) }
{
    rows.restart();
    match insert_all(alloc, columns, rows) {
        Ok(basis) => Ok(settled_by(basis)?),
        Err(ElimFault::Wide) => {
            rows.restart();
            Ok(Settled::Residues(List::of(log_by_residues(alloc, columns, rows)?)))
        }
        Err(ElimFault::Memory(error)) => Err(SettleFault::Memory(error)),
    }
}

/// Inserts the rows that are left until there are as many pivots as columns.
fn insert_all<R: RowSource>(alloc: Global, columns: u32, rows: &mut R) -> Result<Basis, ElimFault>
    requires lengths { All (λ row. length row ≡ columns) (R.left rows.old) }
    requires entries { All (All Fits) (R.left rows.old) }
    requires count { length (R.left rows.old) < 2 ^ 63 }
    ensures columns { IfOk result (λ b. b.columns ≡ columns) }
    ensures kept { IfOk result (λ b. b.kept ≡ (elimination columns (R.left rows.old)).kept) }
    ensures narrow { OnOk result (¬ Passes (elimination columns (R.left rows.old)).marked) }
    ensures wide { IsErrOf result ElimFault.Wide →
        Passes (elimination columns (R.left rows.old)).marked }
    ensures rows { R.all rows.new ≡ R.all rows.old }
{
    let mut basis = Basis::new(alloc, columns)?;
    while basis.rank() < columns {
        let Some(row) = rows.next(alloc)? else {
            return Ok(basis);
        };
        basis.insert(row.as_slice())?;
    }
    Ok(basis)
}

/// What solves the rows that a basis keeps.
fn settled_by(basis: Basis) -> Result<Settled, ElimFault>
    ensures settled { IfOk result (IsSettledBy basis.columns basis.kept) }
    ensures wide { IsErrOf result ElimFault.Wide →
        Passes (marked_in (kernel basis.columns basis.kept)) }
{
    match basis.kernel()? {
        None => Ok(Settled::Plain(List::of(basis.into_log()))),
        Some(numbers) => Ok(Settled::Kernel(List::of(numbers))),
    }
}

/// The log of the rows that residues keep of those that are left, which it numbers from 0. `Wide`
/// comes exactly if they keep fewer than there are columns. The only other error is `Memory`.
pub fn log_by_residues<R: RowSource>(
    alloc: Global,
    columns: u32,
    rows: &mut R,
) -> Result<Vec<LogRow>, SettleFault>
    requires lengths { All (λ row. length row ≡ columns) (R.left rows.old) }
    requires count { length (R.left rows.old) < 2 ^ 63 }
    ensures log { IfOk result (λ v. IsFullLog columns (R.left rows.old) v.items) }
    ensures numbers { IfOk result (λ v. All (λ line. line.number < length (R.left rows.old))
        v.items) }
    ensures wide { IsErrOf result SettleFault.Wide →
        length (elimination_by (modulo modulus) columns (R.left rows.old)).kept < columns }
    ensures rows { R.all rows.new ≡ R.all rows.old }
{
    let basis = insert_residues(alloc, columns, rows)?;
    if basis.rank() < columns {
        return Err(SettleFault::Wide);
    }
    Ok(basis.into_log())
}

/// Inserts the rows that are left over residues, until there are as many pivots as columns.
fn insert_residues<R: RowSource>(
    alloc: Global,
    columns: u32,
    rows: &mut R,
) -> Result<ResidueBasis, AllocError>
    requires lengths { All (λ row. length row ≡ columns) (R.left rows.old) }
    requires count { length (R.left rows.old) < 2 ^ 63 }
    ensures columns { IfOk result (λ b. b.columns ≡ columns) }
    ensures kept { IfOk result (λ b. b.kept ≡ (elimination_by (modulo modulus) columns
        (R.left rows.old)).kept) }
    ensures rows { R.all rows.new ≡ R.all rows.old }
{
    let mut basis = ResidueBasis::new(alloc, columns)?;
    while basis.rank() < columns {
        let Some(row) = rows.next(alloc)? else {
            return Ok(basis);
        };
        basis.insert(row.as_slice())?;
    }
    Ok(basis)
}
