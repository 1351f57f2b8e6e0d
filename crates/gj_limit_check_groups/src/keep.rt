//! What is left of a row is kept.
ghost use Rattle.std.specs.Prelude.{ℕ, ◌≡◌, ◌<◌, List, All, OnOk, length, slice_set, unsigned_abs};
ghost use Rattle.std.specs.declared.option.Option.TheVariants.{Some};
ghost use Rattle.gj_frac.specs.Fraction.{Fits};
ghost use Rattle.gj_lemmas.specs.Divisors.{gcd_of};
ghost use Rattle.gj_shape.specs.Elimination.{KeptRow, at_column, kept_entries};
ghost use Rattle.gj_shape.specs.Residues.{inverse, times_inverse};
ghost use Rattle.gj_theory.specs.Modulus.{modulus};
ghost use Rattle.gj_sparse_elim.specs.Sparse.{dense, factor_at, AreSparse};
ghost use Rattle.gj_proof.specs.PresentRows.{arithmetic_of, entries_or_none};
ghost use Rattle.gj_proof.specs.Rules.{MeetsPivotBy};
ghost use Rattle.gj_check_groups.specs.RowNumbers.{IsResidue};
ghost use Rattle.gj_limit_check_groups.specs.Changes.{CanKeep};
ghost use Rattle.gj_limit_check_groups.specs.SparseRows.{dense_rows, IsSparseRow, IsSparseTable};

use crate::change::{Change, change_all};
use crate::divide::divide;
use crate::row::factor_of;
use crate::table::Kept;
use gj_check_groups::inverse_modulo;
use gj_proof::Numbers;
use gj_shape::List;
use gj_sparse_elim::Entry;
use std::alloc::{AllocError, Global};

/// Divides a row by the greatest common divisor of its entries, and turns its sign if its entry at
/// the column is negative.
fn make_kept_whole(row: &mut [Entry], column: u32)
    requires { All (λ e. Fits e.factor) row.old }
    ensures sparse { (n : ℕ) → AreSparse n row.old → AreSparse n row.new }
    ensures value { (n : ℕ) → AreSparse n row.old → column < n →
        dense n row.new ≡ kept_entries (dense n row.old) column }
{
    let is_negative = factor_of(row, column) < 0;
    divide(row);
    if is_negative {
        change_all(Change::Negate, row);
    }
}

/// Multiplies a row of residues by an inverse of its entry at the column.
fn make_kept_modulo(row: &mut [Entry], column: u32)
    requires residues { All (λ e. IsResidue e.factor) row.old }
    requires invertible { gcd_of (unsigned_abs (factor_at row.old column)) modulus ≡ 1 }
    ensures sparse { (n : ℕ) → AreSparse n row.old → AreSparse n row.new }
    ensures value { (n : ℕ) → AreSparse n row.old → column < n →
        Some (dense n row.new) ≡ times_inverse modulus (dense n row.old)
        (inverse modulus (at_column (dense n row.old) column)) }
{
    if let Some(factor) = inverse_modulo(factor_of(row, column)) {
        change_all(Change::Multiply(i128::from(factor)), row);
    }
}

/// Makes of a row of these numbers what is kept of it, with its pivot at the column.
fn make_kept_by(numbers: Numbers, row: &mut [Entry], column: u32)
    requires { CanKeep numbers row.old column }
    ensures sparse { (n : ℕ) → AreSparse n row.old → AreSparse n row.new }
    ensures value { (n : ℕ) → AreSparse n row.old → column < n →
        Some (dense n row.new) ≡ (arithmetic_of numbers).keep (dense n row.old) column }
{
    match numbers {
        Numbers::Whole => make_kept_whole(row, column),
        Numbers::Residues => make_kept_modulo(row, column),
    }
}

/// Keeps what is left of a row, with its pivot at the column.
pub(crate) fn keep(
    alloc: Global,
    numbers: Numbers,
    table: &mut [Kept],
    row: &[Entry],
    pivot: u32,
) -> Result<(), AllocError>
    requires table { IsSparseTable numbers (length table.old) table.old }
    requires row { IsSparseRow numbers (length table.old) row.now }
    requires pivot { (kept : List KeptRow) × MeetsPivotBy numbers
        (length table.old) kept (dense (length table.old) row.now) pivot }
    ensures table { OnOk result (IsSparseTable numbers (length table.old) table.new) }
    ensures rows { OnOk result (dense_rows (length table.old) table.new
        ≡ slice_set (dense_rows (length table.old) table.old) pivot (Some (entries_or_none
        ((arithmetic_of numbers).keep (dense (length table.old) row.now) pivot)))) }
{
    let mut entries = Vec::from_slice(alloc, row)?;
    make_kept_by(numbers, entries.as_mut_slice(), pivot);
    table[pivot as usize] = Some(List::of(entries));
    Ok(())
}
