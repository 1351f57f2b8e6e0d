//! Steps in 64 bits, without a division: they leave a positive multiple of the row that the
//! definition has.
ghost use Rattle.std.specs.Prelude.{ℕ, ℤ, pos, ◌≡◌, ◌<◌, ◌^◌, ◌*ℤ◌, ◌<ℤ◌, List, length};
ghost use Rattle.std.specs.Prelude.{unsigned_abs, IfOk, IfSome, IsNone};
ghost use Rattle.gj_shape.specs.Elimination.{at_column, scaled, differences};
ghost use Rattle.gj_elim.specs.Lazy.{IsMultipleRow, IsLazyStep, IsExtent, HasRoom};
ghost use Rattle.gj_sparse_elim.specs.Sparse.{AreSparse, dense};
ghost use Rattle.gj_sparse_elim.specs.Columns.{IsSupport};

use crate::columns::{first_from, insert_column, remove_columns};
use crate::entry::Entry;
use gj_elim::{Factors, GREATEST_BOUND, ROOM, factors_of};
use gj_loops::IndexSet;
use std::alloc::{AllocError, Global};

/// The bound of the row after a step, if its numbers are small.
fn room(factors: Factors, bound: u64, kept_bound: u64) -> Option<u64>
    ensures { (n : ℕ) → IfSome result
        (λ b. HasRoom factors.row factors.kept bound n kept_bound n b n) }
{
    let first = u128::from(factors.row.unsigned_abs()) * u128::from(bound);
    let second = u128::from(factors.kept.unsigned_abs()) * u128::from(kept_bound);
    if first >= ROOM || second >= ROOM {
        return None;
    }
    Some((first + second) as u64)
}

/// A row of zeros.
pub(crate) fn zeros(alloc: Global, columns: usize) -> Result<Vec<i64>, AllocError>
    ensures columns { IfOk result (λ v. length v.items ≡ columns) }
    ensures zero { IfOk result (λ v. (k : ℕ) → at_column v.items k ≡ pos 0) }
{
    vec![in alloc; 0; columns]
}

/// Puts 0 at each column of the set.
fn erase(row: &mut [i64], touched: &[IndexSet])
    requires { IsSupport touched.now row.old }
    ensures { (k : ℕ) → at_column row.new k ≡ pos 0 }
{
    let mut next = 0;
    while let Some(column) = first_from(touched, next) {
        row[column] = 0;
        next = column + 1;
    }
}

/// Puts 0 at each column, and takes all columns out of the set.
fn clear(row: &mut [i64], touched: &mut [IndexSet])
    requires { IsSupport touched.old row.old }
    ensures zero { (k : ℕ) → at_column row.new k ≡ pos 0 }
    ensures support { IsSupport touched.new row.new }
{
    erase(row, touched);
    remove_columns(touched);
}

/// Writes the row with these entries, which are small.
pub(crate) fn load(entries: &[Entry], row: &mut [i64], touched: &mut [IndexSet])
    requires sparse { AreSparse (length row.old) entries.now }
    requires support { IsSupport touched.old row.old }
    requires small { (k : ℕ) →
        unsigned_abs (at_column (dense (length row.old) entries.now) k) < 2 ^ 63 }
    ensures value { row.new ≡ dense (length row.old) entries.now }
    ensures support { IsSupport touched.new row.new }
{
    clear(row, touched);
    for entry in entries {
        row[entry.column as usize] = entry.factor as i64;
        insert_column(touched, entry.column as usize);
    }
}

/// Multiplies the row at each column of the set.
fn scale(factor: i64, row: &mut [i64], touched: &[IndexSet])
    requires support { IsSupport touched.now row.old }
    requires small { (k : ℕ) → unsigned_abs (factor *ℤ at_column row.old k) < 2 ^ 62 }
    ensures { row.new ≡ scaled factor row.old }
{
    let mut next = 0;
    while let Some(column) = first_from(touched, next) {
        row[column] = factor * row[column];
        next = column + 1;
    }
}

/// Multiplies the row.
fn multiply(factor: i64, row: &mut [i64], touched: &[IndexSet])
    requires support { IsSupport touched.now row.old }
    requires small { (k : ℕ) → unsigned_abs (factor *ℤ at_column row.old k) < 2 ^ 62 }
    ensures value { row.new ≡ scaled factor row.old }
    ensures support { IsSupport touched.now row.new }
{
    if factor != 1 {
        scale(factor, row, touched);
    }
}

/// Subtracts the row with these entries, times its factor, from the row.
fn subtract(factor: i64, row: &mut [i64], touched: &mut [IndexSet], entries: &[Entry])
    requires sparse { AreSparse (length row.old) entries.now }
    requires support { IsSupport touched.old row.old }
    requires row { (k : ℕ) → unsigned_abs (at_column row.old k) < 2 ^ 62 }
    requires kept { (k : ℕ) →
        unsigned_abs (factor *ℤ at_column (dense (length row.old) entries.now) k) < 2 ^ 62 }
    requires entries { (k : ℕ) →
        unsigned_abs (at_column (dense (length row.old) entries.now) k) < 2 ^ 63 }
    ensures value { row.new ≡ differences (scaled (pos 1) row.old)
        (scaled factor (dense (length row.old) entries.now)) }
    ensures support { IsSupport touched.new row.new }
{
    for entry in entries {
        row[entry.column as usize] -= factor * (entry.factor as i64);
        insert_column(touched, entry.column as usize);
    }
}

/// One step at the column by a kept row, if its numbers are small. The answer is the bound of the
/// row after it.
pub(crate) fn step_once(
    kept: &[Entry],
    kept_bound: u64,
    row: &mut [i64],
    touched: &mut [IndexSet],
    bound: u64,
    column: usize,
) -> Option<u64>
    requires sparse { AreSparse (length row.old) kept.now }
    requires support { IsSupport touched.old row.old }
    requires within { column < length row.old }
    requires kept_extent { IsExtent kept_bound (length row.old) (dense (length row.old) kept.now) }
    requires extent { IsExtent bound (length row.old) row.old }
    requires bound { bound < 2 ^ 63 }
    requires kept_zero { (k : ℕ) → k < column →
        at_column (dense (length row.old) kept.now) k ≡ pos 0 }
    requires positive { pos 0 <ℤ at_column (dense (length row.old) kept.now) column }
    ensures step { IfSome result (λ _. (other : List ℤ) → IsMultipleRow other row.old →
        IsLazyStep (dense (length row.old) kept.now) other row.new column) }
    ensures extent { IfSome result (λ b. IsExtent b (length row.new) row.new) }
    ensures bound { IfSome result (λ b. b < 2 ^ 63) }
    ensures same { IsNone result → row.new ≡ row.old }
    ensures support { IsSupport touched.new row.new }
{
    if kept_bound >= GREATEST_BOUND {
        return None;
    }
    let factors = factors_of(kept[0].factor as i64, row[column]);
    match room(factors, bound, kept_bound) {
        None => None,
        Some(next) => {
            multiply(factors.row, row, touched);
            subtract(factors.kept, row, touched, kept);
            Some(next)
        }
    }
}
