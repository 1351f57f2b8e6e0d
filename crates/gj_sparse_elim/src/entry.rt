//! Rows as their entries.
ghost use Rattle.std.specs.Prelude.{ℕ, ◌≡◌, ◌<◌, ◌^◌, length, All, IfOk};
ghost use Rattle.std.specs.Prelude.{ℤ, pos, List};
ghost use Rattle.gj_shape.specs.Elimination.{at_column};
ghost use Rattle.gj_shape.specs.SlopeRows.{sum_of_products};
ghost use Rattle.gj_sparse_elim.specs.declared.entry.Entry.{Entry};
ghost use Rattle.gj_frac.specs.Fraction.{Fits};
ghost use Rattle.gj_elim.specs.Lazy.{IsExtent};
ghost use Rattle.gj_sparse_elim.specs.Sparse.{AreSparse, dense, sum_of_entries};

use gj_elim::size;
use std::alloc::{AllocError, Global};

/// An entry of a row, at one of its columns.
#[derive(Clone, Copy, Debug, PartialEq, Eq)]
pub struct Entry {
    /// The column, from 0.
    pub column: u32,
    /// The number there. Rows are given without entries that are 0.
    pub factor: i128,
}

/// The sum of the products of a row with numbers is that of its entries.
pub fn entries_add_up()
    ensures { (n : ℕ) (row : List Entry) (w : List ℤ) → AreSparse n row → length w ≡ n →
        sum_of_products (dense n row) w ≡ sum_of_entries row (at_column w) }
{}

/// The entries of a row that are not 0.
pub(crate) fn entries_of(alloc: Global, row: &[i128]) -> Result<Vec<Entry>, AllocError>
    requires fits { All Fits row.now }
    requires count { length row.now < 2 ^ 32 }
    ensures sparse { IfOk result (λ v. AreSparse (length row.now) v.items) }
    ensures value { IfOk result (λ v. dense (length row.now) v.items ≡ row.now) }
{
    let mut entries = Vec::new(alloc);
    for column in 0..row.len() {
        if row[column] != 0 {
            let entry = Entry {
                column: column as u32,
                factor: row[column],
            };
            entries.push(entry)?;
        }
    }
    Ok(entries)
}

/// Puts 0 at each column.
fn erase(row: &mut [i128])
    ensures { (k : ℕ) → at_column row.new k ≡ pos 0 }
{
    for number in row.iter_mut() {
        *number = 0;
    }
}

/// Writes the row with these entries.
pub(crate) fn spread(entries: &[Entry], row: &mut [i128])
    requires { AreSparse (length row.old) entries.now }
    ensures { row.new ≡ dense (length row.old) entries.now }
{
    erase(row);
    for entry in entries {
        row[entry.column as usize] = entry.factor;
    }
}

/// A bound of the absolute values of a row with these entries, if it is below 2^63.
pub(crate) fn bound_of(entries: &[Entry]) -> u64
    ensures { (n : ℕ) → IsExtent result n (dense n entries.now) }
{
    let mut bound: u64 = 0;
    for entry in entries {
        bound = bound.max(size(entry.factor));
    }
    bound
}
