//! What is left of a row, as it is kept.
ghost use Rattle.std.specs.Prelude.{ℕ, pos, ◌≡◌, ◌<◌, ◌^◌, neg_ℤ, length, All, IfOk, IfSome};
ghost use Rattle.std.specs.Prelude.{Some, unsigned_abs, int_lt, if◌then◌else◌};
ghost use Rattle.gj_shape.specs.Elimination.{at_column};
ghost use Rattle.gj_frac.specs.Fraction.{Fits};
ghost use Rattle.gj_sparse_elim.specs.Sparse.{AreSparse, dense};
ghost use Rattle.gj_sparse_elim.specs.Columns.{IsSupport};
ghost use Rattle.gj_sparse_elim.specs.Left.{IsKeptOf, signed_row};

use crate::columns::first_from;
use crate::entry::{Entry, entries_of};
use crate::tighten::divide;
use gj_loops::{IndexSet, make_kept};
use gj_shape::List;
use std::alloc::{AllocError, Global};

/// What is left of a row: the column of its pivot, and the entries with which it is kept.
#[derive(Drop)]
pub(crate) struct Left {
    pub(crate) column: u32,
    pub(crate) entries: List<Entry>,
}

/// What is left at the column of a row of 128 bits, if that is given.
pub(crate) fn wide_left(
    alloc: Global,
    row: &mut [i128],
    left: Option<u32>,
) -> Result<Option<Left>, AllocError>
    requires within { IfSome left (λ c. c < length row.old) }
    requires fits { All Fits row.old }
    requires count { length row.old < 2 ^ 32 }
    ensures { IfOk result (IsKeptOf row.old left) }
{
    let Some(column) = left else {
        return Ok(None);
    };
    make_kept(row, column as usize);
    let entries = entries_of(alloc, row)?;
    Ok(Some(Left {
        column,
        entries: List::of(entries),
    }))
}

/// What is left at the column of a row of 64 bits that is 0 before it.
pub(crate) fn small_left(
    alloc: Global,
    row: &mut [i64],
    touched: &[IndexSet],
    column: u32,
) -> Result<Left, AllocError>
    requires support { IsSupport touched.now row.old }
    requires count { length row.old < 2 ^ 32 }
    requires within { column < length row.old }
    requires zero { (k : ℕ) → k < column → at_column row.old k ≡ pos 0 }
    requires small { (k : ℕ) → unsigned_abs (at_column row.old k) < 2 ^ 63 }
    ensures value { IfOk result (λ l. IsKeptOf row.old (Some column) (Some l)) }
    ensures support { IsSupport touched.now row.new }
{
    let is_negative = is_below_zero(row[column as usize]);
    divide(row, touched, column as usize);
    let entries = signed_entries(alloc, row, touched, is_negative)?;
    Ok(Left {
        column,
        entries: List::of(entries),
    })
}

/// Whether the number is negative.
fn is_below_zero(x: i64) -> bool
    ensures { result ≡ int_lt x (pos 0) }
{
    x < 0
}

/// The number, or its opposite.
fn signed(x: i64, is_negative: bool) -> i128
    ensures { result ≡ (if is_negative then neg_ℤ x else x) }
{
    if is_negative {
        -i128::from(x)
    } else {
        i128::from(x)
    }
}

/// The entries of a row that are not 0, or their opposites.
fn signed_entries(
    alloc: Global,
    row: &[i64],
    touched: &[IndexSet],
    is_negative: bool,
) -> Result<Vec<Entry>, AllocError>
    requires support { IsSupport touched.now row.now }
    requires count { length row.now < 2 ^ 32 }
    requires small { (k : ℕ) → unsigned_abs (at_column row.now k) < 2 ^ 63 }
    ensures sparse { IfOk result (λ v. AreSparse (length row.now) v.items) }
    ensures value { IfOk result (λ v.
        dense (length row.now) v.items ≡ signed_row is_negative row.now) }
{
    let mut entries = Vec::new(alloc);
    let mut next = 0;
    while let Some(found) = first_from(touched, next) {
        if row[found] != 0 {
            let entry = Entry {
                column: found as u32,
                factor: signed(row[found], is_negative),
            };
            entries.push(entry)?;
        }
        next = found + 1;
    }
    Ok(entries)
}
