//! Rows that were inserted, found again by codes of their entries.
ghost use Rattle.std.specs.Prelude.{◌≡◌, ◌<◌, [], length, get_or, All, IfOk, IsTrue};

use crate::entry::Entry;
use gj_shape::List;
use std::alloc::{AllocError, Global};

/// An odd number by which codes are spread over the places: 2^64 divided by the golden ratio.
const SPREAD: u64 = 11_400_714_819_323_198_485;

/// So many rows without an entry.
pub(crate) fn empty_rows(alloc: Global, count: usize) -> Result<Vec<List<Entry>>, AllocError>
    ensures count { IfOk result (λ v. length v.items ≡ count) }
    ensures empty { IfOk result (λ v. All (λ row. row ≡ []) v.items) }
{
    let mut rows = Vec::with_capacity(alloc, count)?;
    for _ in 0..count {
        rows.push_reserved(List::of(Vec::new(alloc)));
    }
    Ok(rows)
}

/// The place of a row among so many. Equal rows have one place.
pub(crate) fn place_of(row: &[Entry], count: usize) -> usize
    requires { 0 < count }
    ensures { result < count }
{
    let mut code: u64 = 0;
    for entry in row {
        let sign = u64::from(entry.factor < 0);
        code = code
            .wrapping_add(2 * u64::from(entry.column) + sign)
            .wrapping_mul(SPREAD);
    }
    (code >> 32) as usize % count
}

/// Whether the entries are the same.
fn is_same(entry: Entry, other: Entry) -> bool
    ensures { IsTrue result → entry ≡ other }
{
    entry.column == other.column && entry.factor == other.factor
}

/// Whether the rows have the same entries.
fn are_same(row: &[Entry], other: &[Entry]) -> bool
    ensures { IsTrue result → row.now ≡ other.now }
{
    if row.len() != other.len() {
        return false;
    }
    for i in 0..row.len() {
        if !is_same(row[i], other[i]) {
            return false;
        }
    }
    true
}

/// Whether this row stands at the place.
pub(crate) fn is_at(rows: &[List<Entry>], place: usize, row: &[Entry]) -> bool
    requires { place < length rows.now }
    ensures { IsTrue result → get_or rows.now place [] ≡ row.now }
{
    are_same(rows[place].as_slice(), row)
}
