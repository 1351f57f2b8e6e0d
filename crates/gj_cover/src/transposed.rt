//! Rows of pairs in another order.
ghost use Rattle.std.specs.Prelude.{ℕ, ◌≡◌, ◌+◌, ◌-◌, ◌<◌, ◌≤◌, ◌&&◌, ◌||◌, ◌==◌, false, nat_le};
ghost use Rattle.std.specs.Prelude.{if◌then◌else◌, length, IfOk};
ghost use Rattle.gj_loops.specs.IndexSets.{has};
ghost use Rattle.gj_shape.specs.Limits.{greatest_order};
ghost use Rattle.gj_cover.specs.SetRows.{in_row, AreColumns, AreFirsts};

use gj_loops::IndexSet;
use std::alloc::{AllocError, Global};

/// The rows with the indices turned around, if there are as many indices as rows: a is in row b
/// exactly if b was in row a.
pub(crate) fn transposed(alloc: Global, rows: &[IndexSet]) -> Result<Vec<IndexSet>, AllocError>
    requires { length rows.now ≤ greatest_order }
    ensures length { IfOk result (λ v. length v.items ≡ length rows.now) }
    ensures columns { IfOk result (λ v. AreColumns (length rows.now) rows.now v.items) }
{
    let mut columns = no_pairs(alloc, rows.len())?;
    for a in 0..rows.len() {
        add_to_columns(&mut columns, &rows[a], a);
    }
    Ok(columns)
}

/// Rows without an index.
pub(crate) fn no_pairs(alloc: Global, count: usize) -> Result<Vec<IndexSet>, AllocError>
    ensures length { IfOk result (λ v. length v.items ≡ count) }
    ensures none { IfOk result (λ v. (a b : ℕ) → in_row v.items a b ≡ false) }
{
    let mut rows = Vec::with_capacity(alloc, count)?;
    for a in 0..count {
        rows.push(IndexSet::empty())?;
    }
    Ok(rows)
}

/// Puts the index a into each column whose index is in the row.
fn add_to_columns(columns: &mut Vec<IndexSet>, row: &IndexSet, a: usize)
    requires { a < greatest_order }
    ensures length { length columns.new.items ≡ length columns.old.items }
    ensures added { (b i : ℕ) → b < length columns.old.items →
        in_row columns.new.items b i ≡ (in_row columns.old.items b i || (i == a && has row.now b)) }
{
    let mut from = 0;
    'columns: while let Some(b) = row.first_from(from) {
        if b >= columns.len() {
            return;
        }
        columns[b].insert(a);
        from = b + 1;
    }
}

/// For each sum, modulo the number of rows, the first indices of the pairs with it.
pub(crate) fn first_indices(alloc: Global, rows: &[IndexSet]) -> Result<Vec<IndexSet>, AllocError>
    requires some { 1 ≤ length rows.now }
    requires few { length rows.now ≤ greatest_order }
    ensures length { IfOk result (λ v. length v.items ≡ length rows.now) }
    ensures firsts { IfOk result (λ v. AreFirsts (length rows.now) rows.now v.items) }
{
    let turned = turned_rows(alloc, rows)?;
    let firsts = transposed(alloc, turned.as_slice())?;
    Ok(firsts)
}

/// Each row with its own index added to the indices in it, modulo the number of rows.
fn turned_rows(alloc: Global, rows: &[IndexSet]) -> Result<Vec<IndexSet>, AllocError>
    requires { length rows.now ≤ greatest_order }
    ensures length { IfOk result (λ v. length v.items ≡ length rows.now) }
    ensures turned { IfOk result (λ v. (a s : ℕ) → a < length rows.now → s < length rows.now →
        in_row v.items a s ≡ in_row rows.now a (if nat_le a s then s - a else s +
        (length rows.now - a))) }
{
    let mut turned = Vec::with_capacity(alloc, rows.len())?;
    for a in 0..rows.len() {
        turned.push(rows[a].turned(a, rows.len()))?;
    }
    Ok(turned)
}
