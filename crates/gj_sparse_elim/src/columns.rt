//! Sets of columns, in parts of 1,024.
ghost use Rattle.std.specs.Prelude.{ℕ, ◌≡◌, ◌<◌, ◌≤◌, ◌*◌, ◌^◌, ◌||◌, ◌==◌, false, length, IfOk};
ghost use Rattle.std.specs.Prelude.{MatchOption};
ghost use Rattle.gj_sparse_elim.specs.Columns.{has_column, IsFirstColumn};

use gj_loops::{IndexSet, LIMIT};
use std::alloc::{AllocError, Global};

/// The empty set, with room for so many columns.
pub(crate) fn no_columns(alloc: Global, columns: usize) -> Result<Vec<IndexSet>, AllocError>
    requires { columns < 2 ^ 32 }
    ensures empty { IfOk result (λ v. (k : ℕ) → has_column v.items k ≡ false) }
    ensures room { IfOk result (λ v. columns ≤ 1024 * length v.items) }
    ensures few { IfOk result (λ v. length v.items < 2 ^ 32) }
{
    let mut parts = Vec::new(alloc);
    for _ in 0..columns / LIMIT + 1 {
        parts.push(IndexSet::empty())?;
    }
    Ok(parts)
}

/// Puts a column into the set.
pub(crate) fn insert_column(parts: &mut [IndexSet], column: usize)
    requires { column < 1024 * length parts.old }
    ensures { (k : ℕ) → has_column parts.new k ≡ (has_column parts.old k || k == column) }
{
    let part = &mut parts[column / LIMIT];
    part.insert(column % LIMIT);
}

/// Takes all columns out of the set.
pub(crate) fn remove_columns(parts: &mut [IndexSet])
    ensures { (k : ℕ) → has_column parts.new k ≡ false }
{
    for part in parts.iter_mut() {
        *part = IndexSet::empty();
    }
}

/// The least column in the set that is not below `from`.
pub(crate) fn first_from(parts: &[IndexSet], from: usize) -> Option<usize>
    requires { length parts.now < 2 ^ 32 }
    ensures { MatchOption result ((k : ℕ) → from ≤ k → has_column parts.now k ≡ false)
        (IsFirstColumn parts.now from) }
{
    let mut start = from % LIMIT;
    for place in from / LIMIT..parts.len() {
        if let Some(index) = parts[place].first_from(start) {
            return Some(LIMIT * place + index);
        }
        start = 0;
    }
    None
}
