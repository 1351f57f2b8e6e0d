//! The kept rows, as a table over the columns.
ghost use Rattle.std.specs.Prelude.{◌≡◌, IfOk, IfNone, IfSome, get_or, map};
ghost use Rattle.std.specs.List.{range_with_len};
ghost use Rattle.std.specs.declared.option.Option.TheVariants.{Some, None};

use gj_shape::List;
use gj_sparse_elim::Entry;
use std::alloc::{AllocError, Global};

/// For each column the entries of the kept row with its pivot there, if there is one.
pub(crate) type Kept = Option<List<Entry>>;

/// A table of so many columns without rows.
pub(crate) fn no_rows(alloc: Global, columns: u32) -> Result<Vec<Kept>, AllocError>
    ensures { IfOk result (λ v. v.items ≡ map (λ i. None) (range_with_len 0 columns)) }
{
    (0..columns).map(|_| None).collect(alloc)
}

/// The entries of the kept row with its pivot at the column.
pub(crate) fn row_at(table: &[Kept], column: u32) -> Option<&[Entry]>
    ensures some { IfSome result (λ entries. Some entries.now ≡ get_or table.now column None) }
    ensures none { IfNone result (None ≡ get_or table.now column None) }
{
    let column = column as usize;
    if column >= table.len() {
        return None;
    }
    match &table[column] {
        Some(entries) => Some(entries.as_slice()),
        None => None,
    }
}
