//! Inequalities as the columns of a row.
ghost use Rattle.std.specs.Prelude.{◌≡◌, IfOk, [], ◌∷◌};

use crate::problem::{Entry, Inequality};
use gj_frac::Frac;
use gj_shape::List;
use std::alloc::{AllocError, Global};

/// An inequality that holds at all feasible points. Its surplus, what its sum has above its right
/// side, is a column of a row.
#[derive(Drop)]
pub struct Piece {
    /// What stands before the surplus in the row.
    pub entry: Frac,
    /// The inequality.
    pub inequality: Inequality,
    /// Whether the surplus is a whole number at each feasible point.
    pub is_whole: bool,
}

/// One entry alone.
pub(crate) fn one_entry(alloc: Global, column: u32, value: Frac) -> Result<List<Entry>, AllocError>
    ensures { IfOk result (λ entries. entries ≡ record { column = column; value = value } ∷ []) }
{
    let mut entries = Vec::new(alloc);
    entries.push(Entry { column, value })?;
    Ok(List::of(entries))
}
