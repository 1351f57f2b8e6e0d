//! A row of residues goes through all columns, and is reduced by the kept rows.
ghost use Rattle.std.specs.Prelude.{ℕ, ◌≡◌, ◌<◌, [], length, Some, IfOk, IfSome, OnOk};
ghost use Rattle.std.specs.List.{range_with_len};
ghost use Rattle.gj_shape.specs.Elimination.{at_column, insertion_by, inserted_by};
ghost use Rattle.gj_shape.specs.Residues.{inverse, modulo};
ghost use Rattle.gj_theory.specs.Modulus.{modulus};
ghost use Rattle.gj_elim.specs.Progress.{IsLeft};
ghost use Rattle.gj_residue.specs.Rows.{numbers_of, AreResidues, kept_residues, AreKeptResidues};
ghost use Rattle.gj_residue.specs.Rows.{column_of};

use crate::kept::KeptResidues;
use crate::residue::inverse_of;
use crate::step::{read, reduce_by};
use gj_elim::place_of;
use std::alloc::AllocError;

/// Where something is left of a row that can be kept.
#[derive(Clone, Copy)]
pub(crate) struct Left {
    /// The column of its first entry that is not 0.
    pub(crate) column: u32,
    /// The inverse of that entry.
    pub(crate) factor: u64,
}

/// Takes a row of residues through all columns, and adds to `reduce` the columns at which it is
/// reduced. The answer is the column at which something is left of the row. After an error the row
/// and the columns are no longer used.
fn reduce_columns(
    kept: &KeptResidues,
    row: &mut [u64],
    reduce: &mut Vec<u32>,
) -> Result<Option<u32>, AllocError>
    requires kept { AreKeptResidues (length row.old) kept.now }
    requires below { AreResidues row.old }
    requires empty { reduce.old.items ≡ [] }
    ensures left { IfOk result (λ left. IsLeft (modulo modulus)
        (insertion_by (modulo modulus) (kept_residues kept.now)
        (range_with_len 0 (length row.old)) (numbers_of row.old))
        left (numbers_of row.new) reduce.new.items) }
    ensures within { IfOk result (λ left. IfSome left (λ c. c < length row.old)) }
    ensures below { OnOk result (AreResidues row.new) }
{
    for column in 0..row.len() {
        if row[column] != 0 {
            match place_of(kept.log.as_slice(), column as u32) {
                None => return Ok(Some(column as u32)),
                Some(place) => {
                    reduce_by(kept.rows[place].as_slice(), row, column);
                    reduce.reserve(1)?;
                    reduce.push_reserved(column as u32);
                }
            }
        }
    }
    Ok(None)
}

/// Reads a row, takes it through all columns, and adds to `reduce` the columns at which it is
/// reduced. The answer says where something is left of the row that can be kept. After an error the
/// row and the columns are no longer used.
pub(crate) fn reduce_row(
    kept: &KeptResidues,
    given: &[i128],
    row: &mut [u64],
    reduce: &mut Vec<u32>,
) -> Result<Option<Left>, AllocError>
    requires kept { AreKeptResidues (length given.now) kept.now }
    requires columns { length row.old ≡ length given.now }
    requires empty { reduce.old.items ≡ [] }
    ensures left { IfOk result (λ left. IsLeft (modulo modulus)
        (inserted_by (modulo modulus) (length given.now) (kept_residues kept.now) given.now)
        (column_of left) (numbers_of row.new) reduce.new.items) }
    ensures factor { IfOk result (λ left. IfSome left (λ l. Some l.factor
        ≡ inverse modulus (at_column (numbers_of row.new) l.column))) }
{
    read(given, row);
    let Some(column) = reduce_columns(kept, row, reduce)? else {
        return Ok(None);
    };
    let Some(factor) = inverse_of(row[column as usize]) else {
        return Ok(None);
    };
    Ok(Some(Left { column, factor }))
}
