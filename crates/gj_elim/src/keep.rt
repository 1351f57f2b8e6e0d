//! What is left of a row is kept.
ghost use Rattle.std.specs.Prelude.{◌≡◌, ◌<◌, [], ◌∷◌, ◌++◌, length, All, IfOk, OnOk};
ghost use Rattle.std.specs.Prelude.{OnErr};
ghost use Rattle.gj_shape.specs.Elimination.{kept_entries};
ghost use Rattle.gj_theory.specs.TriangularRows.{AreTriangular};
ghost use Rattle.gj_frac.specs.Fraction.{Fits};
ghost use Rattle.gj_elim.specs.Progress.{IsFreeColumn};
ghost use Rattle.gj_elim.specs.Tables.{ArePlaces, AreKept, rows_of};

use crate::extent::extent_of;
use crate::kept::KeptRows;
use crate::log::LogRow;
use gj_loops::make_kept;
use gj_shape::List;
use std::alloc::{AllocError, Global};

/// Where a kept row comes from: its number among the inserted rows, the columns of the steps that
/// reduced it, and the column of its pivot.
#[derive(Clone, Copy)]
pub struct Origin<'a> {
    /// The row's number among all rows that were inserted, from 0.
    pub number: u64,
    /// The columns at which it was reduced, in this order.
    pub reduce: &'a [u32],
    /// The column of its pivot.
    pub pivot: u32,
}

/// For each of so many columns no place, since no column has a pivot.
pub fn no_places(alloc: Global, columns: usize) -> Result<Vec<Option<u32>>, AllocError>
    ensures { IfOk result (λ v. ArePlaces columns [] v.items) }
{
    vec![in alloc; None; columns]
}

/// Keeps what is left of a row, and writes to the log how it came to be kept. After an error
/// nothing is changed.
pub(crate) fn keep(
    alloc: Global,
    kept: &mut KeptRows,
    origin: Origin<'_>,
    row: &[i128],
) -> Result<(), AllocError>
    requires kept { AreKept (length row.now) kept.old }
    requires fits { All Fits row.now }
    requires free { IsFreeColumn (length row.now) kept.old.log.items origin.pivot }
    ensures line { OnOk result (kept.new.log.items
        ≡ kept.old.log.items ++ record {
          number = origin.entry.number;
          reduce = origin.entry.reduce.now;
          pivot = origin.entry.pivot;
        } ∷ []) }
    ensures entries { OnOk result (kept.new.rows.items
        ≡ kept.old.rows.items ++ kept_entries row.now origin.entry.pivot ∷ []) }
    ensures kept { OnOk result (AreTriangular (length row.now) (rows_of kept.new) →
        AreKept (length row.now) kept.new) }
    ensures unchanged { OnErr result (AreKept (length row.now) kept.new) }
    ensures same { OnErr result (rows_of kept.new ≡ rows_of kept.old) }
{
    let mut entries = Vec::from_slice(alloc, row)?;
    make_kept(entries.as_mut_slice(), origin.pivot as usize);
    let extent = extent_of(entries.as_slice());
    let place = kept.log.len() as u32;
    let reduce = Vec::from_slice(alloc, origin.reduce)?;
    kept.log.reserve(1)?;
    kept.rows.reserve(1)?;
    kept.extents.reserve(1)?;
    kept.log.push_reserved(LogRow {
        number: origin.number,
        reduce: List::of(reduce),
        pivot: origin.pivot,
    });
    kept.rows.push_reserved(List::of(entries));
    kept.extents.push_reserved(extent);
    kept.places[origin.pivot as usize] = Some(place);
    Ok(())
}
