//! What is left of a row is kept.
ghost use Rattle.std.specs.Prelude.{◌≡◌, ◌<◌, [], ◌∷◌, ◌++◌, length, map, OnOk};
ghost use Rattle.std.specs.Prelude.{ℕ, OnErr};
ghost use Rattle.gj_elim.specs.Progress.{IsFreeColumn};
ghost use Rattle.gj_theory.specs.TriangularRows.{AreTriangular};
ghost use Rattle.gj_sparse_elim.specs.Sparse.{AreSparse, dense};
ghost use Rattle.gj_sparse_elim.specs.Rows.{sparse_rows, AreKeptSparse};

use crate::entry::{Entry, bound_of};
use crate::kept::KeptSparse;
use gj_elim::{LogRow, Origin};
use gj_shape::List;
use std::alloc::{AllocError, Global};

/// Keeps a row with these entries, and writes to the log how it came to be kept. After an error
/// nothing is changed.
pub(crate) fn keep(
    alloc: Global,
    kept: &mut KeptSparse,
    origin: Origin<'_>,
    entries: List<Entry>,
) -> Result<(), AllocError>
    requires kept { AreKeptSparse (length kept.old.places.items) kept.old }
    requires entries { AreSparse (length kept.old.places.items) entries }
    requires free { IsFreeColumn (length kept.old.places.items) kept.old.log.items origin.pivot }
    ensures line { OnOk result (kept.new.log.items
        ≡ kept.old.log.items ++ record {
          number = origin.entry.number;
          reduce = origin.entry.reduce.now;
          pivot = origin.entry.pivot;
        } ∷ []) }
    ensures entries { OnOk result
        (map (dense (length kept.old.places.items)) kept.new.rows.items
        ≡ map (dense (length kept.old.places.items)) kept.old.rows.items
        ++ dense (length kept.old.places.items) entries ∷ []) }
    ensures kept { OnOk result
        (AreTriangular (length kept.old.places.items)
        (sparse_rows (length kept.old.places.items) kept.new) →
        AreKeptSparse (length kept.old.places.items) kept.new) }
    ensures unchanged { OnErr result (AreKeptSparse (length kept.old.places.items) kept.new) }
    ensures same { OnErr result ((n : ℕ) → sparse_rows n kept.new ≡ sparse_rows n kept.old) }
{
    let bound = bound_of(entries.as_slice());
    let place = kept.log.len() as u32;
    let reduce = Vec::from_slice(alloc, origin.reduce)?;
    kept.log.reserve(1)?;
    kept.rows.reserve(1)?;
    kept.bounds.reserve(1)?;
    kept.log.push_reserved(LogRow {
        number: origin.number,
        reduce: List::of(reduce),
        pivot: origin.pivot,
    });
    kept.rows.push_reserved(entries);
    kept.bounds.push_reserved(bound);
    kept.places[origin.pivot as usize] = Some(place);
    Ok(())
}
