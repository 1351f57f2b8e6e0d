//! What is left of a row is kept.
ghost use Rattle.std.specs.Prelude.{pos, ◌≡◌, [], ◌∷◌, ◌++◌, length, map, OnOk, OnErr};
ghost use Rattle.gj_shape.specs.Elimination.{scaled};
ghost use Rattle.gj_shape.specs.Residues.{residues};
ghost use Rattle.gj_theory.specs.Modulus.{modulus};
ghost use Rattle.gj_theory.specs.TriangularResidues.{AreTriangularResidues};
ghost use Rattle.gj_residue.specs.Rows.{numbers_of, kept_residues, AreKeptResidues};

use crate::kept::KeptResidues;
use crate::step::multiply;
use gj_elim::{LogRow, Origin};
use gj_shape::List;
use std::alloc::{AllocError, Global};

/// Keeps the row times the factor, and writes to the log how it came to be kept. After an error
/// nothing is changed.
pub(crate) fn keep(
    alloc: Global,
    kept: &mut KeptResidues,
    origin: Origin<'_>,
    factor: u64,
    row: &[u64],
) -> Result<(), AllocError>
    requires { AreKeptResidues (length row.now) kept.old }
    ensures line { OnOk result (kept.new.log.items
        ≡ kept.old.log.items ++ record {
          number = origin.entry.number;
          reduce = origin.entry.reduce.now;
          pivot = origin.entry.pivot;
        } ∷ []) }
    ensures entries { OnOk result (map numbers_of kept.new.rows.items
        ≡ map numbers_of kept.old.rows.items ++ residues modulus (scaled (pos factor)
        (numbers_of row.now)) ∷ []) }
    ensures kept { OnOk result (AreTriangularResidues (length row.now) (kept_residues kept.new) →
        AreKeptResidues (length row.now) kept.new) }
    ensures unchanged { OnErr result (AreKeptResidues (length row.now) kept.new) }
    ensures same { OnErr result (kept_residues kept.new ≡ kept_residues kept.old) }
{
    let mut entries = Vec::from_slice(alloc, row)?;
    multiply(factor, entries.as_mut_slice());
    let reduce = Vec::from_slice(alloc, origin.reduce)?;
    kept.log.reserve(1)?;
    kept.rows.reserve(1)?;
    kept.log.push_reserved(LogRow {
        number: origin.number,
        reduce: List::of(reduce),
        pivot: origin.pivot,
    });
    kept.rows.push_reserved(List::of(entries));
    Ok(())
}
