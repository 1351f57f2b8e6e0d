//! Rows of residues: read, reduced and multiplied.
ghost use Rattle.std.specs.Prelude.{ℕ, pos, ◌≡◌, ◌<◌, length, map, get_or, All};
ghost use Rattle.gj_shape.specs.Elimination.{scaled};
ghost use Rattle.gj_shape.specs.Residues.{residues, reduced_modulo};
ghost use Rattle.gj_theory.specs.Modulus.{modulus};
ghost use Rattle.gj_residue.specs.Rows.{numbers_of, AreResidues};

use crate::residue::{less_product, product, residue_of};

/// Writes the residues of a row.
pub(crate) fn read(row: &[i128], out: &mut [u64])
    requires { length row.now ≡ length out.old }
    ensures value { numbers_of out.new ≡ residues modulus row.now }
    ensures below { AreResidues out.new }
{
    for i in 0..out.len() {
        out[i] = residue_of(row[i]);
    }
}

/// Reduces a row by a kept row with its pivot at the column.
pub(crate) fn reduce_by(kept: &[u64], row: &mut [u64], column: usize)
    requires columns { length kept.now ≡ length row.old }
    requires within { column < length row.old }
    requires below { AreResidues row.old }
    ensures value { numbers_of row.new ≡ reduced_modulo modulus (numbers_of kept.now)
        (numbers_of row.old) column }
    ensures below { AreResidues row.new }
{
    let entry = row[column];
    for i in 0..row.len() {
        row[i] = less_product(row[i], entry, kept[i]);
    }
}

/// Multiplies a row.
pub(crate) fn multiply(factor: u64, row: &mut [u64])
    ensures value { numbers_of row.new ≡ residues modulus (scaled (pos factor)
        (numbers_of row.old)) }
{
    for x in row.iter_mut() {
        *x = product(factor, *x);
    }
}
