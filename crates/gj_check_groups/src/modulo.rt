//! Rows of residues: read, reduced and kept.
ghost use Rattle.std.specs.Prelude.{◌≡◌, ◌<◌, length, All, unsigned_abs};
ghost use Rattle.std.specs.declared.option.Option.TheVariants.{Some};
ghost use Rattle.gj_lemmas.specs.Divisors.{gcd_of};
ghost use Rattle.gj_shape.specs.Elimination.{at_column, scaled};
ghost use Rattle.gj_shape.specs.Residues.{residues, inverse, times_inverse, reduced_modulo};
ghost use Rattle.gj_theory.specs.Modulus.{modulus};
ghost use Rattle.gj_check_groups.specs.RowNumbers.{IsResidue};

use crate::residue::{inverse_of, less_product, product, residue_of};

/// Puts the residues of a row in its place.
pub(crate) fn take_residues(row: &mut [i128])
    ensures { row.new ≡ residues modulus row.old }
{
    for x in row.iter_mut() {
        *x = residue_of(*x);
    }
}

/// Reduces a row of residues by a kept row of residues with its pivot at the column.
pub(crate) fn reduce_modulo(kept: &[i128], row: &mut [i128], column: usize)
    requires columns { length kept.now ≡ length row.old }
    requires within { column < length row.old }
    requires kept { All IsResidue kept.now }
    requires row { All IsResidue row.old }
    ensures { row.new ≡ reduced_modulo modulus kept.now row.old column }
{
    let entry = row[column];
    for i in 0..row.len() {
        row[i] = less_product(row[i], entry, kept[i]);
    }
}

/// Multiplies a row of residues by a residue.
pub(crate) fn multiply(factor: i128, row: &mut [i128])
    requires factor { IsResidue factor }
    requires row { All IsResidue row.old }
    ensures { row.new ≡ residues modulus (scaled factor row.old) }
{
    for x in row.iter_mut() {
        *x = product(factor, *x);
    }
}

/// The inverse of a residue, if it has one.
pub fn inverse_modulo(x: i128) -> Option<u64>
    requires { IsResidue x }
    ensures { result ≡ inverse modulus x }
{
    inverse_of(x as u64)
}

/// Multiplies a row of residues by an inverse of its entry at the column.
pub(crate) fn make_kept_modulo(row: &mut [i128], column: usize)
    requires within { column < length row.old }
    requires row { All IsResidue row.old }
    requires invertible { gcd_of (unsigned_abs (at_column row.old column)) modulus ≡ 1 }
    ensures { Some row.new ≡ times_inverse modulus row.old (inverse modulus
        (at_column row.old column)) }
{
    if let Some(factor) = inverse_modulo(row[column]) {
        multiply(i128::from(factor), row);
    }
}
