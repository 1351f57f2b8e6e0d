//! All entries of a row are changed.
ghost use Rattle.std.specs.Prelude.{◌≡◌, All, map};
ghost use Rattle.gj_limit_check_groups.specs.Changes.{CanChange, changed, changed_entry};

use gj_check_groups::{product, residue_of};
use gj_sparse_elim::Entry;

/// What becomes of a factor. One that is not 0 does not become 0.
#[derive(Clone, Copy)]
pub(crate) enum Change {
    /// Its quotient by one of its divisors.
    Divide(i128),
    /// Its negative.
    Negate,
    /// Its residue, if it is below the modulus in absolute value.
    Read,
    /// The residue of its product with an invertible residue, if it is a residue.
    Multiply(i128),
}

/// What becomes of the factor x.
fn factor_after(change: Change, x: i128) -> i128
    requires { CanChange change x }
    ensures { result ≡ changed change x }
{
    match change {
        Change::Divide(divisor) => x / divisor,
        Change::Negate => -x,
        Change::Read => residue_of(x),
        Change::Multiply(factor) => product(factor, x),
    }
}

/// Changes all entries.
pub(crate) fn change_all(change: Change, row: &mut [Entry])
    requires { All (λ e. CanChange change e.factor) row.old }
    ensures { row.new ≡ map (changed_entry change) row.old }
{
    for i in 0..row.len() {
        let entry = row[i];
        row[i] = Entry {
            column: entry.column,
            factor: factor_after(change, entry.factor),
        };
    }
}
