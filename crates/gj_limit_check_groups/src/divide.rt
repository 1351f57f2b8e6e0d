//! A row is divided by the greatest common divisor of its entries.
ghost use Rattle.std.specs.Prelude.{ℕ, ◌≡◌, List, All, map};
ghost use Rattle.gj_frac.specs.Fraction.{Fits};
ghost use Rattle.gj_shape.specs.Elimination.{gcd_of_row, divided};
ghost use Rattle.gj_sparse_elim.specs.Sparse.{dense, AreSparse};

use crate::change::{Change, change_all};
use gj_frac::gcd;
use gj_sparse_elim::Entry;

/// The greatest common divisor of all entries; 0 if there are none.
fn divisor_of(row: &[Entry]) -> u128
    ensures { result ≡ gcd_of_row (map (λ e. e.factor) row.now) }
{
    let mut divisor: u128 = 0;
    for entry in row {
        if divisor == 1 {
            return 1;
        }
        divisor = gcd(entry.factor.unsigned_abs(), divisor);
    }
    divisor
}

/// Divides a row by the greatest common divisor of its entries.
pub(crate) fn divide(row: &mut [Entry])
    requires { All (λ e. Fits e.factor) row.old }
    ensures sparse { (n : ℕ) → AreSparse n row.old → AreSparse n row.new }
    ensures value { (n : ℕ) → AreSparse n row.old →
        dense n row.new ≡ divided (dense n row.old) }
    ensures fits { All (λ e. Fits e.factor) row.new }
{
    let divisor = divisor_of(row);
    if divisor > 1 {
        change_all(Change::Divide(divisor as i128), row);
    }
}
