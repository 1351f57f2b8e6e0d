//! One step: a row is reduced by a kept row.
ghost use Rattle.std.specs.Prelude.{◌≡◌, ◌<◌, length, OnOk, OnErr};
ghost use Rattle.gj_shape.specs.Elimination.{Passes};
ghost use Rattle.gj_proof.specs.PresentRows.{arithmetic_of};
ghost use Rattle.gj_check_groups.specs.KeptTable.{IsKeptAt};
ghost use Rattle.gj_check_groups.specs.RowNumbers.{AreRowNumbers};

use crate::modulo::reduce_modulo;
use gj_frac::Wide;
use gj_loops::reduce_by;
use gj_proof::Numbers;

/// Reduces a row of these numbers by a kept row with its pivot at the column. After an error some
/// entries are changed.
pub(crate) fn reduce(
    numbers: Numbers,
    kept: &[i128],
    row: &mut [i128],
    column: usize,
) -> Result<(), Wide>
    requires within { column < length row.old }
    requires kept { IsKeptAt numbers (length row.old) column kept.now }
    requires row { AreRowNumbers numbers row.old }
    ensures value { OnOk result (row.new ≡ (arithmetic_of numbers).step kept.now row.old column) }
    ensures fits { OnOk result (AreRowNumbers numbers row.new) }
    ensures narrow { OnOk result
        (¬ Passes ((arithmetic_of numbers).marked kept.now row.old column)) }
    ensures wide { OnErr result (Passes ((arithmetic_of numbers).marked kept.now row.old column)) }
{
    match numbers {
        Numbers::Whole => reduce_by(kept, row, column),
        Numbers::Residues => {
            reduce_modulo(kept, row, column);
            Ok(())
        }
    }
}
