//! One step: a row is reduced by a kept row.
ghost use Rattle.std.specs.Prelude.{ℕ, ◌≡◌, ◌+◌, ◌<◌, ◌≤◌, ◌^◌, [], length, All, OnOk, OnErr};
ghost use Rattle.std.specs.Prelude.{vec_capacity};
ghost use Rattle.gj_frac.specs.Fraction.{Fits};
ghost use Rattle.gj_shape.specs.Elimination.{Passes};
ghost use Rattle.gj_sparse_elim.specs.Sparse.{dense, AreSparse};
ghost use Rattle.gj_proof.specs.PresentRows.{arithmetic_of};
ghost use Rattle.gj_check_groups.specs.KeptTable.{IsKeptAt};
ghost use Rattle.gj_limit_check_groups.specs.SparseRows.{IsSparseRow, IsReduced};
ghost use Rattle.gj_limit_check_groups.specs.Steps.{finished};

use crate::divide::divide;
use crate::merge::merge;
use crate::row::Row;
use crate::step::step_of;
use gj_frac::Wide;
use gj_proof::Numbers;
use gj_sparse_elim::Entry;
use std::alloc::AllocError;
use std::mem::swap;

/// Makes room for the row after a step by a kept row of so many entries.
pub(crate) fn make_room(row: &mut Row, kept_entries: usize) -> Result<(), AllocError>
    requires { kept_entries < 2 ^ 32 }
    ensures entries { row.new.entries.items ≡ row.old.entries.items }
    ensures empty { OnOk result (row.new.next.items ≡ []) }
    ensures room { OnOk result
        (length row.new.entries.items + kept_entries ≤ vec_capacity row.new.next) }
{
    row.next.clear();
    row.next.reserve(row.entries.len() + kept_entries)?;
    Ok(())
}

/// What is left to do behind the entries of a step: a row of whole numbers is divided by the
/// greatest common divisor of its entries.
fn finish(numbers: Numbers, row: &mut [Entry])
    requires { All (λ e. Fits e.factor) row.old }
    ensures sparse { (n : ℕ) → AreSparse n row.old → AreSparse n row.new }
    ensures value { (n : ℕ) → AreSparse n row.old →
        dense n row.new ≡ finished numbers (dense n row.old) }
{
    match numbers {
        Numbers::Whole => divide(row),
        Numbers::Residues => {}
    }
}

/// Reduces a row of these numbers by a kept row with its pivot at the column, both of so many
/// columns. There is room for the row after the step. After an error the row is no longer used.
pub(crate) fn reduce(
    numbers: Numbers,
    kept: &[Entry],
    row: &mut Row,
    column: u32,
    columns: u32,
) -> Result<(), Wide>
    requires within { column < columns }
    requires sparse { AreSparse columns kept.now }
    requires kept { IsKeptAt numbers columns column (dense columns kept.now) }
    requires row { IsSparseRow numbers columns row.old.entries.items }
    requires empty { row.old.next.items ≡ [] }
    requires room { length row.old.entries.items + length kept.now ≤ vec_capacity row.old.next }
    ensures reduced { OnOk result (IsReduced numbers columns
        kept.now row.old.entries.items column row.new.entries.items) }
    ensures narrow { OnOk result (¬ Passes ((arithmetic_of numbers).marked
        (dense columns kept.now) (dense columns row.old.entries.items) column)) }
    ensures wide { OnErr result (Passes ((arithmetic_of numbers).marked
        (dense columns kept.now) (dense columns row.old.entries.items) column)) }
{
    let step = step_of(numbers, kept, row.entries.as_slice(), column);
    merge(step, kept, row.entries.as_slice(), columns, &mut row.next)?;
    swap(&mut row.entries, &mut row.next);
    finish(numbers, row.entries.as_mut_slice());
    Ok(())
}
