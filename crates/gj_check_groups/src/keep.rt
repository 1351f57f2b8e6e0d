//! The kept rows, as a table over the columns.
ghost use Rattle.std.specs.Prelude.{◌≡◌, ◌<◌, OnOk, length, set};
ghost use Rattle.std.specs.declared.option.Option.TheVariants.{Some};
ghost use Rattle.gj_shape.specs.Elimination.{KeptRow};
ghost use Rattle.gj_proof.specs.PresentRows.{arithmetic_of, entries_or_none};
ghost use Rattle.gj_proof.specs.Rules.{MeetsPivotBy};
ghost use Rattle.gj_check_groups.specs.KeptTable.{IsKeptAt};
ghost use Rattle.gj_check_groups.specs.RowNumbers.{AreRowNumbers};

use crate::modulo::make_kept_modulo;
use gj_loops::make_kept;
use gj_proof::Numbers;
use gj_shape::List;
use std::alloc::{AllocError, Global};

/// Keeps what is left of a row, with its pivot at the column.
pub(crate) fn keep(
    alloc: Global,
    numbers: Numbers,
    table: &mut [Option<List<i128>>],
    row: &[i128],
    pivot: u32,
) -> Result<(), AllocError>
    requires columns { length table.old ≡ length row.now }
    requires pivot { (kept : List KeptRow) × MeetsPivotBy numbers
        (length row.now) kept row.now pivot }
    requires fits { AreRowNumbers numbers row.now }
    ensures table { OnOk result (table.new ≡ set table.old pivot
        (Some (entries_or_none ((arithmetic_of numbers).keep row.now pivot)))) }
    ensures kept { OnOk result (IsKeptAt numbers (length row.now) pivot
        (entries_or_none ((arithmetic_of numbers).keep row.now pivot))) }
{
    let mut entries = Vec::from_slice(alloc, row)?;
    make_kept_by(numbers, entries.as_mut_slice(), pivot as usize);
    table[pivot as usize] = Some(List::of(entries));
    Ok(())
}

/// Makes of a row of these numbers what is kept of it, with its pivot at the column.
fn make_kept_by(numbers: Numbers, row: &mut [i128], column: usize)
    requires pivot { (kept : List KeptRow) × MeetsPivotBy numbers
        (length row.old) kept row.old column }
    requires fits { AreRowNumbers numbers row.old }
    ensures value { row.new ≡ entries_or_none ((arithmetic_of numbers).keep row.old column) }
    ensures kept { IsKeptAt numbers (length row.old) column row.new }
{
    match numbers {
        Numbers::Whole => make_kept(row, column),
        Numbers::Residues => make_kept_modulo(row, column),
    }
}
