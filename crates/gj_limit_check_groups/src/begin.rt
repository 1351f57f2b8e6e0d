//! The row with which a group begins.
ghost use Rattle.std.specs.Prelude.{◌≡◌, length, All, OnOk};
ghost use Rattle.gj_shape.specs.FunctionData.{FunctionData};
ghost use Rattle.gj_shape.specs.SlopeRows.{component_in};
ghost use Rattle.gj_sparse_elim.specs.Sparse.{dense};
ghost use Rattle.gj_proof.specs.PresentRows.{arithmetic_of};
ghost use Rattle.gj_limit_system.specs.LimitRows.{IsLimitRowBelow};
ghost use Rattle.gj_limit_system.specs.Unknowns.{columns_for};
ghost use Rattle.gj_limit_proof.specs.LimitRowsKept.{begun_row};
ghost use Rattle.gj_limit_check_groups.specs.Changes.{CanChange, read_entries};
ghost use Rattle.gj_limit_check_groups.specs.SparseRows.{IsSparseRow};

use crate::change::{Change, change_all};
use crate::row::Row;
use gj_limit_system::{LimitRow, LimitRows};
use gj_proof::Numbers;
use gj_sparse_elim::Entry;
use std::alloc::AllocError;

/// Reads a row: of residues, it takes those of its entries.
fn read(numbers: Numbers, row: &mut [Entry])
    requires { All (λ e. CanChange Change.Read e.factor) row.old }
    ensures { row.new ≡ read_entries numbers row.old }
{
    match numbers {
        Numbers::Whole => {}
        Numbers::Residues => change_all(Change::Read, row),
    }
}

/// Puts the row of this name in the place of a row, as these numbers read it. An error says that
/// memory ran out.
pub(crate) fn begin_row(
    numbers: Numbers,
    system: &LimitRows,
    name: LimitRow,
    row: &mut Row,
) -> Result<(), AllocError>
    requires { IsLimitRowBelow name (length system.now.component) }
    ensures row { OnOk result (IsSparseRow numbers
        (columns_for (length system.now.component) system.now.count) row.new.entries.items) }
    ensures begun { OnOk result ((f : FunctionData) → f.order ≡ length system.now.component →
        f.place ≡ system.now.place →
        dense (columns_for (length system.now.component) system.now.count) row.new.entries.items
        ≡ begun_row (arithmetic_of numbers) f (component_in system.now.component)
        (columns_for (length system.now.component) system.now.count) name) }
{
    system.write_row(name, &mut row.entries)?;
    read(numbers, row.entries.as_mut_slice());
    Ok(())
}
