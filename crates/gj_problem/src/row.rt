//! The row of a problem by multipliers.
ghost use Rattle.std.specs.Prelude.{◌≡◌, IfOk, OnOk, Err, length};
ghost use Rattle.gj_problem.specs.Made.{IsMadeRow};
ghost use Rattle.gj_problem.specs.WideRows.{IsWideRow};

use crate::bounds::{Bounds, Turned, turned_columns};
use crate::faults::Fault;
use crate::pieces::Piece;
use crate::problem::Problem;
use crate::slacks::{Aggregate, added_up};
use crate::sparse::Sparse;
use gj_frac::Frac;
use std::alloc::Global;

/// A row whose columns are slacks and columns turned to bounds.
#[derive(Drop)]
pub struct Row {
    /// The slacks.
    pub slacks: Vec<Piece>,
    /// The columns.
    pub bounds: Vec<Piece>,
    /// The right side.
    pub right: Frac,
}

/// The row, or the first free column.
#[derive(Drop)]
pub enum MadeRow {
    /// The row.
    Row(Row),
    /// The first free column.
    Free(u32),
}

/// The row that the multipliers make.
///
/// `Memory` is for want of memory, and `Wide` comes exactly where a number of the sum, of a slack
/// or of a bound does not fit, an entry has no column, or a column has an index of 2^32 or more.
pub fn row_of(
    alloc: Global,
    problem: &Problem,
    multipliers: &Sparse,
    at_upper: &[bool],
) -> Result<MadeRow, Fault>
    requires multipliers { length multipliers.now ≡ length problem.now.constraints }
    requires at_upper { length at_upper.now ≡ length problem.now.columns }
    ensures row { IfOk result (IsMadeRow problem.now multipliers.now at_upper.now) }
    ensures wide { result ≡ Err Fault.Wide →
        IsWideRow problem.now multipliers.now at_upper.now }
    ensures narrow { OnOk result (¬ IsWideRow problem.now multipliers.now at_upper.now) }
{
    let constraints = problem.constraints.as_slice();
    let Aggregate { sum, slacks } = added_up(alloc, problem, constraints, multipliers)?;
    let turned = turned_columns(
        alloc,
        problem.columns.as_slice(),
        sum.coefficients.as_slice(),
        at_upper,
        sum.right,
    )?;
    match turned {
        Turned::Bounds(Bounds { pieces, right }) => Ok(MadeRow::Row(Row {
            slacks,
            bounds: pieces,
            right,
        })),
        Turned::Free(column) => Ok(MadeRow::Free(column)),
    }
}
