//! What makes cuts of rows that are taken to a grid.
ghost use Rattle.std.specs.Prelude.{◌<◌};
ghost use Rattle.gj_relaxed.specs.RelaxedCuts.{IsOfRelaxedRow};

use crate::loose_pieces::loosened_row;
use crate::rows::{RightMove, relaxed_row};
use gj_problem::{Fault, Row};
use gj_safe_cut::{RowCutter, SafeCut};
use std::alloc::Global;

/// Makes the cut of the row that is loosened and taken to the grid of all k/grid.
#[derive(Drop)]
pub(crate) struct OnGrid<C: RowCutter> {
    /// What makes the cut of the row on the grid.
    pub(crate) by: C,
    /// How the right side goes.
    pub(crate) to: RightMove,
    /// The grid.
    pub(crate) grid: u32,
    ghost positive: { 0 < grid },
}

impl<C: RowCutter> RowCutter for OnGrid<C> {
    ghost is_cut = { λ on. IsOfRelaxedRow on.to on.grid (C.is_cut on.by) };

    ghost never_free = { λ on columns pieces right j is.
        C.never_free on.by columns is.2.0 is.2.1 j is.2.3 };

    fn cut_of_row(&self, alloc: Global, columns: usize, row: Row) -> Result<SafeCut, Fault> {
        let loose = loosened_row(alloc, row, self.grid)?;
        let relaxed = relaxed_row(alloc, columns, loose, self.grid, self.to)?;
        self.by.cut_of_row(alloc, columns, relaxed)
    }
}
