//! The table of the pairs in runs.
ghost use Rattle.std.specs.Prelude.{ℕ, ◌≡◌, ◌⊎◌, ◌↔◌, ◌+◌, ◌<◌, length, IfOk, IsTrue};
ghost use Rattle.gj_shape.specs.Given.{IsOrder};
ghost use Rattle.gj_faces.specs.Runs.{AreInOrder, InRuns, RunHolds, IsRunOf};
ghost use Rattle.gj_cover.specs.SetRows.{in_row};
ghost use Rattle.gj_cover.specs.Table.{TellsTight};

use crate::table::Table;
use crate::transposed::no_pairs;
use gj_faces::Run;
use gj_loops::IndexSet;
use std::alloc::{AllocError, Global};

/// The table of the pairs in the runs.
pub(crate) fn table_of_runs(alloc: Global, runs: &[Run], q: u32) -> Result<Table, AllocError>
    requires order { IsOrder q }
    requires in_order { AreInOrder q runs.now }
    ensures order { IfOk result (λ t. t.order ≡ q) }
    ensures tells { IfOk result (λ t. TellsTight t (InRuns q runs.now)) }
{
    let mut rows = no_pairs(alloc, q as usize)?;
    for run in runs {
        mark(&mut rows, *run);
    }
    let table = Table::of(alloc, rows, q)?;
    Ok(table)
}

/// Adds the pairs of a run.
fn mark(rows: &mut Vec<IndexSet>, run: Run)
    requires order { IsOrder (length rows.old.items) }
    requires run { IsRunOf (length rows.old.items) run }
    ensures length { length rows.new.items ≡ length rows.old.items }
    ensures marked { let q = length rows.old.items in (i j : ℕ) → i < q → j < q →
        IsTrue (in_row rows.new.items i j) ↔ (IsTrue (in_row rows.old.items i j) ⊎
        RunHolds q i j run) }
{
    let places = IndexSet::between(run.from as usize, run.to as usize + 1);
    let row = run.a as usize;
    rows[row] = rows[row].or(&places);
}
