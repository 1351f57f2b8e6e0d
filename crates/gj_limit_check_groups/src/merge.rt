//! Two rows are made one, entry by entry.
ghost use Rattle.std.specs.Prelude.{ℕ, pos, ◌≡◌, ◌≢◌, ◌+◌, ◌≤◌, [], ◌∷◌, ◌++◌, length};
ghost use Rattle.std.specs.Prelude.{OnOk, OnErr, vec_len, vec_capacity};
ghost use Rattle.gj_shape.specs.Elimination.{Passes};
ghost use Rattle.gj_sparse_elim.specs.Sparse.{factor_at, dense, AreSparse};
ghost use Rattle.gj_limit_check_groups.specs.Steps.{CanStep, stepped_row, marked_by};

use crate::reach::{next_column, reach};
use crate::step::{Step, entry_after};
use gj_frac::Wide;
use gj_sparse_elim::Entry;

/// Appends an entry, if its factor is not 0.
fn push_factor(row: &mut Vec<Entry>, column: u32, factor: i128)
    requires { vec_len row.old + 1 ≤ vec_capacity row.old }
    ensures zero { factor ≡ pos 0 → row.new.items ≡ row.old.items }
    ensures some { factor ≢ pos 0 → row.new.items
        ≡ row.old.items ++ record { column = column; factor = factor } ∷ [] }
    ensures len { vec_len row.new ≤ vec_len row.old + 1 }
    ensures capacity { vec_capacity row.new ≡ vec_capacity row.old }
{
    if factor != 0 {
        row.push_reserved(Entry { column, factor });
    }
}

/// Appends to a row without entries those of the row that a step makes of two rows of so many
/// columns. `Wide` exactly if a number that the step marks passes 2^127 - 1 in absolute value; some
/// entries are appended then.
pub(crate) fn merge(
    step: Step,
    kept: &[Entry],
    row: &[Entry],
    columns: u32,
    next: &mut Vec<Entry>,
) -> Result<(), Wide>
    requires kept { AreSparse columns kept.now }
    requires row { AreSparse columns row.now }
    requires numbers { (c : ℕ) → CanStep step (factor_at row.now c) (factor_at kept.now c) }
    requires empty { next.old.items ≡ [] }
    requires room { length row.now + length kept.now ≤ vec_capacity next.old }
    ensures sparse { OnOk result (AreSparse columns next.new.items) }
    ensures value { OnOk result (dense columns next.new.items
        ≡ stepped_row step (dense columns kept.now) (dense columns row.now)) }
    ensures narrow { OnOk result (¬ Passes
        (marked_by step (dense columns kept.now) (dense columns row.now))) }
    ensures wide { OnErr result (Passes
        (marked_by step (dense columns kept.now) (dense columns row.now))) }
{
    let mut i = 0;
    let mut j = 0;
    'entries: loop {
        let column = next_column(row, i, columns).min(next_column(kept, j, columns));
        if column >= columns {
            return Ok(());
        }
        let x = reach(row, i, column);
        let e = reach(kept, j, column);
        let factor = entry_after(step, x.factor, e.factor)?;
        push_factor(next, column, factor);
        i = x.behind;
        j = e.behind;
    }
}
