//! One entry of a step.
ghost use Rattle.std.specs.Prelude.{ℕ, ◌≡◌, ◌<◌, ◌*ℤ◌, ◌-ℤ◌, IfOk, OnOk, OnErr};
ghost use Rattle.gj_frac.specs.Fraction.{Fits};
ghost use Rattle.gj_check_groups.specs.RowNumbers.{IsPivotEntry};
ghost use Rattle.gj_theory.specs.Fitting.{FitsCombined};
ghost use Rattle.gj_limit_check_groups.specs.Steps.{CanStep, FitsStep, stepped_entry, IsStepOf};
ghost use Rattle.gj_sparse_elim.specs.Sparse.{dense, factor_at};

use crate::row::factor_of;
use gj_check_groups::less_product;
use gj_frac::{Wide, checked_difference};
use gj_loops::{common_divisor, product};
use gj_proof::Numbers;
use gj_sparse_elim::Entry;

/// How an entry of a row and one of a kept row make one of the row after a step.
#[derive(Clone, Copy)]
pub(crate) enum Step {
    /// Of whole numbers: the first times `row`, less the second times `kept`.
    Combine { row: i128, kept: i128 },
    /// Of residues: the residue of the first less the second times `kept`.
    Modulo { kept: i128 },
}

/// u x - w e.
fn combination(u: i128, x: i128, w: i128, e: i128) -> Result<i128, Wide>
    ensures value { IfOk result (λ z. z ≡ u *ℤ x -ℤ w *ℤ e) }
    ensures fits { OnOk result (FitsCombined u x w e) }
    ensures wide { OnErr result (¬ FitsCombined u x w e) }
{
    let first = product(u, x)?;
    let second = product(w, e)?;
    checked_difference(first, second)
}

/// The entry that is made of these two.
pub(crate) fn entry_after(step: Step, x: i128, e: i128) -> Result<i128, Wide>
    requires { CanStep step x e }
    ensures value { IfOk result (λ z. z ≡ stepped_entry step x e) }
    ensures fits { OnOk result (FitsStep step x e) }
    ensures wide { OnErr result (¬ FitsStep step x e) }
{
    match step {
        Step::Combine { row, kept } => combination(row, x, kept, e),
        Step::Modulo { kept } => Ok(less_product(x, kept, e)),
    }
}

/// The step of two rows at the column: it leaves 0 there.
pub(crate) fn step_of(numbers: Numbers, kept: &[Entry], row: &[Entry], column: u32) -> Step
    requires pivot { IsPivotEntry numbers (factor_at kept.now column) }
    requires fits { Fits (factor_at kept.now column) }
    ensures { (n : ℕ) → column < n →
        IsStepOf numbers (dense n kept.now) (dense n row.now) column result }
{
    let entry = factor_of(row, column);
    match numbers {
        Numbers::Whole => {
            let pivot = factor_of(kept, column);
            let divisor = common_divisor(pivot, entry);
            Step::Combine {
                row: pivot / divisor,
                kept: entry / divisor,
            }
        }
        Numbers::Residues => Step::Modulo { kept: entry },
    }
}
