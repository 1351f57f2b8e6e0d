//! Whether the table of a function's own order is extreme.
ghost use Rattle.std.specs.Prelude.{◌≡◌, ◌≤◌, ◌↔◌, IfOk, IsErrOf, OnOk};
ghost use Rattle.gj_shape.specs.FunctionData.{IsContinuous, IsWithinBounds};
ghost use Rattle.gj_shape.specs.Table.{IsMinimalOnGrid};
ghost use Rattle.gj_residue.specs.Settled.{IsSettled, AnswersRows, AreRowsTooWide};
ghost use Rattle.gj_group.specs.Decision.{greatest_group_order, own_rows, SaysOfTable, IsFound};
ghost use Rattle.gj_group.specs.Decision.{IsExtremeOnOwnGrid, IsTooWideGroup};

use crate::faults::GroupFault;
use crate::table_rows::GroupRows;
use gj_minimal::find_violation;
use gj_perturb::{Perturbation, split};
use gj_residue::{Settled, settle};
use gj_shape::{Halves, Shape, Violation};
use std::alloc::Global;

/// The greatest order of a table that is decided.
pub const GREATEST_GROUP_ORDER: u32 = 120;

/// What is decided of the table of a function's own order q, that of its values at the multiples of
/// 1/q.
#[derive(Debug, Drop)]
pub enum GroupAnswer {
    /// It is not minimal; the function's first violation.
    NotMinimal(Violation),
    /// It is minimal, and no average of two different minimal tables of order q.
    Extreme,
    /// It is minimal, and the average of these two different minimal tables of order q.
    NotExtreme(Halves),
}

/// Whether the table of a continuous function's own order is minimal, and whether it is extreme:
/// Gomory's cyclic group problem. Of a table that is not minimal the answer is the first violation
/// that `find_violation` finds; of one that is minimal and not extreme the halves of the kernel of
/// its rows.
///
/// `Wide` comes exactly if the table is minimal and a number of the elimination of its rows passes
/// 2^127 - 1 in absolute value and residues do not help, or a number of their kernel passes, or the
/// scale of the halves passes 2^124. The only other error is want of memory. Source: Gomory and
/// Johnson, "Some continuous functions related to corner polyhedra" (1972).
pub fn decide_group(alloc: Global, shape: &Shape) -> Result<GroupAnswer, GroupFault>
    requires continuous { IsContinuous shape.now }
    requires order { shape.now.order ≤ greatest_group_order }
    ensures says { IfOk result (SaysOfTable shape.now) }
    ensures found { IfOk result (IsFound shape.now) }
    ensures extreme { IfOk result (λ answer. (answer ≡ GroupAnswer.Extreme) ↔
        IsExtremeOnOwnGrid shape.now) }
    ensures narrow { OnOk result (IsMinimalOnGrid shape.now 1 → IsTooWideGroup shape.now → ⊥) }
    ensures wide { IsErrOf result GroupFault.Wide → IsMinimalOnGrid shape.now 1 ×
        IsTooWideGroup shape.now }
{
    if let Some(violation) = find_violation(shape) {
        return Ok(GroupAnswer::NotMinimal(violation));
    }
    match settled_table(alloc, shape)? {
        Settled::Plain(_) => Ok(GroupAnswer::Extreme),
        Settled::Residues(_) => Ok(GroupAnswer::Extreme),
        Settled::Kernel(numbers) => {
            let perturbation = Perturbation {
                times: 1,
                values: numbers,
            };
            let halves = split(alloc, shape, &perturbation)?;
            Ok(GroupAnswer::NotExtreme(halves))
        }
    }
}

/// What solves the rows of the table.
fn settled_table(alloc: Global, shape: &Shape) -> Result<Settled, GroupFault>
    ensures limits { IsWithinBounds shape.now }
    ensures settled { IfOk result (IsSettled shape.now.order (own_rows shape.now)) }
    ensures answers { IfOk result (AnswersRows shape.now.order (own_rows shape.now)) }
    ensures wide { IsErrOf result GroupFault.Wide → AreRowsTooWide shape.now.order
        (own_rows shape.now) }
{
    let order = shape.order();
    let mut rows = GroupRows::new(alloc, shape)?;
    Ok(settle(alloc, order, &mut rows)?)
}
