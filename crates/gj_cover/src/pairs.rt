//! The table of the tight pairs of a function.
ghost use Rattle.std.specs.Prelude.{ℕ, ℤ, pos, ◌≡◌, ◌↔◌, ◌+◌, ◌-◌, ◌<◌, ◌≤◌, ◌+ℤ◌, false};
ghost use Rattle.std.specs.Prelude.{length, IfOk, IsTrue};
ghost use Rattle.gj_loops.specs.IndexSets.{has};
ghost use Rattle.gj_shape.specs.Additive.{IsTight};
ghost use Rattle.gj_shape.specs.FunctionData.{at};
ghost use Rattle.gj_shape.specs.Given.{IsOrder};
ghost use Rattle.gj_faces.specs.TightPairs.{AreTightPairsOf};
ghost use Rattle.gj_cover.specs.Mirrored.{AreMirrored};
ghost use Rattle.gj_cover.specs.SetRows.{in_row, AreRound};
ghost use Rattle.gj_cover.specs.Table.{TellsTight};

use crate::table::Table;
use gj_faces::TightPairs;
use gj_loops::IndexSet;
use gj_shape::Shape;
use std::alloc::{AllocError, Global};

/// The table of the tight pairs of a function.
///
/// If the values at each two points with the sum f add up to 1, the pairs with a sum are those of
/// one row, so that the rows are all sets of the table.
pub(crate) fn table_of_pairs(
    alloc: Global,
    shape: &Shape,
    pairs: &TightPairs,
) -> Result<Table, AllocError>
    requires { AreTightPairsOf shape.now pairs.now }
    ensures order { IfOk result (λ t. t.order ≡ shape.now.order) }
    ensures tells { IfOk result (λ t. TellsTight t (IsTight shape.now)) }
{
    let rows = copied_rows(alloc, shape, pairs)?;
    if is_mirrored(shape) {
        return Ok(Table::with_own_sides(rows, shape.order(), shape.place()));
    }
    let table = Table::of(alloc, rows, shape.order())?;
    Ok(table)
}

/// The rows of the pairs. In each the order stands for 0.
fn copied_rows(
    alloc: Global,
    shape: &Shape,
    pairs: &TightPairs,
) -> Result<Vec<IndexSet>, AllocError>
    requires { AreTightPairsOf shape.now pairs.now }
    ensures length { IfOk result (λ v. length v.items ≡ shape.now.order) }
    ensures rows { IfOk result (λ v. (a b : ℕ) → a < shape.now.order → b < shape.now.order →
        IsTrue (in_row v.items a b) ↔ IsTight shape.now a b) }
    ensures round { IfOk result (λ v. AreRound shape.now.order v.items) }
{
    let order = shape.order();
    let mut rows = Vec::with_capacity(alloc, order as usize)?;
    for a in 0..order {
        rows.push(round(pairs.row(a), order))?;
    }
    Ok(rows)
}

/// The set with the order too, if it has 0.
fn round(row: &IndexSet, order: u32) -> IndexSet
    requires order { IsOrder order }
    requires within { (b : ℕ) → order ≤ b → has row.now b ≡ false }
    ensures same { (b : ℕ) → b < order → has result b ≡ has row.now b }
    ensures round { has result order ≡ has result 0 }
    ensures within { (b : ℕ) → order < b → has result b ≡ false }
{
    let mut round = *row;
    round.put(order as usize, row.contains(0));
    round
}

/// Whether the values at each i/q and at f less i/q add up to 1.
fn is_mirrored(shape: &Shape) -> bool
    ensures { IsTrue result → AreMirrored shape.now }
{
    for i in 0..shape.order() {
        let opposite = shape.place() + (shape.order() - i);
        let sum = shape.value_numerator(i) + shape.value_numerator(opposite);
        if i128::from(sum) != shape.common_denominator() {
            return false;
        }
    }
    true
}
