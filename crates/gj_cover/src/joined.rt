//! The intervals that are joined to one.
ghost use Rattle.std.specs.Prelude.{ℕ, ◌≡◌, ◌⊎◌, ◌↔◌, ◌<◌, IsTrue};
ghost use Rattle.gj_loops.specs.IndexSets.{has};
ghost use Rattle.gj_cover.specs.Links.{Links};
ghost use Rattle.gj_cover.specs.Sides.{AreOwnSides};
ghost use Rattle.gj_cover.specs.Table.{IsTightInTable, IsJoinedSet};

use crate::table::Table;
use gj_loops::IndexSet;

/// The intervals that are joined to the interval, besides itself. A triangle has an edge for each
/// two of its projections.
pub(crate) fn joined(table: &Table, i: u32) -> IndexSet
    requires { i < table.now.order }
    ensures within { (j : ℕ) → IsTrue (has result j) → j < table.now.order }
    ensures joined { IsJoinedSet table.now i result }
{
    match table.own_place() {
        Some(place) => joined_by_rows(table, place, i),
        None => joined_by_all(table, i),
    }
}

/// The same if the rows are all sets of the table.
fn joined_by_rows(table: &Table, place: u32, i: u32) -> IndexSet
    requires start { i < table.now.order }
    requires sides { AreOwnSides table.now.order table.now.rows.items place }
    ensures within { (j : ℕ) → IsTrue (has result j) → j < table.now.order }
    ensures joined { IsJoinedSet table.now i result }
{
    let from = rows_linked_from(table, place, i);
    table.bounded(&from.or(&rows_linked_to(table, place, i)))
}

/// The same from all sets of the table.
fn joined_by_all(table: &Table, i: u32) -> IndexSet
    requires { i < table.now.order }
    ensures within { (j : ℕ) → IsTrue (has result j) → j < table.now.order }
    ensures joined { IsJoinedSet table.now i result }
{
    table.bounded(&linked_from(table, i).or(&linked_to(table, i)))
}

/// The intervals j to which an additive edge links the interval i as one that stands behind it:
/// that of the square (i, j), or that from the square (i, j - i), which stands for that from the
/// square (j - i, i).
#[inline(always)]
fn rows_linked_from(table: &Table, place: u32, i: u32) -> IndexSet
    requires start { i < table.now.order }
    requires sides { AreOwnSides table.now.order table.now.rows.items place }
    ensures { (j : ℕ) → j < table.now.order → IsTrue (has result j) ↔
        Links table.now.order (IsTightInTable table.now) i j }
{
    let order = table.order() as usize;
    let (row, next_row) = (table.whole_row(place, i), table.whole_row(place, i + 1));
    let horizontal = row.both_up_and_down(next_row, i as usize, order - i as usize);
    let diagonal = next_row.and(&row.down_one());
    diagonal.or(&horizontal)
}

/// The intervals j that an additive edge links to the interval i as one that stands behind them,
/// perhaps without those to which a diagonal edge links it both ways.
#[inline(always)]
fn rows_linked_to(table: &Table, place: u32, i: u32) -> IndexSet
    requires start { i < table.now.order }
    requires sides { AreOwnSides table.now.order table.now.rows.items place }
    ensures links { (j : ℕ) → j < table.now.order → IsTrue (has result j) →
        Links table.now.order (IsTightInTable table.now) j i }
    ensures all { (j : ℕ) → j < table.now.order → Links table.now.order
        (IsTightInTable table.now) j i →
        IsTrue (has result j) ⊎ Links table.now.order (IsTightInTable table.now) i j }
{
    let (row, next_row) = (
        table.whole_row_of_sum(place, i),
        table.whole_row_of_sum(place, i + 1),
    );
    row.and(&next_row.down_one())
}

/// The intervals j to which an additive edge links the interval i as one that stands behind it:
/// that of the square (i, j), that from the square (i, j - i) or that from the square (j - i, i).
fn linked_from(table: &Table, i: u32) -> IndexSet
    requires { i < table.now.order }
    ensures { (j : ℕ) → j < table.now.order → IsTrue (has result j) ↔
        Links table.now.order (IsTightInTable table.now) i j }
{
    let order = table.order() as usize;
    let (row, next_row) = (table.row(i), table.row(i + 1));
    let diagonal = next_row.and(&table.turned_back(row));
    let horizontal = row.and(next_row).turned(i as usize, order);
    let links = diagonal.or(&horizontal);
    let (column, next_column) = (table.column(i), table.column(i + 1));
    let vertical = column.and(next_column).turned(i as usize, order);
    links.or(&vertical)
}

/// The intervals j that an additive edge links to the interval i as one that stands behind them.
fn linked_to(table: &Table, i: u32) -> IndexSet
    requires { i < table.now.order }
    ensures { (j : ℕ) → j < table.now.order → IsTrue (has result j) ↔
        Links table.now.order (IsTightInTable table.now) j i }
{
    let horizontal = table.firsts(i).and(&table.turned_back(table.firsts(i + 1)));
    let (column, next_column) = (table.column(i), table.column(i + 1));
    let diagonal = next_column.and(&table.turned_back(column));
    let vertical = table
        .seconds(i)
        .and(&table.turned_back(table.seconds(i + 1)));
    diagonal.or(&horizontal).or(&vertical)
}
