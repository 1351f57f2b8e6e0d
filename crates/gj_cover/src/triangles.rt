//! The squares with an additive triangle that covers an interval, as sets.
ghost use Rattle.std.specs.Prelude.{ℕ, ◌≡◌, ◌≢◌, ◌↔◌, ◌<◌, false, IsTrue};
ghost use Rattle.gj_loops.specs.IndexSets.{has};
ghost use Rattle.gj_shape.specs.declared.faces.FaceKind.{FaceKind};
ghost use Rattle.gj_cover.specs.Table.{CoversBy};

use crate::table::Table;
use gj_loops::IndexSet;

/// The indices b for which a triangle of the square (i, b) covers the interval i.
pub(crate) fn covering_row(table: &Table, i: u32) -> IndexSet
    requires { i < table.now.order }
    ensures within { (b : ℕ) → IsTrue (has result b) → b < table.now.order }
    ensures covering { (b : ℕ) → b < table.now.order →
        IsTrue (has result b) ↔ ((kind : FaceKind) × CoversBy table.now i kind i b) }
{
    let (here, east) = (table.row(i), table.row(i + 1));
    let north = table.turned_back(here);
    let corner = table.turned_back(east);
    east.and(&north).and(&here.or(&corner))
}

/// The indices a besides i for which a triangle of a square (a, b) covers the interval i: b is i,
/// or the sum or the one behind it is.
pub(crate) fn covering_across(table: &Table, i: u32) -> IndexSet
    requires { i < table.now.order }
    ensures within { (a : ℕ) → IsTrue (has result a) → a < table.now.order }
    ensures covering { (a : ℕ) → a < table.now.order → a ≢ i →
        IsTrue (has result a) ↔ ((kind : FaceKind) × (b : ℕ) × (b < table.now.order) ×
        CoversBy table.now i kind a b) }
    ensures other { has result i ≡ false }
{
    let (here, north) = (table.column(i), table.column(i + 1));
    let east = table.turned_back(here);
    let corner = table.turned_back(north);
    let second = east.and(north).and(&here.or(&corner));
    let (sum, next_sum) = (table.firsts(i), table.firsts(i + 1));
    let later = table.turned_back(next_sum);
    let shorter = table.turned_back(sum);
    let third = sum.and(&later).and(&next_sum.or(&shorter));
    let mut places = second.or(&third);
    places.remove(i as usize);
    places
}
