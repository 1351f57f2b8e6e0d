//! The rows of a table, given one after another.
ghost use Rattle.std.specs.Prelude.{ℕ, pos, ◌≡◌, ◌≢◌, ◌⊎◌, ◌<◌, ◌≤◌, ◌^◌, length, All, IfOk};
ghost use Rattle.gj_frac.specs.Fraction.{Fits};
ghost use Rattle.gj_residue.specs.Source.{Gives};
ghost use Rattle.gj_shape.specs.FunctionData.{at};
ghost use Rattle.gj_group.specs.GroupRows.{entry_row, group_rows, sum_row};

use crate::tight::next_pair;
use gj_residue::RowSource;
use gj_shape::Shape;
use std::alloc::{AllocError, Global};
use std::marker::Model;

/// The row that comes next.
#[derive(Clone, Copy)]
pub(crate) enum Upcoming {
    /// That of the entry at 0.
    Start,
    /// That of the entry at f.
    Place,
    /// That of the first tight pair (a, b) from this one on, a ascending and inside it b.
    Pair(usize, usize),
}

/// The rows of the values of a function at the multiples of 1/q: those of the entries at 0 and at
/// f, and those of the tight pairs. Contracts see all of them, and those that are still to come.
#[derive(Drop)]
pub struct GroupRows {
    values: Vec<i64>,
    place: usize,
    upcoming: Upcoming,
}

impl Model for GroupRows {
    ghost use Rattle.gj_residue.specs.Source.{RowsToCome};

    ghost Value = { RowsToCome };

    ghost use Rattle.gj_group.specs.RowsToCome.{to_come, AreGroupRows};

    ghost view = { to_come };

    ghost invariant = { AreGroupRows };
}

impl GroupRows {
    /// The rows of the function's values, of which all are to come.
    pub fn new(alloc: Global, shape: &Shape) -> Result<GroupRows, AllocError>
        ensures all { IfOk result (λ rows. rows.all ≡ group_rows
            (at shape.now.value) shape.now.order shape.now.place) }
    {
        Ok(GroupRows {
            values: Vec::from_slice(alloc, shape.value_numerators())?,
            place: shape.place() as usize,
            upcoming: Upcoming::Start,
        })
    }
}

impl RowSource for GroupRows {
    ghost all = { λ s. s.all };

    ghost left = { λ s. s.left };

    fn next(&mut self, alloc: Global) -> Result<Option<Vec<i128>>, AllocError> {
        let order = self.values.len();
        match self.upcoming {
            Upcoming::Start => {
                let row = row_of_entry(alloc, order, 0)?;
                self.upcoming = Upcoming::Place;
                Ok(Some(row))
            }
            Upcoming::Place => {
                let row = row_of_entry(alloc, order, self.place)?;
                self.upcoming = Upcoming::Pair(1, 1);
                Ok(Some(row))
            }
            Upcoming::Pair(a, from) => {
                let Some((a, b)) = next_pair(self.values.as_slice(), a, from) else {
                    return Ok(None);
                };
                let row = row_of_pair(alloc, order, a, b)?;
                self.upcoming = Upcoming::Pair(a, b + 1);
                Ok(Some(row))
            }
        }
    }

    fn restart(&mut self) {
        self.upcoming = Upcoming::Start;
    }
}

/// The row that says that the entry at this place is 0.
fn row_of_entry(alloc: Global, order: usize, place: usize) -> Result<Vec<i128>, AllocError>
    requires { place < order }
    ensures { IfOk result (λ row. row.items ≡ entry_row order place) }
{
    let mut row = vec![in alloc; 0; order]?;
    row[place] = 1;
    Ok(row)
}

/// The row that says that the entries at a and b add up to that at their sum.
fn row_of_pair(alloc: Global, order: usize, a: usize, b: usize) -> Result<Vec<i128>, AllocError>
    requires some { 1 ≤ a }
    requires ordered { a ≤ b }
    requires within { b < order }
    requires short { order < 2 ^ 32 }
    ensures { IfOk result (λ row. row.items ≡ sum_row order a b) }
{
    let mut row = vec![in alloc; 0; order]?;
    row[a] = 1;
    row[b] = times_in_pair(a, b);
    row[(a + b) % order] = -1;
    Ok(row)
}

/// How many times b stands in the pair (a, b).
fn times_in_pair(a: usize, b: usize) -> i128
    ensures { ((a ≡ b) × (result ≡ pos 2)) ⊎ ((a ≢ b) × (result ≡ pos 1)) }
{
    if a == b { 2 } else { 1 }
}
