//! The limits of the slack that are 0, of a function that may jump.
//!
//! Seen from inside a face, the slack has a limit at each of the face's corners. [`TightLimits`]
//! finds where it is 0, for all squares of one row at once: `row` gives the indices b for which it
//! is at a corner of the faces of one kind of the squares (a, b). [`Joins`] has from these, row by
//! row, the edges along which the slack is or tends to 0, which link two intervals, and the
//! triangles on which it is 0. A vertical edge (a, b) is one exactly if the horizontal edge (b, a)
//! is, so that it needs no set of its own.
#![tactic(auto)]

mod joins;
mod jumps;
mod lanes;
mod row_joins;
mod square_row;
mod terms;
mod tight_limits;

pub use joins::Joins;
pub use row_joins::RowJoins;
pub use terms::{Side, Terms, terms_of};
pub use tight_limits::TightLimits;
