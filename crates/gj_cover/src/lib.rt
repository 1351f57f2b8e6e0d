//! Covered intervals of a continuous function.
//!
//! Interval i is from i/q to (i + 1)/q. An additive edge links the two intervals on which it
//! projects, and an additive triangle joins and covers the three on which it projects. `cover`
//! finds the covered intervals, their components, the lines that show why they are covered, and the
//! class of the least uncovered interval; `cover_of_pairs` does so from tight pairs that were made
//! before, and `cover_of_runs` from the runs of tight pairs alone.
#![tactic(auto)]

mod class;
mod covered;
mod covering;
mod fill;
mod first_faces;
mod joined;
mod pairs;
mod progress;
mod reached;
mod squares;
mod table;
mod transposed;
mod triangles;

pub use class::listed;
pub use covered::Cover;
pub use covering::{cover, cover_of_pairs, cover_of_runs};
