//! Elimination of sparse rows over whole numbers of 128 bits.
//!
//! A [`SparseBasis`] is what `gj_elim::Basis` is, for rows of thousands of columns of which few
//! have an entry. A row is given and kept by its entries that are not 0. What is kept, which
//! numbers are too wide and which numbers solve the rows is said of whole rows, by the same
//! definitions.
//!
//! The row that is reduced is a whole row of numbers, and beside it stands a set of columns outside
//! of which it is 0. So a step costs what the entries of the kept row cost, and not the columns. As
//! long as the numbers stay small, steps are made in 64 bits and without divisions: what they leave
//! is a positive multiple of the row of the definition. From the first step on that may have large
//! numbers, the row is reduced with all its columns.
#![tactic(auto)]

mod basis;
mod columns;
mod entry;
mod exact;
mod keep;
mod kept;
mod lazy;
mod left;
mod reduce;
mod seen;
mod solve;
mod tighten;

pub use basis::SparseBasis;
pub use entry::{Entry, entries_add_up};
