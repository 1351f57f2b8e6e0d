//! The separate checker's tests of minimality.
//!
//! `is_minimal` takes all tests of a function, and `is_minimal_table` those of the values of a
//! table. Both go over entries or lanes of the fewest bits that serve, and over the bends of a table
//! with few. `Piece` is a function between two neighbouring grid points. The crate calls nothing of
//! the search for a violation; with that it shares the numbers in lanes of `gj_loops`.
#![tactic(auto)]

mod bends;
mod entries;
mod minimality;
mod pieces;
mod squares;
mod tables;

pub use minimality::is_minimal;
pub use pieces::{Piece, adds_up};
pub use tables::is_minimal_table;
