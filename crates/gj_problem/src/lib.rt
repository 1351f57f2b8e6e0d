//! Mixed-integer programs, and the rows that any multipliers make of them.
//!
//! A [`Problem`] has columns, whole or continuous, with bounds, and constraints with exact data.
//! Its constraints, each times a multiplier, add up to a row whose columns are the surpluses of
//! inequalities that hold: slacks, and columns turned to their bounds. [`theorems`] says that these
//! hold, that the row adds up at each feasible point, and that a cut over the pieces holds in the
//! columns of the problem. [`rounded`] rounds an inequality to a grid, so that it still holds.
#![tactic(auto)]

mod bounds;
mod combination;
mod faults;
mod pieces;
mod problem;
mod rounding;
mod row;
mod scales;
mod slacks;
mod sparse;
mod sums;
pub mod theorems;

pub use bounds::{lower_bound, rounded_down, upper_bound};
pub use combination::Combination;
pub use faults::Fault;
pub use pieces::Piece;
pub use problem::{Column, Constraint, Entry, Inequality, Problem, Sense};
pub use rounding::{RoundedCut, below_on_grid, rounded};
pub use row::{MadeRow, Row, row_of};
pub use scales::divided;
pub use sparse::{Run, Sparse};
pub use sums::Sum;
