//! Cuts of mixed-integer programs with all data on a grid, so that no number grows.
//!
//! Any data, as those that come from doubles, are taken to multiples of 1/n: [`relaxed_problem`]
//! relaxes each constraint by the bounds of its columns, and [`relaxed_row`] takes the row that the
//! multipliers make to the grid as well. [`gmic_relaxed_cut`] and [`function_relaxed_cut`] make the
//! cut of that. [`relaxations`] says that each feasible point stays feasible, and [`theorems`] that
//! it meets the cut.
#![tactic(auto)]

mod columns;
mod cuts;
mod cutters;
mod forms;
mod loose_pieces;
mod problems;
pub mod relaxations;
mod rows;
mod sides;
pub mod theorems;

pub use cuts::{function_relaxed_cut, gmic_relaxed_cut};
pub use forms::RelaxedParts;
pub use problems::{RelaxedProblem, relaxed_problem};
pub use rows::{RightMove, relaxed_row};
