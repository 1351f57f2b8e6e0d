//! Cuts of mixed-integer programs, in their own columns.
//!
//! [`gmic_safe_cut`] makes the mixed-integer cut of the row that any multipliers make of a problem,
//! and [`function_safe_cut`] the cut by a function: an inequality in the problem's columns. Each
//! feasible point meets it, whole in whole columns and any fraction in continuous ones. What makes
//! the cut of the row is a [`RowCutter`], and [`cut_of_problem`] takes any.
#![tactic(auto)]

mod cut;
mod cutters;
mod function_cuts;
mod problem_cuts;
mod terms;
pub mod theorems;
mod values;

pub use cut::SafeCut;
pub use cutters::{ByFunction, ByGmic, RowCutter};
pub use function_cuts::function_safe_cut;
pub use problem_cuts::{cut_of_problem, gmic_safe_cut};
