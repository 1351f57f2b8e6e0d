//! Functions that may jump, as averages of two others on finer grids.
//!
//! [`halves`] says that a function moved both ways along a perturbation gives two minimal
//! functions. [`extreme`] says that a function is no average of two different minimal functions
//! exactly if all its intervals are covered and only 0 solves its system of limits. [`verdicts`]
//! says that its refinement and its mirror are extreme exactly if it is.
#![tactic(auto)]

pub mod extreme;
pub mod halves;
pub mod verdicts;
