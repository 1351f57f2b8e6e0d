//! Functions on the numbers of an ordered field: theorems for each field in which each number lies
//! between a whole number and the next, and so for the real numbers.
#![tactic(auto)]

pub mod functions;
pub mod reals;
