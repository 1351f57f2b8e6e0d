//! Cuts of rows of fractions at all real amounts of their continuous columns, and the mixed-integer
//! cut for every number between 0 and 1.
#![tactic(auto)]

pub mod gmic;
pub mod rows;
