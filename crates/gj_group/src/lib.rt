//! Finite master problems: Gomory's cyclic group problem for a table, by the table alone.
//!
//! [`decide_group`] says whether the table of a continuous function on the grid of its own order is
//! minimal, and if so whether it is extreme. [`GroupRows`] gives the rows of the table, one column
//! for each entry; they stand in `specs/GroupRows`. `tables` has the theorem: the perturbations of
//! a table are the solutions of its rows, so that a minimal table is extreme exactly if only zeros
//! solve them.
#![tactic(auto)]

mod decision;
mod faults;
mod table_rows;
pub mod tables;
mod tight;

pub use decision::{GREATEST_GROUP_ORDER, GroupAnswer, decide_group};
pub use faults::GroupFault;
pub use table_rows::GroupRows;
