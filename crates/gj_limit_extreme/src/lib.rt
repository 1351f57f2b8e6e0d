//! The decision whether a minimal function that may jump is extreme, with its proof.
//!
//! [`decide_limits`] covers the intervals, also along edges at which the slack tends to 0 from
//! inside a triangle. If an interval is left it gives the halves of a zigzag. If none is it inserts
//! the rows of the limits that are 0, and gives those that are kept, or the halves of numbers that
//! solve them all. `specs/Decision.antt` says which proof comes, and when numbers are too wide.
#![tactic(auto)]

mod covered;
mod decision;
mod faults;
mod groups;
mod inserted_rows;
mod kernel;
mod laws;
mod named_rows;
mod residues;
mod uncovered;

pub use decision::decide_limits;
pub use faults::LimitDecideFault;
pub use laws::decided_limit_claims;
