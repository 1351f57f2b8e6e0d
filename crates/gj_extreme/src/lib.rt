//! The decision whether a minimal function is extreme, with its proof.
//!
//! `specs/Decision.antt` says which proof the decision gives of a function, and when its numbers
//! are too wide.
#![tactic(auto)]

mod covered;
mod decision;
mod faults;
mod groups;
mod inserted_rows;
mod laws;
mod residues;
mod seen;
mod slopes;
mod uncovered;

pub use decision::{decide, decide_by_cover};
pub use faults::DecideFault;
pub use groups::{GroupMaker, groups_by_number, groups_of, numbers_of};
pub use laws::{
    decided_claims, decided_texts_are_short, few_components_are_not_wide,
    two_slopes_are_decided_extreme,
};
