//! Cuts of rows with continuous columns.
//!
//! [`cut_mixed`] makes the cut of a row of which some columns are continuous: the coefficients of
//! its whole columns are a rule's values at their entries, and the weights of its continuous
//! columns are the slopes at 0 times their entries. It holds if the rule is minimal: at each
//! solution of the row in whole numbers and, for the continuous columns, in fractions, the nonbasic
//! ones not negative, the sum of all terms is at least 1. [`gmic_cut_mixed`] makes the
//! mixed-integer cut of a row, and [`mixed_term`] is the term of an entry in both. The cut of a row
//! whose columns are all whole is one without weights, [`MixedCut::of_whole`].
//!
//! [`Slopes`] keeps slopes beside a closure that answers the weights, as a `Rule` of `gj_rule`
//! keeps its evaluator. [`SlopesAtZero`] are the slopes of a function or of the mixed-integer cut,
//! and answer weights for such closures. The theorems are in [`theorems`].
#![tactic(auto)]

mod cut;
mod row_cuts;
mod slopes;
pub mod theorems;
mod weights;

pub use cut::MixedCut;
pub use row_cuts::{cut_mixed, gmic_cut_mixed, mixed_term};
pub use slopes::SlopesAtZero;
pub use weights::Slopes;
