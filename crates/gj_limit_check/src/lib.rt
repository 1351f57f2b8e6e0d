//! The separate checker of proof texts about functions that may jump: every rule on a proof, by
//! code that calls nothing of the searches and the elimination that make proofs.
//!
//! `check_limit_proof` takes the demands of a claim in their order, and answers the first that
//! fails by its rule and the number of its line. `limit_rules_give_meaning`: if every rule holds,
//! what the claim says is true. The tests of minimality are those of `gj_check_minimal`, the rules
//! on the rows of a proof that a function is extreme those of `gj_limit_check_groups`, and the
//! rules on halves those of `gj_limit_check_halves`.
#![tactic(auto)]

mod checker;
mod cover_lines;
mod extremality;
mod faces;
mod halves;
mod laws;

pub use checker::check_limit_proof;
pub use laws::{limit_rules_give_meaning, one_first_limit_failure};
