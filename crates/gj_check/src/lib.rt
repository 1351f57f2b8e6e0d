//! The separate checker: every rule on a proof, by code that calls nothing of the searches and the
//! elimination that make proofs.
//!
//! `check` takes the demands of a claim in their order, and answers the first that fails by its
//! rule and the number of its line. `rules_give_meaning`: if every rule holds, what the claim says
//! is true. With them it shares functions and fractions as data, numbers in lanes, the reading of
//! texts, definitions and theorems. The tests of minimality are those of `gj_check_minimal`, and the
//! rules on the rows of a proof that a function is extreme those of `gj_check_groups`.
#![tactic(auto)]

mod checker;
mod cover_lines;
mod cut_rows;
mod cut_values;
mod cuts;
mod denominators;
mod extremality;
mod faults;
mod halves;
mod laws;
mod names;
mod points;
mod row_denominators;
mod rules;

pub use checker::check;
pub use faults::CheckFault;
pub use halves::{Refinement, refinement_of};
pub use laws::{one_first_failure, rules_give_meaning};
pub use rules::CheckRule;
