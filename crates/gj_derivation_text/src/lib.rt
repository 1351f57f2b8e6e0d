//! The text of a derivation, read and printed.
//!
//! [`read_derivation`] reads a text whose steps all have claims, and [`read_drafts`] one whose steps
//! may lack them. [`push_front`] and [`push_steps`] print the steps that drafts show, and what is
//! printed is read again as those steps. [`push_accepted`] and [`push_rejected`] say what a check answers.
#![tactic(auto)]

mod drafts;
mod indices;
mod input;
mod laws;
mod lines;
mod names;
mod open;
mod print;
mod problem;
mod read;
mod steps;
mod verdict;
mod words;

pub use drafts::Drafts;
pub use input::{DerivationInput, DraftInput};
pub use laws::derived_text_is_read;
pub use names::copied_name;
pub use print::{push_front, push_steps};
pub use read::{line_of_step, read_derivation, read_drafts};
pub use verdict::{push_accepted, push_rejected};
