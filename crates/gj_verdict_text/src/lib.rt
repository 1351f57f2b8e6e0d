//! Verdicts on functions: the claim of minimality, and the texts of verdicts that are no proofs.
//!
//! [`minimality_proof`] is the proof that a function is minimal, or that it is not, with its first
//! violation. [`faces_text`] prints the maximal additive faces in walk order, a line why each
//! covered interval is covered, and the uncovered intervals (`specs/FacesText`). [`group_text`]
//! prints the verdict on the table of a function's own order, with what shows it
//! (`specs/GroupText`).
#![tactic(auto)]

mod face_lines;
mod faces;
mod group;
mod minimality;
mod piece;

pub use faces::{faces_text, push_uncovered_lines};
pub use group::group_text;
pub use minimality::minimality_proof;
