//! How the libraries are called, in contracts of a caller's own: a function from fractions, whether
//! it is extreme, and a proof text that the checker has accepted. `docs/calling.md` goes through
//! it.
#![tactic(auto)]

mod faults;
mod verdict;

pub use faults::UseFault;
pub use verdict::{checked_proof, is_extreme};
