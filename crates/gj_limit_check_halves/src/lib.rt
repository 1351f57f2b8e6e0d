//! The separate checker's rules on the halves of a function that may jump.
//!
//! A proof that a function is not extreme gives two functions on a finer grid. `failure_in_halves`
//! takes the rules `scale`, `range`, `average`, `first`, `second` and `same` in their order, and
//! answers the first that fails. It takes no memory. A half passes all tests of minimality of a
//! function of any order up to 4,000, over numbers of 125 bits. The crate calls nothing of the
//! search that finds the halves.
#![tactic(auto)]

mod averages;
mod failure;
mod half;
mod halves;
mod pairs;
mod rows;

pub use failure::HalvesFailure;
pub use halves::failure_in_halves;
