//! The violation search: whether a function is minimal, and if not, the first violation.
//!
//! `find_violation` makes the tests of minimality in their order. Rows of pairs are tested at once,
//! in lanes of 16 or 32 bits; if a row does not pass, that row is searched for its first failing
//! limit, and the violation is shown at a point near its corner. It takes no memory, and answers
//! None exactly if the function is minimal.
#![tactic(auto)]

mod faces;
mod failures;
mod points;
mod search;
mod shown;
mod signs;
mod squares;
mod symmetry;
mod value_lanes;
mod vertices;
mod widths;

pub use search::find_violation;
