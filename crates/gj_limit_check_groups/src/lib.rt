//! The separate checker's rules on the rows of a proof that a function that jumps is extreme.
//!
//! A group of lines names a row of the linear system for the limits and values of a perturbation,
//! reduces it by the rows that the groups before it keep, and keeps what is left.
//! [`failure_in_limit_groups`] takes the rules `row`, `reduce`, `size` and `pivot` of all groups in
//! the order of their lines, and answers the first that fails; in a proof by residues it takes
//! `pivot` as that proof has it, and no `size`. The rule `rank`, that there are as many groups as
//! columns, is not among them.
//!
//! A row has thousands of columns and few entries that are not 0. So it is a list of entries, and a
//! step makes one such list of two, at the cost of their entries. What is said of it is said of the
//! whole rows.
//!
//! It calls nothing of the elimination that finds such rows. It shares with it only
//! `LimitRows::write_row` of `gj_limit_system`, which writes out what the name of a row means.
#![tactic(auto)]

mod begin;
mod change;
mod divide;
mod group;
mod groups;
mod keep;
mod limit;
mod merge;
mod pivot;
mod reach;
mod reduce;
mod row;
mod step;
mod table;

pub use groups::failure_in_limit_groups;
