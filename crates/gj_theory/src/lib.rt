//! Theorems about functions and their tables, each the contract of a function with no code.
//!
//! `grid` says when the tables on all grids are minimal: if all tests of minimality pass, or, for a
//! continuous function, if the table on its own grid is; and what is affine near ends and corners.
//! `first_violation` says which test gives the first violation, and `shown` that a first violation
//! is shown at its points and that a shown violation denies that the function, or the table on a
//! grid that holds the points, is minimal. `constant_steps` says that a table that is additive
//! where a function's table is has constant steps, and `extreme` that cover lines and rows show a
//! function to be extreme. `perturbations` says what a perturbation is and that it gives two
//! different minimal tables, and `decisive_order` that the table on the grid of order 4 q decides
//! whether a function is extreme; `corner_slacks` says how the slacks at the corners give the least
//! positive slack on a finer grid. `elimination` says that elimination keeps the solutions of rows
//! and needs each row only once, `residues` what elimination over residues says of whole numbers,
//! `cuts` that the cuts of rows by minimal functions hold, `two_slopes` that minimal functions with
//! two slopes are extreme, and `valid` what minimal and extreme mean: minimal and extreme among the
//! valid tables.
//!
//! The decision and the separate checker both rest on these theorems and share no code. A call does
//! nothing: it brings the theorem to the caller's proof.
#![tactic(auto)]

pub mod constant_steps;
pub mod corner_slacks;
pub mod cuts;
pub mod decisive_order;
pub mod elimination;
pub mod extreme;
pub mod first_violation;
pub mod grid;
pub mod perturbations;
pub mod residues;
pub mod shown;
pub mod two_slopes;
pub mod valid;
