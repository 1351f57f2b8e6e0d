//! What minimal and extreme mean in the words of the model: theorems about valid tables and valid
//! functions, each the contract of a function with no code.
//!
//! `tables` says that each valid table lies above a minimal one, and `functions` that minimal and
//! extreme functions are minimal and extreme among the valid functions from fractions to fractions.
//! `cuts` says how large the coefficients of cuts are.
//!
//! They stand beside the commands: no crate rests on them. The theorems on tables that others rest
//! on are those of `gj_theory`.
#![tactic(auto)]

pub mod cuts;
pub mod functions;
pub mod tables;
