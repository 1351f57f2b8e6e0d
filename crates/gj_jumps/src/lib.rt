//! Extreme functions that may jump, at all numbers of an ordered field.
//!
//! A function as data is extreme among the valid functions exactly if it is minimal, all its
//! intervals are covered, and only 0 solves the equations of the limits at which its slack is 0. An
//! interval is covered also along edges at which the slack tends to 0 from inside a triangle.
//! [`extreme`] has this theorem, its directions, and that all of it is decided. [`parts`] says what
//! holds of the two valid functions of an average, and [`fields`] that nothing depends on the field.
#![tactic(auto)]

pub mod extreme;
pub mod fields;
pub mod parts;
