//! The two-slope fill-in of a continuous function, and whether a function has two slopes.
//!
//! [`fill`] gives the points of the fill-in (Gomory and Johnson 1972): a subadditive function that
//! is the given one at the multiples of 1/q and goes everywhere by one of two slopes. It is 1 at f
//! if the function is, so its cuts hold; but the fill-in of a minimal function need not be minimal.
//! [`filled_value`] is its value at any fraction that can stand in a row. [`two_slopes`] is true of
//! a function that has exactly two slopes already: if it is minimal, it is extreme, by
//! `two_slopes_are_extreme` of `gj_theory`.
//!
//! What is filled in is defined in `specs/FillIn.antt`, its points in `specs/FillPoints.antt`. The
//! theorems about it say that it is subadditive on every grid, one function on all grids, the least
//! over all places of the function there plus a sublinear one, and affine between neighbouring
//! points.
#![tactic(auto)]

mod at_fractions;
mod faults;
mod fill_in;
mod laws;
mod pairs;
mod steps;

pub use at_fractions::filled_value;
pub use faults::FillFault;
pub use fill_in::{Filled, fill};
pub use laws::{
    fill_in_has_two_slopes, fill_in_is_affine_between_points, fill_in_is_least,
    fill_in_is_one_function, fill_in_is_subadditive,
};
pub use steps::two_slopes;
