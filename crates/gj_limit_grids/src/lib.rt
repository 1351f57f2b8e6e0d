//! The limits of the slack of a function that may jump, on finer grids.
//!
//! On each face the slack is affine, so that each limit on a finer grid is a sum of the limits at
//! the corners of one face of the function's own complex, with weights. [`slacks`] has what follows:
//! a bound of the positive limits, and that the zigzag of uncovered intervals is a perturbation.
#![tactic(auto)]

pub mod slacks;
