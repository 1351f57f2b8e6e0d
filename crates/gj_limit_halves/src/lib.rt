//! Perturbations of a minimal function that may jump, and the two functions that they give.
//!
//! [`zigzag_sides`] makes the perturbation of a class of uncovered intervals, [`limits_of`] that of
//! numbers for the columns of the system of limits. [`split_limits`] adds a small multiple of a
//! perturbation to the function and takes it away: two different minimal functions that average to
//! it, so that it is not extreme. How small the multiple is follows from [`least_limit`].
#![tactic(auto)]

mod halves;
mod lanes;
mod least;
mod moved;
mod perturbations;

pub use gj_perturb::SplitFault;
pub use halves::split_limits;
pub use least::least_limit;
pub use perturbations::{limits_of, zigzag_sides};
