//! Perturbations of a minimal continuous function, and the two functions that they give.
//!
//! [`zigzag`] makes the perturbation of a class of uncovered intervals, [`from_slopes`] that of
//! slopes of components. [`split`] adds a small multiple of a perturbation to the function's table
//! and takes it away: two different minimal tables that average to the function's, so that the
//! function is not extreme. The small steps of this, as [`greatest_size`] and [`moved_entry`], are
//! those of functions that may jump too.
#![tactic(auto)]

mod faults;
mod grid;
mod halves;
mod lanes;
mod laws;
mod slacks;
mod tables;

pub use faults::SplitFault;
pub use halves::{greatest_size, moved_entry, scale_of_halves, split};
pub use lanes::least_on_grid;
pub use laws::{slopes_can_be_split, zigzag_can_be_split};
pub use tables::{Perturbation, from_slopes, sum, zigzag};
