//! The moves of the literature that keep minimality: the function of n x, the function of -x, and
//! the restriction to the multiples of 1/d.
//!
//! [`times`], [`mirror`] and [`restrict`] make them, each from the whole numbers of a [`Shape`]
//! over its common denominator. What they are is said by tables (`specs/Transforms`): a transform
//! has on every grid the values of the function at other places. `verdicts` says which of them are
//! minimal and which extreme, and `values` what their values are at fractions: theorems, each the
//! contract of a function with no code.
//!
//! [`Shape`]: gj_shape::Shape
#![tactic(auto)]

mod automorphism;
mod entries;
mod faults;
mod homomorphism;
mod restriction;
pub mod values;
pub mod verdicts;

pub use automorphism::mirror;
pub use faults::TransformFault;
pub use homomorphism::times;
pub use restriction::restrict;
