//! Named families of cut-generating functions, each by its closed form.
//!
//! [`gmic`] is the mixed-integer cut of Gomory, [`half`] the function that is 1/2 almost
//! everywhere, and [`two_slope`] a continuous function with one slope for its rises and one for its
//! falls. Each gives a [`Shape`], and refuses what has no such function by the first of its tests
//! that fails ([`FamilyFault`]).
//!
//! [`gmic_is_gmic_table`] is a theorem: on every grid the mixed-integer cut is the table of the
//! definitions of `gj_shape`. [`one_function_of_a_family`] is another: a closed form has one
//! function.
//!
//! [`Shape`]: gj_shape::Shape
#![tactic(auto)]

mod faults;
mod halves;
mod laws;
mod mixed_integer;
mod numerators;
mod slopes;

pub use faults::FamilyFault;
pub use halves::half;
pub use laws::{gmic_is_gmic_table, one_function_of_a_family};
pub use mixed_integer::gmic;
pub use slopes::two_slope;
