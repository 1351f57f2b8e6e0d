//! The function of the demonstration, and theorems about it.
//!
//! [`demo_function`] gives a [`Shape`]: for k = 2 n + 1 the continuous function of order 2 k with f
//! = 1/2 that is half the sum of the mixed-integer cut of Gomory and of the function that is 0 at
//! even and 1 at odd multiples of 1/(2 k).
//!
//! [`summary`] prints what the decision on it gives: how many triangles are additive, how many
//! intervals are covered and in how many components, and the order and scale of the halves by which
//! it is not extreme.
//!
//! The theorems are the contracts of functions with no code: it is that half sum
//! ([`demo_is_average`]), it is minimal ([`demo_is_minimal`]) and not extreme
//! ([`demo_is_not_extreme`]), its intervals have at most four components
//! ([`demo_has_few_components`]), and its scale is at most 998 ([`demo_scale`]).
//!
//! [`Shape`]: gj_shape::Shape
#![tactic(auto)]

mod function;
mod laws;
mod summary_text;

pub use function::demo_function;
pub use laws::{
    demo_has_few_components, demo_is_average, demo_is_minimal, demo_is_not_extreme, demo_scale,
};
pub use summary_text::summary;
