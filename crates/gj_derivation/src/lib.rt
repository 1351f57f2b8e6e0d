//! Derivations: chains of inequalities, each of which follows from constraints and earlier ones.
//!
//! A [`Step`] says which constraints and earlier claims it adds up, by which rule, and which
//! inequality it claims. [`theorems`] says that each claim of a derivation holds at each feasible
//! point. A step shows one number, the greatest right side that its terms may have, and
//! [`check_step`] compares the claim with it. [`check_steps`] checks a derivation. A [`Draft`] may
//! leave its claim open, and [`derived_steps`] finds it.
#![tactic(auto)]

mod base;
mod check;
mod derive;
mod draft;
mod moves;
mod step;
mod steps;
mod terms;
pub mod theorems;

pub use check::check_step;
pub use derive::{derived_step, derived_steps};
pub use draft::{Claim, Derived, Draft, Reached, Shown};
pub use step::{Combination, Multiplier, Step, StepRule, Verdict};
pub use steps::{Checked, Failure, check_steps};
