//! The rows of the linear system for the slopes of a perturbation, one column for each component.
#![tactic(auto)]

mod codes;
mod counted;
mod rises;
mod system_row;

pub use counted::SlopeRows;
pub use system_row::row_of;
