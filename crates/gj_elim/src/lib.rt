//! Plain elimination over whole numbers of 128 bits.
//!
//! A [`Basis`] takes rows one after another. It reduces each row by the rows that it keeps, and
//! keeps what is left, so that its rows have exactly the solutions of all rows that were inserted.
//! `kernel` gives a solution of them that is not 0.
//!
//! As long as the numbers of a row stay small, its steps are made in 64 bits and without divisions:
//! what they leave is a positive multiple of the row of the definition, and marks nothing that
//! passes.
//!
//! What elimination of rows that are kept in another form shares with it is public too.
#![tactic(auto)]

mod basis;
mod extent;
mod faults;
mod keep;
mod kept;
mod lazy;
mod log;
mod reduce;
mod solve;

pub use basis::Basis;
pub use extent::size;
pub use faults::ElimFault;
pub use keep::{Origin, no_places};
pub use lazy::{Factors, GREATEST_BOUND, ROOM, Reached, divisor_with, factors_of, store};
pub use log::{Inserted, LogRow};
pub use reduce::{free_column, place_of};
pub use solve::{multiply, unit_row};
