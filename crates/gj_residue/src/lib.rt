//! Elimination over residues, for rows whose plain elimination passes 127 bits.
//!
//! A [`ResidueBasis`] takes rows one after another, reads them modulo 2^61 - 1, and keeps those
//! that have an entry with an inverse behind its steps. If it keeps as many rows as there are
//! columns, only 0 solves the rows, whether or not the modulus is prime. [`settle`] tries plain
//! elimination first, and residues if a number passes; [`log_by_residues`] goes by residues alone.
#![tactic(auto)]

mod basis;
mod keep;
mod kept;
mod listed;
mod reduce;
mod residue;
mod settling;
mod source;
mod step;

pub use basis::ResidueBasis;
pub use listed::ListedRows;
pub use settling::{SettleFault, Settled, log_by_residues, settle};
pub use source::RowSource;
