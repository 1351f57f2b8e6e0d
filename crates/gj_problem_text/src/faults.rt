//! Why a text gives no problem.

use gj_lex::Reason;
use std::alloc::AllocError;
use thiserror::Error;

/// Why a text gives no problem.
#[derive(Debug, Drop, Error)]
pub enum ProblemFault {
    /// It is no problem text: its first fault is in the line with this number, counted from 1.
    #[error("line {0} is refused")]
    Refused(u64, Reason),
    /// There was no memory.
    #[error("out of memory")]
    Memory(AllocError),
}
