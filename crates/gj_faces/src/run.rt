//! Runs of pairs.

/// The pairs (a, b) for b from `from` to `to`, both included.
#[derive(Clone, Copy, Debug, PartialEq, Eq)]
pub struct Run {
    pub a: u32,
    pub from: u32,
    pub to: u32,
}
