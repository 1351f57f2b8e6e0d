//! The numbers of the rows of a proof that a function is extreme.

use gj_theory::residues;

/// The modulus of proofs by residues, 2^61 - 1.
pub const MODULUS: i128 = residues::MODULUS as i128;

/// The numbers of the rows of a proof. The first line of its text tells them.
#[derive(Clone, Copy, Debug, PartialEq, Eq)]
pub enum Numbers {
    /// Whole numbers: `gj-proof 1`.
    Whole,
    /// Residues modulo `MODULUS`: `gj-proof 2`.
    Residues,
}
