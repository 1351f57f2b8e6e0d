//! Cuts of problems.
use gj_problem::Inequality;

/// The cut of a problem, or why there is none.
#[derive(Drop)]
pub enum SafeCut {
    /// The cut, in the columns of the problem.
    Cut(Inequality),
    /// The right side of the row is whole.
    Integral,
    /// It is not whole, and its fractional part is not the rule's f.
    OtherFraction,
    /// The first column that has no bound and cannot be left out.
    Free(u32),
    /// A number does not fit 128 bits.
    Wide,
}
