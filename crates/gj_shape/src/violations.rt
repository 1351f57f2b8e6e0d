//! Violations of minimality.
use gj_frac::Frac;

/// Why a function is not minimal, shown at a point or at a pair of points.
#[derive(Clone, Copy, Debug, PartialEq, Eq)]
pub enum Violation {
    /// The value at 0 is not 0.
    Zero,
    /// The value at the point is negative.
    Negative(Frac),
    /// The values at the point x and at f - x do not add up to 1.
    Asymmetric(Frac),
    /// The values at the two points add up to less than the value at their sum.
    Superadditive(Frac, Frac),
}
