//! Which rule on halves fails first.

/// The first rule on halves that fails.
#[derive(Clone, Copy, Debug, PartialEq, Eq)]
pub enum HalvesFailure {
    /// `scale`: the order or the scale of the halves is no multiple of the function's.
    Scale,
    /// `range`: a number of both halves at the point with this index is negative or above the
    /// scale.
    Range(u32),
    /// `average`: the numbers of both halves at the point with this index do not average to the
    /// function's.
    Average(u32),
    /// `first`: the first half is not minimal.
    First,
    /// `second`: the second half is not minimal.
    Second,
    /// `same`: the halves are the same.
    Same,
}
