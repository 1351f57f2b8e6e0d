//! The limits of functions, of halves and of the numbers in rows; `specs/Limits.antt` has the same.

/// The greatest order of a function.
pub const GREATEST_ORDER: u32 = 1_000;

/// The greatest value or limit of a function, in absolute value: 2^20.
pub(crate) const GREATEST_VALUE: u128 = 1 << 20;

/// The greatest number in a row, in absolute value: 2^31.
pub const GREATEST_NUMBER: u128 = 1 << 31;

/// The greatest common denominator of the values and limits of a function, and of the numbers in a
/// row: 2^31 - 1.
pub const GREATEST_DENOMINATOR: u32 = (1 << 31) - 1;

/// The greatest order of halves: those of a function are on its grid or on that of four times its
/// order.
pub const GREATEST_HALVES_ORDER: u32 = 4 * GREATEST_ORDER;

/// The greatest scale of halves: 2^124.
pub const GREATEST_HALVES_SCALE: i128 = 1 << 124;
