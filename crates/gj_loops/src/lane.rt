//! The width of a lane.
ghost use Rattle.std.specs.Prelude.{ℕ, ℤ, pos, ◌≡◌, ◌^◌, ◌-ℤ◌, ◌≤ℤ◌, ◌<ℤ◌};
ghost use Rattle.gj_loops.specs.Lanes.{IsNarrow};
ghost use Rattle.std.proofs.Common.{rules};

/// A number in a lane of some width.
pub trait Lane: Copy {
    // The number.
    ghost number: { Self → ℤ };

    // Each number from the least on and below the bound is a lane, and so is the sum of two of
    // these.
    ghost least: { ℤ };

    ghost bound: { ℕ };

    /// The lane that is this number.
    fn of(value: i64) -> Self
        requires low { least ≤ℤ value }
        requires high { value <ℤ pos bound }
        ensures { number result ≡ value };

    ghost is_narrow: { IsNarrow least bound };
}

impl Lane for u16 {
    ghost number = { λ n. pos n };

    ghost least = { pos 0 };

    ghost bound = { 2 ^ 15 };

    ghost is_narrow = { Prim.search rules };

    fn of(value: i64) -> u16 {
        value as u16
    }
}

impl Lane for u32 {
    ghost number = { λ n. pos n };

    ghost least = { pos 0 };

    ghost bound = { 2 ^ 31 };

    ghost is_narrow = { Prim.search rules };

    fn of(value: i64) -> u32 {
        value as u32
    }
}

impl Lane for i16 {
    ghost number = { λ n. n };

    ghost least = { pos 1 -ℤ pos (2 ^ 14) };

    ghost bound = { 2 ^ 14 };

    ghost is_narrow = { Prim.search rules };

    fn of(value: i64) -> i16 {
        value as i16
    }
}

impl Lane for i32 {
    ghost number = { λ n. n };

    ghost least = { pos 1 -ℤ pos (2 ^ 30) };

    ghost bound = { 2 ^ 30 };

    ghost is_narrow = { Prim.search rules };

    fn of(value: i64) -> i32 {
        value as i32
    }
}

impl Lane for i64 {
    ghost number = { λ n. n };

    ghost least = { pos 1 -ℤ pos (2 ^ 62) };

    ghost bound = { 2 ^ 62 };

    ghost is_narrow = { Prim.search rules };

    fn of(value: i64) -> i64 {
        value
    }
}
