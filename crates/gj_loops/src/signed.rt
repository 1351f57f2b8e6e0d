//! Lanes of either sign, of which 64 sums are compared at once.
ghost use Rattle.std.specs.Prelude.{ℕ, ◌≡◌, ◌↔◌, ◌+◌, ◌*◌, ◌+ℤ◌, ◌<◌, ◌≤◌, ◌==◌, length, IsTrue};
ghost use Rattle.std.specs.Prelude.{slice_index_or};
ghost use Rattle.std.specs.Int.{bit_at};
ghost use Rattle.gj_loops.specs.Lanes.{IsInRange};

use crate::lane::Lane;
use std::simd::prelude::*;

/// A number of either sign in a lane of some width.
pub trait SignedLane: Lane {
    /// The word of the 64 places from 64 times `place` on: bit b says whether the value at b of
    /// these and the first number add up to the sum there.
    fn sums_word(values: &[Self], first: Self, sums: &[Self], place: usize) -> u64
        requires place { place < 16 }
        requires values { 64 * place + 64 ≤ length values.now }
        requires sums { 64 * place + 64 ≤ length sums.now }
        ensures { (b : ℕ) (e : Self) → b < 64 → IsInRange Self.least Self.bound
            (Self.number first) →
            IsInRange Self.least Self.bound (Self.number (slice_index_or values.now
            (64 * place + b) e)) →
            IsInRange Self.least Self.bound (Self.number (slice_index_or sums.now
            (64 * place + b) e)) →
            IsTrue (bit_at result b == 1) ↔
            (Self.number (slice_index_or values.now (64 * place + b) e) +ℤ Self.number first
            ≡ Self.number (slice_index_or sums.now (64 * place + b) e)) };
}

impl SignedLane for i16 {
    fn sums_word(values: &[i16], first: i16, sums: &[i16], place: usize) -> u64 {
        let there = i16x64::from_slice(&values[64 * place..]) + i16x64::splat(first);
        there
            .simd_eq(i16x64::from_slice(&sums[64 * place..]))
            .to_bitmask()
    }
}

impl SignedLane for i32 {
    fn sums_word(values: &[i32], first: i32, sums: &[i32], place: usize) -> u64 {
        let there = i32x64::from_slice(&values[64 * place..]) + i32x64::splat(first);
        there
            .simd_eq(i32x64::from_slice(&sums[64 * place..]))
            .to_bitmask()
    }
}

impl SignedLane for i64 {
    fn sums_word(values: &[i64], first: i64, sums: &[i64], place: usize) -> u64 {
        let there = i64x64::from_slice(&values[64 * place..]) + i64x64::splat(first);
        there
            .simd_eq(i64x64::from_slice(&sums[64 * place..]))
            .to_bitmask()
    }
}
