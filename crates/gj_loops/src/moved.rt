//! Sets with each index moved.
ghost use Rattle.std.specs.Prelude.{ℕ, ◌≡◌, ◌+◌, ◌/◌, ◌<◌, ◌≤◌, length};
ghost use Rattle.gj_loops.specs.IndexSets.{has, bit_of};

use crate::index_set::{IndexSet, LIMIT};
use std::simd::prelude::*;

impl IndexSet {
    ghost use Rattle.std.specs.Prelude.{ℕ, ◌≡◌, ◌+◌, ◌-◌, ◌<◌, ◌≤◌, ◌&&◌, ◌==◌, nat_lt, nat_le};
    ghost use Rattle.std.specs.Prelude.{◌||◌, if◌then◌else◌};
    ghost use Rattle.gj_loops.specs.IndexSets.{has};

    /// Each index less s. Those below s are left out.
    pub fn down(&self, s: usize) -> IndexSet
        requires { s ≤ LIMIT }
        ensures { (i : ℕ) → has result i ≡ has self.now (i + s) }
    {
        let mut wide = [0u64; 33];
        u64x16::from_array(self.words).copy_to_slice(&mut wide[..16]);
        window(&wide, s)
    }

    /// Each index less 1. The index 0 is left out.
    #[inline(always)]
    pub fn down_one(&self) -> IndexSet
        ensures { (i : ℕ) → has result i ≡ has self.now (i + 1) }
    {
        one_lower(&self.words)
    }

    /// Each index and s. Those that are not below the limit are left out.
    pub fn up(&self, s: usize) -> IndexSet
        requires { s ≤ LIMIT }
        ensures { (i : ℕ) → has result i ≡ (nat_lt i LIMIT &&
            (nat_le s i && has self.now (i - s))) }
    {
        let mut wide = [0u64; 33];
        u64x16::from_array(self.words).copy_to_slice(&mut wide[16..32]);
        window(&wide, LIMIT - s)
    }

    /// Each index that is in both sets and `up`, and each such index less `down`. Those that are
    /// not below the limit, and those below `down`, are left out.
    #[inline(always)]
    pub fn both_up_and_down(&self, other: &IndexSet, up: usize, down: usize) -> IndexSet
        requires up { up ≤ LIMIT }
        requires down { down ≤ LIMIT }
        ensures { (i : ℕ) → has result i ≡ ((nat_lt i LIMIT && (nat_le up i
            && (has self.now (i - up) && has other.now (i - up))))
            || (has self.now (i + down) && has other.now (i + down))) }
    {
        let mut wide = [0u64; 49];
        let both = u64x16::from_array(self.words) & u64x16::from_array(other.words);
        both.copy_to_slice(&mut wide[16..32]);
        window(&wide, LIMIT - up).or(&window(&wide, LIMIT + down))
    }

    /// Each index below n and s, modulo n: those that reach n begin at 0 again. No other indices
    /// are in it.
    pub fn turned(&self, s: usize, n: usize) -> IndexSet
        requires step { s ≤ n }
        requires period { n ≤ LIMIT }
        ensures { (j : ℕ) → has result j ≡ (nat_lt j n && has self.now
            (if nat_le s j then j - s else j + (n - s))) }
    {
        let within = IndexSet::below(n);
        self.both_up_and_down(&within, s, n - s).and(&within)
    }

    /// Each index less 1, where 0 becomes n - 1. Indices from n on go down by 1 too, but n itself
    /// is left out.
    pub fn turned_down(&self, n: usize) -> IndexSet
        requires some { 1 ≤ n }
        requires period { n ≤ LIMIT }
        ensures { (j : ℕ) → has result j ≡ has self.now (if j + 1 == n then 0 else j + 1) }
    {
        let mut set = self.down_one();
        set.put(n - 1, self.contains(0));
        set
    }

    /// Each index and 1, where n - 1 becomes 0 too. The one that would reach the limit is left out.
    pub fn turned_up(&self, n: usize) -> IndexSet
        requires some { 1 ≤ n }
        requires period { n ≤ LIMIT }
        ensures { (j : ℕ) → has result j ≡ (nat_lt j LIMIT && has self.now
            (if j == 0 then n - 1 else j - 1)) }
    {
        let mut set = self.up(1);
        set.put(0, self.contains(n - 1));
        set
    }
}

/// The 1,024 bits from bit 1 of the words on, and one that is not set.
#[inline(always)]
fn one_lower(words: &[u64]) -> IndexSet
    requires { length words.now ≡ 16 }
    ensures { (i : ℕ) → has result i ≡ bit_of words.now (i + 1) }
{
    let next = [
        words[1], words[2], words[3], words[4], words[5], words[6], words[7], words[8], words[9],
        words[10], words[11], words[12], words[13], words[14], words[15], 0,
    ];
    let low = u64x16::from_slice(words) >> u64x16::splat(1);
    let lower = low | u64x16::from_array(next) << u64x16::splat(63);
    IndexSet {
        words: lower.to_array(),
    }
}

/// The 1,024 bits from bit s of the words on.
fn window(wide: &[u64], s: usize) -> IndexSet
    requires { s / 64 + 17 ≤ length wide.now }
    ensures { (i : ℕ) → i < LIMIT → has result i ≡ bit_of wide.now (i + s) }
{
    let place = s / 64;
    let offset = (s % 64) as u64;
    let low = u64x16::from_slice(&wide[place..]);
    let high = u64x16::from_slice(&wide[place + 1..]);
    let words = low >> u64x16::splat(offset)
        | high << u64x16::splat(63 - offset) << u64x16::splat(1);
    IndexSet {
        words: words.to_array(),
    }
}
