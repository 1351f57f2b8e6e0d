//! The ends of lines.

ghost use Rattle.std.specs.Prelude.{◌≡◌, ◌↔◌, ◌+◌, ◌≤◌, ℕ, length, drop, take, slice_index};
ghost use Rattle.std.specs.Int.{bit_at};
ghost use Rattle.std.specs.List.{position};
ghost use Rattle.memchr.specs.Find.{IsFirst, Passes};
ghost use Rattle.gj_lex.specs.Lines.{is_line_feed};

use memchr::memchr_iter;
use std::simd::prelude::*;

/// Where the first LF stands.
#[inline(always)]
pub fn first_line_feed(text: &[u8]) -> Option<usize>
    ensures { result ≡ position is_line_feed text.now }
{
    // Most lines end in the first 128 bytes, which are looked at in four parts without a call.
    if 128 <= text.len() {
        if let Some(place) = near_line_feed(text) {
            return Some(place);
        }
    }
    far_line_feed(text)
}

/// Where the first LF stands in the first 128 bytes.
#[inline(always)]
fn near_line_feed(text: &[u8]) -> Option<usize>
    requires { 128 ≤ length text.now }
    ensures { IsFirst (Passes is_line_feed text.now) 0 128 result }
{
    if let Some(place) = line_feed_among(text, 0) {
        return Some(place);
    }
    if let Some(place) = line_feed_among(text, 32) {
        return Some(place);
    }
    if let Some(place) = line_feed_among(text, 64) {
        return Some(place);
    }
    line_feed_among(text, 96)
}

/// Where the first LF stands in the 32 bytes from a place on.
#[inline(always)]
fn line_feed_among(text: &[u8], from: usize) -> Option<usize>
    requires { from + 32 ≤ length text.now }
    ensures { IsFirst (Passes is_line_feed text.now) from (from + 32) result }
{
    let bits = line_feed_bits(text, from);
    if bits == 0 {
        return None;
    }
    Some(from + bits.trailing_zeros() as usize)
}

/// Bit k says whether a LF stands at the k-th of the 32 bytes from a place on.
#[inline(always)]
fn line_feed_bits(text: &[u8], from: usize) -> u64
    requires { from + 32 ≤ length text.now }
    ensures { (k : ℕ) → (bit_at result k ≡ 1) ↔
        (slice_index (take 32 (drop from text.now)) k ≡ 10) }
{
    u8x32::from_slice(&text[from..])
        .simd_eq(u8x32::splat(b'\n'))
        .to_bitmask()
}

/// Where the first LF stands, however far away.
#[inline(never)]
fn far_line_feed(text: &[u8]) -> Option<usize>
    ensures { result ≡ position is_line_feed text.now }
{
    memchr_iter(b'\n', text).next()
}
