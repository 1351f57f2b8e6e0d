//! Numbers read in any of their spellings.

ghost use Rattle.std.specs.Prelude.{◌≡◌, ◌↔◌, ◌^◌, ◌<◌, ◌||◌, ◌==◌, ◌+◌, ◌*◌, ◌≤◌, ℕ, ℤ, pos};
ghost use Rattle.std.specs.Prelude.{length, ◌++◌, slice_index, IfSome, IsSome, IsSomeAnd};
ghost use Rattle.std.specs.List.{position, position_or_len};
ghost use Rattle.std.specs.Str.Parse.{IsNumeral, digits_value, digits_value_after};
ghost use Rattle.std.specs.Str.Parse.{without_leading_sign};
ghost use Rattle.gj_frac.specs.Fraction.{IsRatio};
ghost use Rattle.gj_lex.specs.NumberText.{IsNumberText, IsWritten};

use crate::digits::{SHORT, leading_value, read_run, short_value, value_after};
use gj_frac::Frac;

/// A number has at most so many digits behind its point: 10^38 is the greatest power of 10 below
/// 2^127.
const MOST_PLACES: usize = 38;

/// The fraction that the word spells in lenient form, as `-1/2`, `+03` or `2.50`.
///
/// A sign may stand first, and then digits, or digits, `/` and digits, or digits, `.` and digits;
/// leading zeros are allowed. None if the word has another form, if a number as it is written
/// is above 2^127 - 1, or if the denominator is 0. It takes no memory.
pub fn read_number(word: &[u8]) -> Option<Frac>
    ensures found { IfSome result (λ x.
        (n : ℤ) × (d : ℕ) × IsNumberText word.now n d × IsRatio x n (pos d)) }
    ensures only { (n : ℤ) (d : ℕ) → IsNumberText word.now n d →
        IsSomeAnd result (λ x. IsRatio x n (pos d)) }
{
    let size = read_written(without_sign(word))?;
    if begins_with(word, b'-') {
        return Some(-size);
    }
    Some(size)
}

/// The word without a sign at its front.
fn without_sign(word: &[u8]) -> &[u8]
    ensures { result.now ≡ without_leading_sign word.now }
{
    if begins_with(word, b'-') || begins_with(word, b'+') {
        return &word[1..];
    }
    word
}

/// Whether the word begins with the byte.
pub(crate) fn begins_with(word: &[u8], byte: u8) -> bool
    requires { 0 < byte }
    ensures { result ≡ (slice_index word.now 0 == byte) }
{
    !word.is_empty() && word[0] == byte
}

/// The fraction that the word writes without a sign.
fn read_written(word: &[u8]) -> Option<Frac>
    ensures found { IfSome result (λ x. (n : ℕ) × (d : ℕ) ×
        IsWritten word.now n d × (n < 2 ^ 127) × (d < 2 ^ 127) × (0 < d) ×
        IsRatio x (pos n) (pos d)) }
    ensures only { (n d : ℕ) → IsWritten word.now n d → n < 2 ^ 127 → d < 2 ^ 127 → 0 < d →
        IsSomeAnd result (λ x. IsRatio x (pos n) (pos d)) }
{
    if word.len() <= SHORT {
        return read_short(word);
    }
    read_long(word)
}

/// The same, if the word has at most 19 bytes, so that each number fits 64 bits.
fn read_short(word: &[u8]) -> Option<Frac>
    requires { length word.now ≤ 19 }
    ensures found { IfSome result (λ x. (n : ℕ) × (d : ℕ) ×
        IsWritten word.now n d × (n < 2 ^ 127) × (d < 2 ^ 127) × (0 < d) ×
        IsRatio x (pos n) (pos d)) }
    ensures only { (n d : ℕ) → IsWritten word.now n d → n < 2 ^ 127 → d < 2 ^ 127 → 0 < d →
        IsSomeAnd result (λ x. IsRatio x (pos n) (pos d)) }
{
    let (top, place) = leading_value(word);
    if place == 0 {
        return None;
    }
    let (_, back) = word.split_at(place);
    match back.split_first() {
        None => Some(short_whole(top)),
        Some((b'/', digits)) => short_ratio(top, digits),
        Some((b'.', digits)) => short_point(top, digits),
        Some((_, _)) => None,
    }
}

/// The number as a fraction.
fn short_whole(top: u64) -> Frac
    ensures { IsRatio result (pos top) (pos 1) }
{
    Frac::decimal(i128::from(top), 0)
}

/// The number over that of the back, which is not 0.
fn short_ratio(top: u64, back: &[u8]) -> Option<Frac>
    ensures some { let bottom = digits_value 10 back.now in
        IsSome result ↔ (IsNumeral 10 back.now × (bottom < 2 ^ 127) × (0 < bottom)) }
    ensures value { IfSome result (λ x. IsRatio x (pos top) (pos (digits_value 10 back.now))) }
{
    Frac::new(i128::from(top), read_run(back)? as i128)
}

/// The number with the digits of the back behind its own, over 10 to the number of those.
fn short_point(front: u64, back: &[u8]) -> Option<Frac>
    requires room { (front + 1) * 10 ^ length back.now ≤ 10 ^ 19 }
    requires few { length back.now ≤ 38 }
    ensures some { let top = digits_value_after 10 front back.now in
        IsSome result ↔
        (IsNumeral 10 back.now × (top < 2 ^ 127) × (10 ^ length back.now < 2 ^ 127)) }
    ensures value { IfSome result (λ x.
        IsRatio x (pos (digits_value_after 10 front back.now)) (pos (10 ^ length back.now))) }
{
    if back.is_empty() {
        return None;
    }
    let top = short_value(front, back)?;
    Some(Frac::decimal(top as i128, back.len()))
}

/// The same for a word of any length.
fn read_long(word: &[u8]) -> Option<Frac>
    ensures found { IfSome result (λ x. (n : ℕ) × (d : ℕ) ×
        IsWritten word.now n d × (n < 2 ^ 127) × (d < 2 ^ 127) × (0 < d) ×
        IsRatio x (pos n) (pos d)) }
    ensures only { (n d : ℕ) → IsWritten word.now n d → n < 2 ^ 127 → d < 2 ^ 127 → 0 < d →
        IsSomeAnd result (λ x. IsRatio x (pos n) (pos d)) }
{
    let (front, back) = word.split_at(mark_place(word));
    match back.split_first() {
        None => read_whole(front),
        Some((b'/', digits)) => read_ratio(front, digits),
        Some((_, digits)) => read_point(front, digits),
    }
}

/// How many bytes stand before the first `/` or `.`, or in the whole word if it has none.
fn mark_place(word: &[u8]) -> usize
    ensures { result ≡ position_or_len (λ b. (b == 47) || (b == 46)) word.now }
{
    first_mark(word).unwrap_or(word.len())
}

/// Where the first `/` or `.` stands.
fn first_mark(word: &[u8]) -> Option<usize>
    ensures { result ≡ position (λ b. (b == 47) || (b == 46)) word.now }
{
    word.iter().position(|byte| *byte == b'/' || *byte == b'.')
}

/// The whole number that the digits write.
fn read_whole(word: &[u8]) -> Option<Frac>
    ensures some { IsSome result ↔ (IsNumeral 10 word.now × (digits_value 10 word.now < 2 ^ 127)) }
    ensures value { IfSome result (λ x. IsRatio x (pos (digits_value 10 word.now)) (pos 1)) }
{
    Some(Frac::decimal(read_run(word)? as i128, 0))
}

/// The number that the digits of the front write, over that of the back, which is not 0.
fn read_ratio(front: &[u8], back: &[u8]) -> Option<Frac>
    ensures some { let top = digits_value 10 front.now in let bottom = digits_value 10 back.now in
        IsSome result ↔
        ((IsNumeral 10 front.now × (top < 2 ^ 127)) × (IsNumeral 10 back.now ×
        (bottom < 2 ^ 127) × (0 < bottom))) }
    ensures value { IfSome result (λ x.
        IsRatio x (pos (digits_value 10 front.now)) (pos (digits_value 10 back.now))) }
{
    Frac::new(read_run(front)? as i128, read_run(back)? as i128)
}

/// The number that all the digits write, over 10 to the number of those in the back.
fn read_point(front: &[u8], back: &[u8]) -> Option<Frac>
    ensures some { let top = digits_value 10 (front.now ++ back.now) in
        IsSome result ↔
        ((IsNumeral 10 front.now × IsNumeral 10 back.now) × ((top < 2 ^ 127) ×
        (10 ^ length back.now < 2 ^ 127))) }
    ensures value { IfSome result (λ x.
        IsRatio x (pos (digits_value 10 (front.now ++ back.now))) (pos (10 ^ length back.now))) }
{
    if back.is_empty() || back.len() > MOST_PLACES {
        return None;
    }
    let top = value_after(read_run(front)?, back)?;
    Some(Frac::decimal(top as i128, back.len()))
}
