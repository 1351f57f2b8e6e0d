//! Whole numbers in digits, without a leading zero.

ghost use Rattle.std.specs.Prelude.{◌≡◌, ◌↔◌, ◌+◌, ◌*◌, ◌^◌, ◌<◌, ◌≤◌, ◌-◌, ℕ, ◌++◌, length, take};
ghost use Rattle.std.specs.Prelude.{drop, slice_index, decimal, IfSome, IfNone, IsTrue};
ghost use Rattle.std.specs.Option.{SomeIff};
ghost use Rattle.std.specs.Char.{digit_value};
ghost use Rattle.std.specs.Str.Parse.{AllDigits, IsNumeral, digits_value, digits_value_after};

use std::simd::prelude::*;

/// The greatest number that is read: 2^127 - 1.
const LIMIT: u128 = 0x7fff_ffff_ffff_ffff_ffff_ffff_ffff_ffff;

/// So many digits make a number that fits 64 bits.
pub(crate) const SHORT: usize = 19;

/// No more digits at the front of a text are read: a number of so many fits 64 bits with a sign.
pub(crate) const MOST_DIGITS: usize = 18;

/// What a digit at each of eight places is worth, and zeros behind them. The weights of `count`
/// digits, and zeros, begin `8 - count` places on.
const WEIGHTS: [u32; 16] = [
    10_000_000, 1_000_000, 100_000, 10_000, 1_000, 100, 10, 1, 0, 0, 0, 0, 0, 0, 0, 0,
];

/// The powers of 10, by their exponents.
const TEN_POWERS: [u64; 8] = [1, 10, 100, 1_000, 10_000, 100_000, 1_000_000, 10_000_000];

/// The number that the word spells in digits, without a leading zero.
///
/// None if the word is no such number, or one above 2^127 - 1.
pub(crate) fn read_digits(word: &[u8]) -> Option<u128>
    ensures found { IfSome result (λ n. (n < 2 ^ 127) × (word.now ≡ decimal n)) }
    ensures only { (n : ℕ) → n < 2 ^ 127 → word.now ≡ decimal n → result ≡ Some n }
{
    if word.is_empty() || has_leading_zero(word) {
        return None;
    }
    value_of(word)
}

/// Whether the word begins with a zero and goes on.
pub(crate) fn has_leading_zero(word: &[u8]) -> bool
    ensures { IsTrue result ↔ ((1 < length word.now) × (slice_index word.now 0 ≡ 48)) }
{
    word.len() > 1 && word[0] == b'0'
}

/// The number that the word spells in digits, if there is a digit and the number is at most
/// `LIMIT`. Leading zeros are allowed.
pub(crate) fn read_run(word: &[u8]) -> Option<u128>
    ensures { let value = digits_value 10 word.now in
        SomeIff result (IsNumeral 10 word.now × (value < 2 ^ 127)) value }
{
    if word.is_empty() {
        return None;
    }
    value_of(word)
}

/// The number that the bytes spell, if each is a digit and the number is at most `LIMIT`.
fn value_of(word: &[u8]) -> Option<u128>
    ensures { let value = digits_value 10 word.now in
        SomeIff result (AllDigits 10 word.now × (value < 2 ^ 127)) value }
{
    if word.len() <= SHORT {
        return short_value(0, word);
    }
    long_value(0, word)
}

/// The number that the bytes spell behind the digits of `front`, if each is a digit and the
/// number is at most `LIMIT`.
pub(crate) fn value_after(front: u128, word: &[u8]) -> Option<u128>
    requires { front < 2 ^ 127 }
    ensures { let value = digits_value_after 10 front word.now in
        SomeIff result (AllDigits 10 word.now × (value < 2 ^ 127)) value }
{
    if front < 1_000_000_000 && word.len() <= SHORT - 9 {
        return short_value(front as u64, word);
    }
    long_value(front, word)
}

/// The same, whatever the size of the number and the number of digits.
fn long_value(front: u128, word: &[u8]) -> Option<u128>
    requires { front < 2 ^ 127 }
    ensures { let value = digits_value_after 10 front word.now in
        SomeIff result (AllDigits 10 word.now × (value < 2 ^ 127)) value }
{
    let mut value = front;
    for byte in word {
        value = with_digit(value, *byte)?;
    }
    Some(value)
}

/// The same, if the number has at most 19 digits, so that it fits 64 bits.
pub(crate) fn short_value(front: u64, word: &[u8]) -> Option<u128>
    requires { (front + 1) * 10 ^ length word.now ≤ 10 ^ 19 }
    ensures { let value = digits_value_after 10 front word.now in
        SomeIff result (AllDigits 10 word.now × (value < 2 ^ 127)) value }
{
    let mut value = front;
    for byte in word {
        value = value * 10 + digit_of(*byte)?;
    }
    Some(u128::from(value))
}

/// The number that the digits at the front of the bytes spell, and how many these are, if there are
/// at most 19 bytes.
pub(crate) fn leading_value(word: &[u8]) -> (u64, usize)
    requires { length word.now ≤ 19 }
    ensures digits { AllDigits 10 (take result.1 word.now) }
    ensures value { result.0 ≡ digits_value 10 (take result.1 word.now) }
    ensures within { result.1 ≤ length word.now }
    ensures all { result.1 < length word.now → 10 ≤ digit_value (slice_index word.now result.1) }
    ensures room { (result.0 + 1) * 10 ^ (length word.now - result.1) ≤ 10 ^ 19 }
{
    leading_value_after(0, word)
}

/// The same behind the digits of `front`, if there are at most 19 digits and bytes in all.
#[inline(always)]
pub(crate) fn leading_value_after(front: u64, word: &[u8]) -> (u64, usize)
    requires { (front + 1) * 10 ^ length word.now ≤ 10 ^ 19 }
    ensures digits { AllDigits 10 (take result.1 word.now) }
    ensures value { result.0 ≡ digits_value_after 10 front (take result.1 word.now) }
    ensures within { result.1 ≤ length word.now }
    ensures all { result.1 < length word.now → 10 ≤ digit_value (slice_index word.now result.1) }
    ensures room { (result.0 + 1) * 10 ^ (length word.now - result.1) ≤ 10 ^ 19 }
{
    let mut value = front;
    for (place, byte) in word.iter().enumerate() {
        let Some(digit) = digit_of(*byte) else {
            return (value, place);
        };
        value = value * 10 + digit;
    }
    (value, word.len())
}

/// The same, by a look at eight bytes at once. Most numbers have fewer digits than that behind their
/// point.
#[inline(always)]
pub(crate) fn leading_value_by_lanes(front: u64, word: &[u8]) -> (u64, usize)
    requires { (front + 1) * 10 ^ length word.now ≤ 10 ^ 19 }
    ensures digits { AllDigits 10 (take result.1 word.now) }
    ensures value { result.0 ≡ digits_value_after 10 front (take result.1 word.now) }
    ensures within { result.1 ≤ length word.now }
    ensures all { result.1 < length word.now → 10 ≤ digit_value (slice_index word.now result.1) }
    ensures room { (result.0 + 1) * 10 ^ (length word.now - result.1) ≤ 10 ^ 19 }
{
    if word.len() < 8 {
        return leading_value_after(front, word);
    }
    match end_of_digits(word) {
        Some(count) => (
            front * TEN_POWERS[count] + value_of_front(word, count),
            count,
        ),
        None => leading_value_of_many(front, word),
    }
}

/// The same digit by digit, for words that begin with eight digits or more.
#[inline(never)]
fn leading_value_of_many(front: u64, word: &[u8]) -> (u64, usize)
    requires { (front + 1) * 10 ^ length word.now ≤ 10 ^ 19 }
    ensures digits { AllDigits 10 (take result.1 word.now) }
    ensures value { result.0 ≡ digits_value_after 10 front (take result.1 word.now) }
    ensures within { result.1 ≤ length word.now }
    ensures all { result.1 < length word.now → 10 ≤ digit_value (slice_index word.now result.1) }
    ensures room { (result.0 + 1) * 10 ^ (length word.now - result.1) ≤ 10 ^ 19 }
{
    leading_value_after(front, word)
}

/// Where the first byte that is no digit stands among the first eight of the word. A byte before `0`
/// is far above 9 once `0` is taken away.
#[inline(always)]
fn end_of_digits(word: &[u8]) -> Option<usize>
    requires { 8 ≤ length word.now }
    ensures found { IfSome result (λ count. (count < 8) × AllDigits 10 (take count word.now) ×
        (10 ≤ digit_value (slice_index word.now count))) }
    ensures none { IfNone result (AllDigits 10 (take 8 word.now)) }
{
    let digits = u8x8::from_slice(word) - u8x8::splat(b'0');
    let others = digits.simd_gt(u8x8::splat(9)).to_bitmask();
    if others == 0 {
        return None;
    }
    Some(others.trailing_zeros() as usize)
}

/// The number that the first `count` bytes of the word spell. Lanes behind these count for nothing.
#[inline(always)]
fn value_of_front(word: &[u8], count: usize) -> u64
    requires length { 8 ≤ length word.now }
    requires count { count ≤ 8 }
    requires digits { AllDigits 10 (take count word.now) }
    ensures { result ≡ digits_value 10 (take count word.now) }
{
    let digits = u8x8::from_slice(word) - u8x8::splat(b'0');
    let weights = u32x8::from_slice(&WEIGHTS[8 - count..]);
    u64::from((digits.cast::<u32>() * weights).reduce_sum())
}

/// What the byte is worth, if it is a digit. A byte before `0` is far above 9 once `0` is taken away.
fn digit_of(byte: u8) -> Option<u64>
    ensures { SomeIff result (digit_value byte < 10) (digit_value byte) }
{
    let digit = u64::from(byte).wrapping_sub(u64::from(b'0'));
    if digit > 9 {
        return None;
    }
    Some(digit)
}

/// The number with one more digit at its end, if the byte is a digit and the number is at most
/// `LIMIT`.
fn with_digit(front: u128, byte: u8) -> Option<u128>
    requires { front < 2 ^ 127 }
    ensures { let value = front * 10 + digit_value byte in
        SomeIff result ((digit_value byte < 10) × (value < 2 ^ 127)) value }
{
    if !byte.is_ascii_digit() || front > LIMIT / 10 {
        return None;
    }
    let value = front * 10 + u128::from(byte - b'0');
    if value > LIMIT {
        return None;
    }
    Some(value)
}

/// Writes the digits of `n` into the text so that they end before `end`, and says where they begin.
pub(crate) fn write_digits(text: &mut [u8], end: usize, n: u128) -> usize
    requires within { end ≤ length text.old }
    requires room { 39 ≤ end }
    ensures written { drop result text.new ≡ decimal n ++ drop end text.old }
    ensures begins { result < end }
    ensures room { end ≤ result + 39 }
{
    if n < 1 << 64 {
        return itoa::write_digits(n as u64, text, end);
    }
    write_long_digits(text, end, n)
}

/// The same, whatever the size of the number.
#[inline(never)]
fn write_long_digits(text: &mut [u8], end: usize, n: u128) -> usize
    requires within { end ≤ length text.old }
    requires room { 39 ≤ end }
    ensures written { drop result text.new ≡ decimal n ++ drop end text.old }
    ensures begins { result < end }
    ensures room { end ≤ result + 39 }
{
    let mut start = end;
    let mut rest = n;
    loop {
        start -= 1;
        text[start] = b'0' + (rest % 10) as u8;
        rest /= 10;
        if rest == 0 {
            return start;
        }
    }
}
