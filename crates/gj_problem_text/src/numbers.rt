//! Numbers of a problem, read.
//!
//! Besides the spellings of all lenient texts a number may have an exponent, as `-2.5e-3`, or be
//! hexadecimal as C prints it, as `0x1.8p-3`.
ghost use Rattle.std.specs.Prelude.{◌≡◌, ◌≤◌, ◌<◌, ◌+◌, ◌*◌, ◌^◌, ◌++◌, ◌∷◌, ℕ, List, pos};
ghost use Rattle.std.specs.Prelude.{IfSome, IfNone, All, length, ◌==◌, ◌||◌, true, false};
ghost use Rattle.std.specs.List.{position};
ghost use Rattle.std.specs.Option.{SomeIff};
ghost use Rattle.std.specs.Char.{digit_value};
ghost use Rattle.std.specs.Str.Parse.{AllDigits, IsNumeral, digits_value, digits_value_after};
ghost use Rattle.std.specs.Str.Parse.{starts_with_minus, without_leading_sign};
ghost use Rattle.gj_frac.specs.declared.Frac.{Frac};
ghost use Rattle.gj_frac.specs.Fraction.{IsRatio};
ghost use Rattle.gj_problem_text.specs.NumberWords.{IsNumberWord, IsScaledWord, IsScaled};
ghost use Rattle.gj_problem_text.specs.NumberWords.{IsMantissa, IsPrefix, marks, radix, base, per_place};
ghost use Rattle.gj_problem_text.specs.NumberWords.{raised, lowered};

use gj_forms::behind_text;
use gj_frac::Frac;
use gj_lex::{Spelling, behind_byte, fraction_of, is_count};

/// The greatest part of a fraction: 2^127 - 1.
const LIMIT: u128 = 0x7fff_ffff_ffff_ffff_ffff_ffff_ffff_ffff;

/// How the digits and the exponent of a number are written.
#[derive(Clone, Copy)]
pub enum Notation {
    /// Decimal digits, and a power of 10 behind `e`.
    Decimal,
    /// `0x`, hexadecimal digits, and a power of 2 behind `p`.
    Hexadecimal,
}

impl Notation {
    /// The base of the digits.
    fn radix(self) -> u32
        ensures { result ≡ radix self }
    {
        match self {
            Notation::Decimal => 10,
            Notation::Hexadecimal => 16,
        }
    }

    /// The base of the power.
    fn base(self) -> u32
        ensures { result ≡ base self }
    {
        match self {
            Notation::Decimal => 10,
            Notation::Hexadecimal => 2,
        }
    }

    /// With which power of the base a digit is worth less at the next place.
    fn per_place(self) -> u128
        ensures { result ≡ per_place self }
    {
        match self {
            Notation::Decimal => 1,
            Notation::Hexadecimal => 4,
        }
    }

    /// The byte before the exponent, small and capital.
    fn marks(self) -> (u8, u8)
        ensures { result ≡ marks self }
    {
        match self {
            Notation::Decimal => (b'e', b'E'),
            Notation::Hexadecimal => (b'p', b'P'),
        }
    }
}

/// The number that the word spells: a fraction in lenient spelling, as `-1/2`, `+03` or `2.50`; a
/// decimal with an exponent, as `1e-6`; or a hexadecimal one, as `-0x1.8p+3`.
///
/// A number with an exponent is read exactly if its digits make a number of at most 2^127 - 1
/// without the point, and if its value in lowest terms has such parts. It takes no memory.
// What most words spell is tried first, and costs no more than it does alone.
#[inline(always)]
pub fn number_of(word: &[u8]) -> Option<Frac>
    ensures found { IfSome result (IsNumberWord word.now) }
    ensures none { IfNone result ((x : Frac) → IsNumberWord word.now x → ⊥) }
{
    let mut number = fraction_of(Spelling::Lenient, word);
    if number.is_none() {
        number = scaled_number(word);
    }
    number
}

/// The number that the word spells with an exponent.
#[inline(never)]
fn scaled_number(word: &[u8]) -> Option<Frac>
    ensures found { IfSome result (λ x. (s : Notation) × IsScaledWord s word.now x) }
    ensures none { IfNone result ((s : Notation) (x : Frac) → IsScaledWord s word.now x → ⊥) }
{
    let (is_negative, size) = split_sign(word);
    let size = size_of(size)?;
    if is_negative {
        return Some(-size);
    }
    Some(size)
}

/// Whether the word begins with `-`, and the word without a sign at its front.
fn split_sign(word: &[u8]) -> (bool, &[u8])
    ensures sign { result.0 ≡ starts_with_minus word.now }
    ensures rest { result.1.now ≡ without_leading_sign word.now }
{
    if let Some(rest) = behind_byte(word, b'-') {
        return (true, rest);
    }
    if let Some(rest) = behind_byte(word, b'+') {
        return (false, rest);
    }
    (false, word)
}

/// The number that the word spells with an exponent and without a sign.
fn size_of(word: &[u8]) -> Option<Frac>
    ensures found { IfSome result (λ x. (s : Notation) × (front rest : List ℕ) ×
        (word.now ≡ front ++ rest) × IsPrefix s front × (n d : ℕ) × IsScaled s rest n d ×
        IsRatio x (pos n) (pos d)) }
    ensures none { IfNone result ((s : Notation) (front rest : List ℕ) →
        word.now ≡ front ++ rest → IsPrefix s front → (n d : ℕ) → IsScaled s rest n d →
        (x : Frac) → IsRatio x (pos n) (pos d) → ⊥) }
{
    match behind_prefix(word) {
        Some(rest) => scaled_of(Notation::Hexadecimal, rest),
        None => scaled_of(Notation::Decimal, word),
    }
}

/// What follows `0x` or `0X`, if the word begins so.
fn behind_prefix(word: &[u8]) -> Option<&[u8]>
    ensures found { IfSome result (λ rest. (front : List ℕ) × (word.now ≡ front ++ rest.now) ×
        IsPrefix Notation.Hexadecimal front) }
    ensures none { IfNone result ((front rest : List ℕ) → word.now ≡ front ++ rest →
        IsPrefix Notation.Hexadecimal front → ⊥) }
{
    if let Some(rest) = behind_text(word, b"0x") {
        return Some(rest);
    }
    behind_text(word, b"0X")
}

/// The number that digits and an exponent make.
fn scaled_of(notation: Notation, word: &[u8]) -> Option<Frac>
    ensures found { IfSome result (λ x. (n d : ℕ) × IsScaled notation word.now n d ×
        IsRatio x (pos n) (pos d)) }
    ensures none { IfNone result ((n d : ℕ) → IsScaled notation word.now n d → (x : Frac) →
        IsRatio x (pos n) (pos d) → ⊥) }
{
    let (mark, capital) = notation.marks();
    let (mantissa, exponent) = parts_at(word, mark, capital)?;
    let (top, places) = mantissa_of(notation, mantissa)?;
    with_exponent(notation, top, places, exponent)
}

/// What stands before and behind the first byte of the word that is one of these two.
fn parts_at(word: &[u8], mark: u8, capital: u8) -> Option<(&[u8], &[u8])>
    ensures found { IfSome result (λ r. (b : ℕ) × (((b == mark) || (b == capital)) ≡ true) ×
        (word.now ≡ r.0.now ++ b ∷ r.1.now) ×
        All (λ c. ((c == mark) || (c == capital)) ≡ false) r.0.now) }
    ensures none { IfNone result (All (λ c. ((c == mark) || (c == capital)) ≡ false) word.now) }
{
    let place = place_of(word, mark, capital)?;
    let (front, behind) = word.split_at(place);
    Some((front, &behind[1..]))
}

/// Where the first byte stands that is one of these two.
fn place_of(word: &[u8], mark: u8, capital: u8) -> Option<usize>
    ensures { result ≡ position (λ b. (b == mark) || (b == capital)) word.now }
{
    word.iter()
        .position(|byte| *byte == mark || *byte == capital)
}

/// The number that all digits of the mantissa make, and how many of them stand behind the point.
fn mantissa_of(notation: Notation, word: &[u8]) -> Option<(u128, usize)>
    ensures found { IfSome result (λ r. IsMantissa (radix notation) word.now r.0 r.1 ×
        (r.0 < 2 ^ 127)) }
    ensures none { IfNone result ((top places : ℕ) →
        IsMantissa (radix notation) word.now top places → top < 2 ^ 127 → ⊥) }
{
    let radix = notation.radix();
    let Some((front, back)) = parts_at(word, b'.', b'.') else {
        return Some((digits_of(radix, word)?, 0));
    };
    if back.is_empty() {
        return None;
    }
    let top = digits_behind(radix, digits_of(radix, front)?, back)?;
    Some((top, back.len()))
}

/// The number that the digits of the word make, if there is one and it is at most `LIMIT`.
fn digits_of(radix: u32, word: &[u8]) -> Option<u128>
    requires radix_some { 2 ≤ radix }
    requires radix_few { radix ≤ 16 }
    ensures { let value = digits_value radix word.now in
        SomeIff result (IsNumeral radix word.now × (value < 2 ^ 127)) value }
{
    if word.is_empty() {
        return None;
    }
    digits_behind(radix, 0, word)
}

/// The number that the digits of the word make behind those of `front`, if it is at most `LIMIT`.
fn digits_behind(radix: u32, front: u128, word: &[u8]) -> Option<u128>
    requires radix_some { 2 ≤ radix }
    requires radix_few { radix ≤ 16 }
    requires front_fits { front < 2 ^ 127 }
    ensures { let value = digits_value_after radix front word.now in
        SomeIff result (AllDigits radix word.now × (value < 2 ^ 127)) value }
{
    let mut value = front;
    for byte in word {
        value = with_digit(radix, value, *byte)?;
    }
    Some(value)
}

/// The number with one more digit at its end, if the byte is one and the number is at most `LIMIT`.
fn with_digit(radix: u32, front: u128, byte: u8) -> Option<u128>
    requires radix_some { 2 ≤ radix }
    requires radix_few { radix ≤ 16 }
    requires front_fits { front < 2 ^ 127 }
    ensures { let value = front * radix + digit_value byte in
        SomeIff result ((digit_value byte < radix) × (value < 2 ^ 127)) value }
{
    let digit = char::from(byte).to_digit(radix)?;
    let value = product(front, radix)? + u128::from(digit);
    if value > LIMIT {
        return None;
    }
    Some(value)
}

/// The product, if it is at most `LIMIT`.
fn product(value: u128, factor: u32) -> Option<u128>
    ensures { SomeIff result (value * factor < 2 ^ 127) (value * factor) }
{
    let product = value.checked_mul(u128::from(factor))?;
    if product > LIMIT {
        return None;
    }
    Some(product)
}

/// The number `top` with so many digits behind its point, times the power of the base that the
/// exponent names.
fn with_exponent(notation: Notation, top: u128, places: usize, exponent: &[u8]) -> Option<Frac>
    requires top_fits { top < 2 ^ 127 }
    requires places_few { places < 2 ^ 63 }
    ensures found { IfSome result (λ x. IsNumeral 10 (without_leading_sign exponent.now) ×
        IsRatio x (pos (top * base notation ^ raised exponent.now))
        (pos (base notation ^ (lowered exponent.now + per_place notation * places)))) }
    ensures none { IfNone result ((x : Frac) → IsNumeral 10 (without_leading_sign exponent.now) →
        IsRatio x (pos (top * base notation ^ raised exponent.now))
        (pos (base notation ^ (lowered exponent.now + per_place notation * places))) → ⊥) }
{
    let (is_negative, digits) = split_sign(exponent);
    if top == 0 {
        return zero_with(digits);
    }
    let size = digits_of(10, digits)?;
    let places = notation.per_place() * places as u128;
    if is_negative {
        return divided(notation.base(), top, size + places);
    }
    if size < places {
        return divided(notation.base(), top, places - size);
    }
    multiplied(notation.base(), top, size - places)
}

/// 0, if the word is digits.
fn zero_with(word: &[u8]) -> Option<Frac>
    ensures found { IfSome result (λ x. IsNumeral 10 word.now × IsRatio x (pos 0) (pos 1)) }
    ensures none { IfNone result (IsNumeral 10 word.now → ⊥) }
{
    if !is_count(Spelling::Lenient, word) {
        return None;
    }
    Some(Frac::decimal(0, 0))
}

/// The number times so many powers of the base, if that fits.
fn multiplied(base: u32, top: u128, power: u128) -> Option<Frac>
    requires base_some { 2 ≤ base }
    requires top_some { 0 < top }
    requires top_fits { top < 2 ^ 127 }
    ensures found { IfSome result (λ x. IsRatio x (pos (top * base ^ power)) (pos 1)) }
    ensures none { IfNone result ((x : Frac) →
        IsRatio x (pos (top * base ^ power)) (pos 1) → ⊥) }
{
    let mut value = top;
    let mut left = power;
    while left > 0 {
        value = product(value, base)?;
        left -= 1;
    }
    Some(Frac::decimal(value as i128, 0))
}

/// The number over so many powers of the base, if that fits.
// A numerator may share factors with powers that do not fit themselves, as that of 1024e-40.
fn divided(base: u32, top: u128, power: u128) -> Option<Frac>
    requires base_some { 2 ≤ base }
    requires top_some { 0 < top }
    requires top_fits { top < 2 ^ 127 }
    ensures found { IfSome result (λ x. IsRatio x (pos top) (pos (base ^ power))) }
    ensures none { IfNone result ((x : Frac) → IsRatio x (pos top) (pos (base ^ power)) → ⊥) }
{
    let (bottom, mut left) = power_of(base, power);
    let part = Frac::ratio(1, base);
    let mut quotient = Frac::reduced(top as i128, bottom as i128);
    while left > 0 {
        quotient = quotient.checked_mul(part).ok()?;
        left -= 1;
    }
    Some(quotient)
}

/// A power of the base that is at most `LIMIT`, and how many of these powers are left.
fn power_of(base: u32, power: u128) -> (u128, u128)
    requires base_some { 2 ≤ base }
    ensures power { result.0 * base ^ result.1 ≡ base ^ power }
    ensures some { 0 < result.0 }
    ensures fits { result.0 < 2 ^ 127 }
{
    let mut bottom = 1;
    let mut left = power;
    while left > 0 {
        let Some(next) = product(bottom, base) else {
            return (bottom, left);
        };
        bottom = next;
        left -= 1;
    }
    (bottom, left)
}
