//! Decimals and fractions at the front of a text.

ghost use Rattle.std.specs.Prelude.{◌≡◌, ◌^◌, ◌<◌, ◌≤◌, ◌++◌, ℕ, List, drop, length, pos};
ghost use Rattle.std.specs.Prelude.{IfSome, IfNone};
ghost use Rattle.std.specs.Int.{from_bool};
ghost use Rattle.std.specs.Str.Parse.{AllDigits, IsNumeral, digits_value, starts_with_minus};
ghost use Rattle.gj_frac.specs.Fraction.{IsRatio, with_sign};
ghost use Rattle.gj_lex.specs.LeadingText.{BeginsWithNoDigit, BeginsWithShortRatio};
ghost use Rattle.gj_lex.specs.NumberText.{IsWritten};
ghost use Rattle.gj_lex.specs.SpelledNumbers.{IsFractionWord};
ghost use Rattle.gj_lex.specs.declared.spelling.Spelling.{Spelling};

use crate::digits::{MOST_DIGITS, leading_value, leading_value_by_lanes};
use crate::lenient::begins_with;
use crate::printed::behind_byte;
use gj_frac::Frac;

/// The decimal that the text begins with, as `-20.609`, and what follows it.
///
/// A `-` may stand first, and then digits, or digits, `.` and digits. Behind the `-` at most 18
/// bytes are read, the point among them: what follows may go on with digits. None if no digit
/// stands first, or behind the `-`.
// Loops over numbers call it for each: what it gives stays in registers.
#[inline(always)]
pub fn leading_decimal(text: &[u8]) -> Option<(Frac, &[u8])>
    ensures found { IfSome result (λ r. (word : List ℕ) × (text.now ≡ word ++ r.1.now) ×
        IsFractionWord Spelling.Lenient word r.0) }
    ensures none { IfNone result
        (BeginsWithNoDigit (drop (from_bool (starts_with_minus text.now)) text.now)) }
{
    let minus = begins_with(text, b'-');
    let (top, places, rest) = leading_digits(&text[usize::from(minus)..])?;
    Some((Frac::short_decimal(minus, top, places), rest))
}

/// The number that the text begins with, without a sign: that of all its digits, how many of them
/// stand behind the point, and what follows them.
#[inline(always)]
fn leading_digits(text: &[u8]) -> Option<(u64, usize, &[u8])>
    ensures found { IfSome result (λ r. (word : List ℕ) × (text.now ≡ word ++ r.2.now) ×
        IsWritten word r.0 (10 ^ r.1) × (r.0 < 10 ^ 18) × (r.1 ≤ 18)) }
    ensures none { IfNone result (BeginsWithNoDigit text.now) }
{
    let (near, _) = text.split_at(text.len().min(MOST_DIGITS));
    let (whole, count) = leading_value(near);
    if count == 0 {
        return None;
    }
    let (_, behind) = near.split_at(count);
    match behind.split_first() {
        Some((b'.', digits)) => {
            let (top, places) = leading_value_by_lanes(whole, digits);
            if places == 0 {
                return Some((whole, 0, &text[count..]));
            }
            Some((top, places, &text[count + 1 + places..]))
        }
        _ => Some((whole, 0, &text[count..])),
    }
}

/// The fraction that the text begins with, as `-1645/48`, and what follows it.
///
/// A `-` may stand first, and then digits, `/` and digits. At most 18 digits are read before and
/// behind the `/`: what follows may go on with digits. None if no digit stands first, or behind the
/// `-`, or on one side of the `/`, if there is no `/`, or if the denominator is 0.
#[inline(always)]
pub fn leading_ratio(text: &[u8]) -> Option<(Frac, &[u8])>
    ensures found { IfSome result (λ r. (word : List ℕ) × (text.now ≡ word ++ r.1.now) ×
        IsFractionWord Spelling.Lenient word r.0) }
    ensures none { IfNone result (BeginsWithShortRatio
        (drop (from_bool (starts_with_minus text.now)) text.now) → ⊥) }
{
    let minus = begins_with(text, b'-');
    let (top, rest) = leading_number(&text[usize::from(minus)..])?;
    let (bottom, rest) = leading_number(behind_byte(rest, b'/')?)?;
    if bottom == 0 {
        return None;
    }
    Some((signed_ratio(minus, top, bottom), rest))
}

/// The number of at most 18 digits that the text begins with, and what follows these.
#[inline(always)]
fn leading_number(text: &[u8]) -> Option<(u64, &[u8])>
    ensures found { IfSome result (λ r. (digits : List ℕ) × (text.now ≡ digits ++ r.1.now) ×
        IsNumeral 10 digits × (r.0 ≡ digits_value 10 digits) × (r.0 < 10 ^ 18)) }
    ensures none { IfNone result (BeginsWithNoDigit text.now) }
    ensures only { IfSome result (λ r. (digits rest : List ℕ) → text.now ≡ digits ++ rest →
        AllDigits 10 digits → length digits ≤ 18 → BeginsWithNoDigit rest →
        (r.0 ≡ digits_value 10 digits) × (r.1.now ≡ rest)) }
{
    let (near, _) = text.split_at(text.len().min(MOST_DIGITS));
    let (number, count) = leading_value(near);
    if count == 0 {
        return None;
    }
    Some((number, &text[count..]))
}

/// The fraction of two numbers in lowest terms, with this sign. The divisor is sought in 64 bits.
#[inline(always)]
fn signed_ratio(is_negative: bool, top: u64, bottom: u64) -> Frac
    requires { 0 < bottom }
    ensures { IsRatio result (with_sign is_negative top) (pos bottom) }
{
    let size = Frac::of_small(top, bottom);
    if is_negative {
        return -size;
    }
    size
}
