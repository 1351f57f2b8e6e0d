//! Numbers in the form in which they are printed, read in one pass from the front of a text.
//!
//! Each reader gives a number and what follows its text. At most 18 digits of a number are read, of a
//! fraction at most 18 of each part. If more stand there, a digit follows what was read: that is no
//! end of a word, and then the line is read word by word. A whole number below 10^18 in absolute
//! value with no digit behind it is always read. So is a fraction whose parts are both so small, if
//! neither a digit nor a `/` follows.
ghost use Rattle.std.specs.Prelude.{◌≡◌, ◌≢◌, ◌↔◌, ◌<◌, ◌^◌, ◌++◌, ◌∷◌, ℕ, ℤ, pos, unsigned_abs};
ghost use Rattle.std.specs.Prelude.{◌+◌, ◌*◌, ◌≤◌, List, length, slice_index, decimal, take};
ghost use Rattle.std.specs.Char.{digit_value};
ghost use Rattle.std.specs.Str.Parse.{AllDigits, digits_value};
ghost use Rattle.std.specs.Prelude.{IfSome, IfNone, IsSome, IsTrue};
ghost use Rattle.std.specs.Fmt.{signed_decimal};
ghost use Rattle.gj_frac.specs.Fraction.{numerator, denominator};
ghost use Rattle.gj_frac.specs.Lowest.{IsLowest};
ghost use Rattle.gj_lex.specs.LeadingText.{BeginsWithNoDigit};
ghost use Rattle.gj_lex.specs.NumberText.{fraction_text, denominator_text};

use crate::digits::{MOST_DIGITS, leading_value, leading_value_by_lanes};
use gj_frac::Frac;

/// What follows the byte, if the text begins with it. It takes no memory.
pub fn behind_byte(text: &[u8], byte: u8) -> Option<&[u8]>
    ensures found { IfSome result (λ rest. text.now ≡ byte ∷ rest.now) }
    ensures none { IfNone result ((rest : List ℕ) → text.now ≢ byte ∷ rest) }
{
    let (first, rest) = text.split_first()?;
    if *first != byte {
        return None;
    }
    Some(rest)
}

/// The fraction with whose printed text the text begins, and what follows that. It takes no memory.
///
/// At most 18 digits of the numerator and of the denominator are read: one by one, or by a look at
/// eight bytes at once, which is faster where most numbers have more than four digits.
pub fn printed_fraction<const AT_ONCE: bool>(text: &[u8]) -> Option<(Frac, &[u8])>
    ensures small { IfSome result (λ r. (unsigned_abs (numerator r.0) < 10 ^ 18) ×
        (unsigned_abs (denominator r.0) < 10 ^ 18)) }
    ensures found { IfSome result (λ r. text.now ≡ fraction_text r.0 ++ r.1.now) }
    ensures none { IfNone result ((x : Frac) (rest : List ℕ) → unsigned_abs (numerator x) < 10 ^ 18 →
        unsigned_abs (denominator x) < 10 ^ 18 → BeginsWithNoDigit rest →
        slice_index rest 0 ≢ 47 → text.now ≢ fraction_text x ++ rest) }
    ensures only { IfSome result (λ r. (x : Frac) (rest : List ℕ) →
        unsigned_abs (numerator x) < 10 ^ 18 → unsigned_abs (denominator x) < 10 ^ 18 →
        BeginsWithNoDigit rest → slice_index rest 0 ≢ 47 → text.now ≡ fraction_text x ++ rest →
        (r.0 ≡ x) × (r.1.now ≡ rest)) }
{
    let (num, rest) = printed_whole::<AT_ONCE>(text)?;
    let (den, rest) = printed_denominator::<AT_ONCE>(rest)?;
    Some((small_in_lowest_terms(num, den)?, rest))
}

/// The fraction `num/den`, if that is in lowest terms. The divisor is sought in 64 bits.
fn small_in_lowest_terms(num: i64, den: u64) -> Option<Frac>
    requires { 0 < den }
    ensures found { IfSome result (λ x. (numerator x ≡ num) × (denominator x ≡ pos den)) }
    ensures only { IsLowest num (pos den) → IsSome result }
{
    let x = Frac::of_small(num.unsigned_abs(), den);
    if x.den() != i128::from(den) {
        return None;
    }
    if num < 0 {
        return Some(-x);
    }
    Some(x)
}

/// The whole number with whose printed text the text begins, and what follows that. It takes no
/// memory.
///
/// At most 18 digits are read, one by one or by a look at eight bytes at once.
pub fn printed_whole<const AT_ONCE: bool>(text: &[u8]) -> Option<(i64, &[u8])>
    ensures small { IfSome result (λ r. unsigned_abs r.0 < 10 ^ 18) }
    ensures found { IfSome result (λ r. text.now ≡ signed_decimal r.0 ++ r.1.now) }
    ensures none { IfNone result ((n : ℤ) (rest : List ℕ) → unsigned_abs n < 10 ^ 18 →
        BeginsWithNoDigit rest → text.now ≢ signed_decimal n ++ rest) }
    ensures only { IfSome result (λ r. (n : ℤ) (rest : List ℕ) → unsigned_abs n < 10 ^ 18 →
        BeginsWithNoDigit rest → text.now ≡ signed_decimal n ++ rest →
        (r.0 ≡ n) × (r.1.now ≡ rest)) }
{
    let Some(digits) = behind_byte(text, b'-') else {
        let (size, rest) = printed_number::<AT_ONCE>(text)?;
        return Some((size as i64, rest));
    };
    let (size, rest) = printed_number::<AT_ONCE>(digits)?;
    if size == 0 {
        return None;
    }
    Some((-(size as i64), rest))
}

/// The denominator with whose printed text the text begins, and what follows that: 1 if no `/`
/// stands there.
fn printed_denominator<const AT_ONCE: bool>(text: &[u8]) -> Option<(u64, &[u8])>
    ensures some { IfSome result (λ r. 0 < r.0) }
    ensures small { IfSome result (λ r. r.0 < 10 ^ 18) }
    ensures printed { IfSome result (λ r. text.now ≡ denominator_text r.0 ++ r.1.now) }
    ensures none { IfNone result ((d : ℕ) (rest : List ℕ) → 0 < d → d < 10 ^ 18 →
        BeginsWithNoDigit rest → slice_index rest 0 ≢ 47 →
        text.now ≢ denominator_text d ++ rest) }
    ensures only { IfSome result (λ r. (d : ℕ) (rest : List ℕ) → 0 < d → d < 10 ^ 18 →
        BeginsWithNoDigit rest → slice_index rest 0 ≢ 47 → text.now ≡ denominator_text d ++ rest →
        (r.0 ≡ d) × (r.1.now ≡ rest)) }
{
    let Some(digits) = behind_byte(text, b'/') else {
        return Some((1, text));
    };
    let (den, rest) = printed_number::<AT_ONCE>(digits)?;
    if den < 2 {
        return None;
    }
    Some((den, rest))
}

/// The number with whose digits, without a leading zero, the text begins, and what follows them. It
/// takes no memory.
///
/// At most 18 digits are read, one by one or by a look at eight bytes at once.
pub fn printed_number<const AT_ONCE: bool>(text: &[u8]) -> Option<(u64, &[u8])>
    ensures small { IfSome result (λ r. r.0 < 10 ^ 18) }
    ensures printed { IfSome result (λ r. text.now ≡ decimal r.0 ++ r.1.now) }
    ensures none { IfNone result ((n : ℕ) (rest : List ℕ) → n < 10 ^ 18 → BeginsWithNoDigit rest →
        text.now ≢ decimal n ++ rest) }
    ensures only { IfSome result (λ r. (n : ℕ) (rest : List ℕ) → n < 10 ^ 18 →
        BeginsWithNoDigit rest → text.now ≡ decimal n ++ rest → (r.0 ≡ n) × (r.1.now ≡ rest)) }
{
    let (front, _) = text.split_at(text.len().min(MOST_DIGITS));
    let (number, len) = front_value::<AT_ONCE>(front);
    let (digits, rest) = text.split_at(len);
    if !is_canonical(digits) {
        return None;
    }
    Some((number, rest))
}

/// The number that the digits at the front of the bytes spell, and how many these are, read one by
/// one, or by a look at eight bytes at once.
#[inline(always)]
fn front_value<const AT_ONCE: bool>(word: &[u8]) -> (u64, usize)
    requires { length word.now ≤ 18 }
    ensures digits { AllDigits 10 (take result.1 word.now) }
    ensures value { result.0 ≡ digits_value 10 (take result.1 word.now) }
    ensures within { result.1 ≤ length word.now }
    ensures all { result.1 < length word.now → 10 ≤ digit_value (slice_index word.now result.1) }
{
    if AT_ONCE {
        leading_value_by_lanes(0, word)
    } else {
        leading_value(word)
    }
}

/// Whether there is a digit, and no zero before others.
fn is_canonical(digits: &[u8]) -> bool
    ensures { IsTrue result ↔ ((0 < length digits.now) × (slice_index digits.now 0 ≡ 48 →
        length digits.now ≡ 1)) }
{
    digits.len() == 1 || (!digits.is_empty() && digits[0] != b'0')
}
