//! Numbers read in their one spelling.

ghost use Rattle.std.specs.Prelude.{◌≡◌, ◌==◌, ◌^◌, ◌<◌, ℕ, ℤ, pos, ◌<ℤ◌, decimal, unsigned_abs};
ghost use Rattle.std.specs.Prelude.{IfSome, IsSome};
ghost use Rattle.std.specs.List.{position, position_or_len};
ghost use Rattle.std.specs.Fmt.{signed_decimal};
ghost use Rattle.gj_frac.specs.Fraction.{numerator, denominator};
ghost use Rattle.gj_frac.specs.Lowest.{IsLowest};
ghost use Rattle.gj_lex.specs.NumberText.{fraction_text, ratio_text, denominator_text};

use crate::digits::read_digits;
use gj_frac::Frac;

/// The count below 2^32 that the word spells in canonical form: digits without a leading zero.
///
/// None if the word is no such number, or one from 2^32 on.
pub fn read_count(word: &[u8]) -> Option<u32>
    ensures found { IfSome result (λ n. word.now ≡ decimal n) }
    ensures only { (n : ℕ) → n < 2 ^ 32 → word.now ≡ decimal n → result ≡ Some n }
{
    u32::try_from(read_digits(word)?).ok()
}

/// The fraction that the word spells in canonical form, as `-1/2` or `3`.
///
/// None if the word is no canonical text: a part has a leading zero or is above 2^127 - 1, the
/// fraction is not in lowest terms, the denominator 1 is written, or a sign stands before 0.
pub fn read_canonical(word: &[u8]) -> Option<Frac>
    ensures found { IfSome result (λ x. word.now ≡ fraction_text x) }
    ensures only { (x : Frac) → word.now ≡ fraction_text x → result ≡ Some x }
{
    let (num, den) = read_parts(word)?;
    in_lowest_terms(num, den)
}

/// The fraction `num/den`, if that is in lowest terms.
///
/// If both numbers are below 2^64, all is done in 64 bits.
fn in_lowest_terms(num: i128, den: i128) -> Option<Frac>
    requires { pos 0 <ℤ den }
    ensures found { IfSome result (λ x. (numerator x ≡ num) × (denominator x ≡ den)) }
    ensures only { IsLowest num den → IsSome result }
{
    let (Ok(size), Ok(bottom)) = (u64::try_from(num.unsigned_abs()), u64::try_from(den)) else {
        return long_in_lowest_terms(num, den);
    };
    let x = Frac::of_small(size, bottom);
    if x.den() != den {
        return None;
    }
    if num < 0 {
        return Some(-x);
    }
    Some(x)
}

/// The same, whatever the sizes of the numbers.
#[inline(never)]
fn long_in_lowest_terms(num: i128, den: i128) -> Option<Frac>
    ensures found { IfSome result (λ x. (numerator x ≡ num) × (denominator x ≡ den)) }
    ensures only { IsLowest num den → IsSome result }
{
    let x = Frac::new(num, den)?;
    if x.num() != num || x.den() != den {
        return None;
    }
    Some(x)
}

/// The numerator and the denominator that the word spells, in lowest terms or not.
fn read_parts(word: &[u8]) -> Option<(i128, i128)>
    ensures found { IfSome result (λ parts. word.now ≡ ratio_text parts.0 parts.1) }
    ensures positive { IfSome result (λ parts. pos 0 <ℤ parts.1) }
    ensures only { (n d : ℤ) → unsigned_abs n < 2 ^ 127 → unsigned_abs d < 2 ^ 127 → pos 0 <ℤ d →
        word.now ≡ ratio_text n d → result ≡ Some (n, d) }
{
    let (num, den) = word.split_at(numerator_len(word));
    Some((read_numerator(num)?, read_denominator(den)?))
}

/// How many bytes stand before the first `/`, or in the whole word if it has none.
fn numerator_len(word: &[u8]) -> usize
    ensures { result ≡ position_or_len (λ b. b == 47) word.now }
{
    first_slash(word).unwrap_or(word.len())
}

/// Where the first `/` stands.
fn first_slash(word: &[u8]) -> Option<usize>
    ensures { result ≡ position (λ b. b == 47) word.now }
{
    word.iter().position(|byte| *byte == b'/')
}

/// The whole number that the word spells: digits without a leading zero, after a `-` if it is
/// below 0.
fn read_numerator(word: &[u8]) -> Option<i128>
    ensures found { IfSome result (λ n. word.now ≡ signed_decimal n) }
    ensures only { (n : ℤ) → unsigned_abs n < 2 ^ 127 →
        word.now ≡ signed_decimal n → result ≡ Some n }
{
    match word.strip_prefix(b"-") {
        None => Some(read_digits(word)? as i128),
        Some(digits) => match read_digits(digits)? {
            0 => None,
            n => Some(-(n as i128)),
        },
    }
}

/// The denominator that the word spells: a `/` and digits for one of at least 2, nothing for 1.
fn read_denominator(word: &[u8]) -> Option<i128>
    ensures found { IfSome result (λ d. (pos 0 <ℤ d) ×
        (word.now ≡ denominator_text (unsigned_abs d))) }
    ensures only { (d : ℤ) → pos 0 <ℤ d → unsigned_abs d < 2 ^ 127 →
        word.now ≡ denominator_text (unsigned_abs d) → result ≡ Some d }
{
    if word.is_empty() {
        return Some(1);
    }
    match read_digits(word.strip_prefix(b"/")?)? {
        0 | 1 => None,
        n => Some(n as i128),
    }
}
