//! Numbers in either spelling.

ghost use Rattle.std.specs.Prelude.{◌≡◌, ◌↔◌, ◌<◌, ◌^◌, ◌+◌, ℕ, length, slice_index, IfSome};
ghost use Rattle.std.specs.Prelude.{IfNone, IsTrue, All};
ghost use Rattle.std.specs.Char.{IsAsciiDigit};
ghost use Rattle.std.specs.Str.Parse.{IsNumeral, digits_value};
ghost use Rattle.gj_frac.specs.declared.Frac.{Frac};
ghost use Rattle.gj_lex.specs.SpelledNumbers.{IsCount, IsCountWord, IsFractionWord};

use crate::canonical::read_canonical;
use crate::digits::{has_leading_zero, read_run};
use crate::lenient::read_number;
use crate::spelling::Spelling;
use gj_frac::Frac;

/// The fraction that the word spells: in lenient spelling as `read_number` reads it, in strict
/// spelling as `read_canonical` does.
pub fn fraction_of(spelling: Spelling, word: &[u8]) -> Option<Frac>
    ensures found { IfSome result (IsFractionWord spelling word.now) }
    ensures none { IfNone result ((x : Frac) → IsFractionWord spelling word.now x → ⊥) }
{
    match spelling {
        Spelling::Lenient => read_number(word),
        Spelling::Strict => read_canonical(word),
    }
}

/// Whether the word spells a count, of any size: digits, in strict spelling without a leading zero.
pub fn is_count(spelling: Spelling, word: &[u8]) -> bool
    ensures { IsTrue result ↔ IsCountWord spelling word.now (digits_value 10 word.now) }
{
    match spelling {
        Spelling::Lenient => is_numeral(word),
        Spelling::Strict => is_numeral(word) && !has_leading_zero(word),
    }
}

/// The count below 2^32 that the word spells.
///
/// None if the word spells no count, which `is_count` tells, or one from 2^32 on.
pub fn count_of(spelling: Spelling, word: &[u8]) -> Option<u32>
    ensures found { IfSome result (IsCountWord spelling word.now) }
    ensures none { IfNone result ((n : ℕ) → n < 2 ^ 32 → IsCountWord spelling word.now n → ⊥) }
{
    if !is_count(spelling, word) {
        return None;
    }
    u32::try_from(read_run(word)?).ok()
}

/// Whether the word has a digit, and only digits.
fn is_numeral(word: &[u8]) -> bool
    ensures { IsTrue result ↔ IsNumeral 10 word.now }
{
    !word.is_empty() && word.iter().all(|byte| byte.is_ascii_digit())
}
