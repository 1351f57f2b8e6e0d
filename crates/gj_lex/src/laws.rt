//! What holds of every canonical text.

ghost use Rattle.std.specs.Prelude.{◌≡◌, ◌<◌, ◌≤◌, ◌^◌, ℕ, List, length, decimal, All};
ghost use Rattle.std.specs.Char.{IsAsciiDigit};
ghost use Rattle.gj_frac.specs.declared.Frac.{Frac};
ghost use Rattle.gj_lex.specs.declared.spelling.Spelling.{Spelling};
ghost use Rattle.gj_lex.specs.SpelledNumbers.{IsCountWord, IsFractionWord};
ghost use Rattle.gj_lex.specs.NumberText.{fraction_text, IsNumberByte, IsWordByte};

use crate::spelling::Spelling;

/// No two fractions have one canonical text.
pub fn one_fraction_for_a_text()
    ensures { (x y : Frac) → fraction_text x ≡ fraction_text y → x ≡ y }
{}

/// A canonical fraction is one word: not empty, of digits, `-` and `/`, and so without a space, a
/// tab or the end of a line.
pub fn fraction_is_one_word()
    ensures some { (x : Frac) → 0 < length (fraction_text x) }
    ensures bytes { (x : Frac) → All IsNumberByte (fraction_text x) }
    ensures word { (x : Frac) → All IsWordByte (fraction_text x) }
{}

/// A canonical count is one word: not empty, of digits, and so without a space, a tab or the end of
/// a line.
pub fn count_is_one_word()
    ensures some { (n : ℕ) → n < 2 ^ 32 → 0 < length (decimal n) }
    ensures bytes { (n : ℕ) → n < 2 ^ 32 → All IsAsciiDigit (decimal n) }
    ensures word { (n : ℕ) → n < 2 ^ 32 → All IsWordByte (decimal n) }
{}

/// Canonical texts are short: that of a fraction has at most 80 bytes, that of a count below 2^32
/// at most 10.
pub fn canonical_texts_are_short()
    ensures fraction { (x : Frac) → length (fraction_text x) ≤ 80 }
    ensures count { (n : ℕ) → n < 2 ^ 32 → length (decimal n) ≤ 10 }
{}

/// A canonical text is a word for its fraction or its count in either spelling.
pub fn canonical_text_is_a_word()
    ensures fraction { (s : Spelling) (x : Frac) → IsFractionWord s (fraction_text x) x }
    ensures count { (s : Spelling) (n : ℕ) → n < 2 ^ 32 → IsCountWord s (decimal n) n }
{}
