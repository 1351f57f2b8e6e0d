//! The words of a line of known length, and the numbers that they spell.
ghost use Rattle.std.specs.Prelude.{◌≡◌, ◌==◌, ◌<◌, [], ◌∷◌, ◌++◌, ℕ, ℤ, List, decimal, IfOk};
ghost use Rattle.std.specs.Prelude.{IfErr, IfSome, IfNone};
ghost use Rattle.std.specs.List.{position};
ghost use Rattle.std.specs.Fmt.{signed_decimal};
ghost use Rattle.gj_frac.specs.Fraction.{Fits};
ghost use Rattle.gj_frac.specs.declared.Frac.{Frac};
ghost use Rattle.gj_lex.specs.NumberText.{fraction_text};
ghost use Rattle.gj_lex.specs.Words.{word_texts};
ghost use Rattle.gj_lex.specs.declared.reason.Reason.TheVariants.{Number};

use gj_forms::{behind_name, only_word, split_word};
use gj_frac::Frac;
use gj_lex::{Reason, Spelling, fraction_of, read_count};

/// Fewer digits than these spell a count below 2^32.
const FEW_DIGITS: usize = 10;

/// The three words behind the name, if the line has these four words.
pub(crate) fn three_fields_of<'a>(
    line: &'a [u8],
    name: &[u8],
) -> Option<(&'a [u8], &'a [u8], &'a [u8])>
    ensures found { IfSome result
        (λ r. word_texts line.now ≡ name.now ∷ r.0.now ∷ r.1.now ∷ r.2.now ∷ []) }
    ensures none { IfNone result ((first second third : List ℕ) →
        word_texts line.now ≡ name.now ∷ first ∷ second ∷ third ∷ [] → ⊥) }
{
    let (first, rest) = split_word(behind_name(line, name)?)?;
    let (second, rest) = split_word(rest)?;
    let third = only_word(rest)?;
    Some((first, second, third))
}

/// What stands before the first such byte, and what behind it.
pub(crate) fn split_at_byte(bytes: &[u8], mark: u8) -> Option<(&[u8], &[u8])>
    ensures { IfSome result (λ r. bytes.now ≡ r.0.now ++ mark ∷ r.1.now) }
{
    let end = first_such(bytes, mark)?;
    Some((&bytes[..end], &bytes[end + 1..]))
}

/// Where the first such byte stands.
///
/// It stands apart, so that its loop counts no more than the place.
#[inline(never)]
fn first_such(bytes: &[u8], mark: u8) -> Option<usize>
    ensures { result ≡ position (λ b. b == mark) bytes.now }
{
    bytes.iter().position(|byte| *byte == mark)
}

/// The fraction that the word spells.
pub(crate) fn number_of(word: &[u8]) -> Result<Frac, Reason>
    ensures found { IfOk result (λ x. word.now ≡ fraction_text x) }
    ensures fault { IfErr result (λ e. (e ≡ Number) × ((x : Frac) →
        word.now ≡ fraction_text x → ⊥)) }
{
    match fraction_of(Spelling::Strict, word) {
        Some(x) => Ok(x),
        None => Err(Reason::Number),
    }
}

/// The five words behind the name, if the line has these six words.
pub(crate) fn five_fields_of<'a>(
    line: &'a [u8],
    name: &[u8],
) -> Option<(&'a [u8], &'a [u8], &'a [u8], &'a [u8], &'a [u8])>
    ensures found { IfSome result (λ r. word_texts line.now
        ≡ name.now ∷ r.0.now ∷ r.1.now ∷ r.2.now ∷ r.3.now ∷ r.4.now ∷ []) }
    ensures none { IfNone result ((first second third fourth fifth : List ℕ) →
        word_texts line.now ≡ name.now ∷ first ∷ second ∷ third ∷ fourth ∷ fifth ∷ [] → ⊥) }
{
    let (first, rest) = split_word(behind_name(line, name)?)?;
    let (second, rest) = split_word(rest)?;
    let (third, rest) = split_word(rest)?;
    let (fourth, rest) = split_word(rest)?;
    let fifth = only_word(rest)?;
    Some((first, second, third, fourth, fifth))
}

/// The count below the limit that the word spells.
pub fn count_below(word: &[u8], limit: u32) -> Result<u32, Reason>
    ensures found { IfOk result (λ n. (word.now ≡ decimal n) × (n < limit)) }
    ensures fault { IfErr result (λ e. (e ≡ Number) × ((n : ℕ) → n < limit →
        word.now ≡ decimal n → ⊥)) }
{
    let Some(n) = read_count(word) else {
        return Err(Reason::Number);
    };
    if n >= limit {
        return Err(Reason::Number);
    }
    Ok(n)
}

/// The whole number, at most 2^127 - 1 in absolute value, that the word spells. A count of few
/// digits is read as such.
pub fn whole_of(word: &[u8]) -> Option<i128>
    ensures found { IfSome result (λ n. (word.now ≡ signed_decimal n) × Fits n) }
    ensures none { IfNone result ((n : ℤ) → word.now ≡ signed_decimal n → Fits n → ⊥) }
{
    if word.len() < FEW_DIGITS {
        if let Some(count) = read_count(word) {
            return Some(i128::from(count));
        }
    }
    let x = fraction_of(Spelling::Strict, word)?;
    if x.den() != 1 {
        return None;
    }
    Some(x.num())
}
