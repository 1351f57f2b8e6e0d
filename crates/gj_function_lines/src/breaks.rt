//! The line of a breakpoint, read.
ghost use Rattle.std.specs.Prelude.{◌≡◌, ◌∷◌, ℕ, List, codes, IfSome, IfNone, IfOk, IfErr};
ghost use Rattle.gj_lex.specs.Words.{word_texts};
ghost use Rattle.gj_lex.specs.SpelledNumbers.{IsFractionWord};
ghost use Rattle.gj_shape.specs.Breaks.{point_at};
ghost use Rattle.gj_shape.specs.declared.breaks.Break.{Break};
ghost use Rattle.gj_function_lines.specs.BreakLines.{spelled_break_rule};
ghost use Rattle.gj_function_lines.specs.Reading.{words_of_point, IsOneOrThree, numbers_rule};

use crate::points::{PointWords, fractions_in, point_of};
use gj_forms::{behind_name, split_word};
use gj_lex::{Reason, Spelling, fraction_of};
use gj_shape::Break;

/// The breakpoint that the line gives in lenient spelling, `point X V` or `point X L V R`, or the
/// rule that it breaks first: its form, or that its words are numbers. It takes no memory.
pub fn break_in(line: &[u8]) -> Result<Break, Reason>
    ensures found { IfOk result (spelled_break_rule.Spells (word_texts line.now)) }
    ensures broken { IfErr result (spelled_break_rule.Breaks (word_texts line.now)) }
{
    let Some((place, words)) = break_words(line) else {
        return Err(Reason::Form);
    };
    match break_of(place, words) {
        Some(point) => Ok(point),
        None => Err(Reason::Number),
    }
}

/// The word of the place and the words of the limits and the value, if the line has such words.
fn break_words(line: &[u8]) -> Option<(&[u8], PointWords<'_>)>
    ensures found { IfSome result
        (λ r. word_texts line.now ≡ codes "point" ∷ r.0.now ∷ words_of_point r.1) }
    ensures none { IfNone result ((word : List ℕ) (words : List (List ℕ)) →
        word_texts line.now ≡ codes "point" ∷ word ∷ words → IsOneOrThree words → ⊥) }
{
    let (place, rest) = split_word(behind_name(line, b"point")?)?;
    Some((place, fractions_in(rest)?))
}

/// The breakpoint that the words spell.
fn break_of(place: &[u8], words: PointWords<'_>) -> Option<Break>
    ensures place { IfSome result (λ b. IsFractionWord Spelling.Lenient place.now b.x) }
    ensures point { IfSome result (λ b. (numbers_rule Spelling.Lenient).Spells
        (words_of_point words.entry) (point_at b)) }
    ensures none { IfNone result ((b : Break) → IsFractionWord Spelling.Lenient place.now b.x →
        (numbers_rule Spelling.Lenient).Spells (words_of_point words.entry) (point_at b) → ⊥) }
{
    let x = fraction_of(Spelling::Lenient, place)?;
    let point = point_of(Spelling::Lenient, words)?;
    Some(Break {
        x,
        left: point.left,
        value: point.value,
        right: point.right,
    })
}
