//! Words of a line by threes.
ghost use Rattle.std.specs.Prelude.{◌≡◌, ◌∷◌, ℕ, List, IfSome, IfNone};
ghost use Rattle.gj_lex.specs.Words.{word_texts};

use gj_forms::split_word;

/// Three words of a line, one behind another.
#[derive(Clone, Copy)]
pub(crate) struct ThreeWords<'a> {
    pub first: &'a [u8],
    pub second: &'a [u8],
    pub third: &'a [u8],
}

/// The first three words of the line, and what stands behind them.
pub(crate) fn split_three(line: &[u8]) -> Option<(ThreeWords<'_>, &[u8])>
    ensures found { IfSome result (λ r. word_texts line.now
        ≡ r.0.first.now ∷ r.0.second.now ∷ r.0.third.now ∷ word_texts r.1.now) }
    ensures none { IfNone result ((first second third : List ℕ) (more : List (List ℕ)) →
        word_texts line.now ≡ first ∷ second ∷ third ∷ more → ⊥) }
{
    let (first, rest) = split_word(line)?;
    let (second, rest) = split_word(rest)?;
    let (third, rest) = split_word(rest)?;
    let words = ThreeWords {
        first,
        second,
        third,
    };
    Some((words, rest))
}
