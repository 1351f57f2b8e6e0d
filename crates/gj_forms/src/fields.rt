//! The words of a line, taken from its front.

ghost use Rattle.std.specs.Prelude.{◌≡◌, ◌↔◌, List, ℕ, [], ◌∷◌, IfNone, IfSome, IsTrue};
ghost use Rattle.gj_lex.specs.Words.{HasAtFront, word_texts};

use gj_lex::{first_blank, first_byte};

/// The first word of the line, and what stands behind it. It takes no memory.
pub fn split_word(line: &[u8]) -> Option<(&[u8], &[u8])>
    ensures found { IfSome result (λ r. word_texts line.now ≡ r.0.now ∷ word_texts r.1.now) }
    ensures parts { IfSome result (λ r. HasAtFront line.now r.0.now r.1.now) }
    ensures none { IfNone result (word_texts line.now ≡ []) }
{
    let line = &line[first_byte(line)?..];
    let end = first_blank(line).unwrap_or(line.len());
    Some((&line[..end], &line[end..]))
}

/// Whether the line has no word.
pub fn has_no_word(line: &[u8]) -> bool
    ensures { IsTrue result ↔ (word_texts line.now ≡ []) }
{
    split_word(line).is_none()
}

/// What stands behind the first word of the line, if that word is the name.
pub fn behind_name<'a>(line: &'a [u8], name: &[u8]) -> Option<&'a [u8]>
    ensures found { IfSome result (λ r. word_texts line.now ≡ name.now ∷ word_texts r.now) }
    ensures none { IfNone result ((words : List (List ℕ)) →
        word_texts line.now ≡ name.now ∷ words → ⊥) }
{
    let (word, rest) = split_word(line)?;
    if word != name {
        return None;
    }
    Some(rest)
}

/// The word of the line, if it has one word.
pub fn only_word(line: &[u8]) -> Option<&[u8]>
    ensures found { IfSome result (λ w. word_texts line.now ≡ w.now ∷ []) }
    ensures none { IfNone result ((word : List ℕ) → word_texts line.now ≡ word ∷ [] → ⊥) }
{
    let (word, rest) = split_word(line)?;
    if !has_no_word(rest) {
        return None;
    }
    Some(word)
}

/// The word behind the name, if the line has these two words.
pub fn field_of<'a>(line: &'a [u8], name: &[u8]) -> Option<&'a [u8]>
    ensures found { IfSome result (λ w. word_texts line.now ≡ name.now ∷ w.now ∷ []) }
    ensures none { IfNone result ((word : List ℕ) →
        word_texts line.now ≡ name.now ∷ word ∷ [] → ⊥) }
{
    only_word(behind_name(line, name)?)
}

/// The two words behind the name, if the line has these three words.
pub fn two_fields_of<'a>(line: &'a [u8], name: &[u8]) -> Option<(&'a [u8], &'a [u8])>
    ensures found { IfSome result (λ r. word_texts line.now ≡ name.now ∷ r.0.now ∷ r.1.now ∷ []) }
    ensures none { IfNone result ((first second : List ℕ) →
        word_texts line.now ≡ name.now ∷ first ∷ second ∷ [] → ⊥) }
{
    let (first, rest) = split_word(behind_name(line, name)?)?;
    let second = only_word(rest)?;
    Some((first, second))
}

/// Whether the line has the words of the other, in their order, and no more.
pub fn has_words(line: &[u8], other: &[u8]) -> bool
    ensures { IsTrue result ↔ (word_texts line.now ≡ word_texts other.now) }
{
    let mut left = line;
    let mut wanted = other;
    while let Some((word, more)) = split_word(wanted) {
        let Some(rest) = behind_name(left, word) else {
            return false;
        };
        left = rest;
        wanted = more;
    }
    has_no_word(left)
}
