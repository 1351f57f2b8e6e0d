//! The lines of halves, read.
ghost use Rattle.std.specs.Prelude.{◌≡◌, ◌++◌, List, map, IfOk, IfErr, IfSome, IfNone};
ghost use Rattle.std.specs.Prelude.{◌↔◌, ℕ, IsTrue};
ghost use Rattle.gj_lex.specs.Words.{word_texts};
ghost use Rattle.gj_forms.specs.Parts.{IsFaultOf, IsReading};
ghost use Rattle.gj_limit_proof.specs.LimitText.{pair_line};
ghost use Rattle.gj_limit_proof.specs.LimitGrammar.{AllFit, AreTwiceThree, pair_rule, pair_part};
ghost use Rattle.gj_limit_proof.specs.LimitGrammar.{pairs_part, side_numbers_of, halves_part};
ghost use Rattle.gj_limit_proof.specs.PairWords.{texts_of_values, texts_of_triples};
ghost use Rattle.gj_limit_proof.specs.PairWords.{texts_of_six, AreTripleWords};
ghost use Rattle.gj_limit_proof.specs.declared.triple.Triple.{Triple};

use crate::three_words::{ThreeWords, split_three};
use crate::triple::{Triple, no_numbers, push_triple};
use gj_forms::{PartFault, behind_name, behind_text, has_no_word, line_at, two_fields_of};
use gj_lex::{Reason, Spelling, behind_byte, printed_whole};
use gj_proof::{halves_head_at, whole_of};
use gj_shape::{LimitHalves, SideNumbers};
use std::alloc::Global;

/// The halves in the next lines, and what follows them.
pub(crate) fn limit_halves_at(alloc: Global, text: &[u8]) -> Result<(LimitHalves, &[u8]), PartFault>
    ensures { IsReading halves_part text.now result }
{
    let (head, rest) = halves_head_at(text)?;
    let ((first, second), rest) = pairs_at(alloc, rest, head.order)?;
    let halves = LimitHalves {
        order: head.order,
        scale: head.scale,
        first,
        second,
    };
    Ok((halves, rest))
}

/// The numbers of both halves at so many points, in the next lines, and what follows the lines.
fn pairs_at(
    alloc: Global,
    text: &[u8],
    count: u32,
) -> Result<((SideNumbers, SideNumbers), &[u8]), PartFault>
    ensures found { IfOk result (λ r. (pairs : List (Triple × Triple)) ×
        (pairs_part count).Reads text.now pairs r.1.now
        × (r.0.0 ≡ side_numbers_of (map (λ p. p.0) pairs))
        × (r.0.1 ≡ side_numbers_of (map (λ p. p.1) pairs))) }
    ensures fault { IfErr result (IsFaultOf (pairs_part count) text.now) }
{
    let mut first = no_numbers(alloc);
    let mut second = no_numbers(alloc);
    let mut rest = text;
    for _ in 0..count {
        let ((x, y), behind) = pair_at(rest)?;
        push_triple(&mut first, x)?;
        push_triple(&mut second, y)?;
        rest = behind;
    }
    Ok(((first, second), rest))
}

/// The numbers of both halves at a point, in the next line, and what follows the line. It takes no
/// memory.
fn pair_at(text: &[u8]) -> Result<((Triple, Triple), &[u8]), PartFault>
    ensures { IsReading pair_part text.now result }
{
    if let Some((pair, rest)) = printed_values(text) {
        return Ok((pair, rest));
    }
    let line = line_at(Spelling::Strict, text)?;
    line.with_rest(pair_in(line.bytes))
}

/// The numbers of both halves, of which neither jumps, that the text begins with as they are
/// printed, and what follows their line. It is read in one pass.
fn printed_values(text: &[u8]) -> Option<((Triple, Triple), &[u8])>
    ensures { IfSome result (λ r. (text.now ≡ pair_line r.0 ++ r.1.now) × AllFit r.0.0 ×
        AllFit r.0.1) }
{
    let words = behind_text(text, b"pair ")?;
    let (first, words) = printed_whole::<false>(words)?;
    let (second, words) = printed_whole::<false>(behind_byte(words, b' ')?)?;
    let rest = behind_byte(words, b'\n')?;
    let first = Triple::thrice(i128::from(first));
    let second = Triple::thrice(i128::from(second));
    Some(((first, second), rest))
}

/// The numbers of both halves in the line.
fn pair_in(line: &[u8]) -> Result<(Triple, Triple), Reason>
    ensures found { IfOk result (pair_rule.Spells (word_texts line.now)) }
    ensures fault { IfErr result (pair_rule.Breaks (word_texts line.now)) }
{
    if let Some((first, second)) = two_fields_of(line, b"pair") {
        return values_of(first, second);
    }
    match six_words(line) {
        Some((first, second)) => triples_of(first, second),
        None => Err(Reason::Form),
    }
}

/// The numbers of both halves, of which neither jumps, that the words spell.
fn values_of(first: &[u8], second: &[u8]) -> Result<(Triple, Triple), Reason>
    ensures found { IfOk result (pair_rule.Spells (texts_of_values first.now second.now)) }
    ensures fault { IfErr result (pair_rule.Breaks (texts_of_values first.now second.now)) }
{
    let Some(x) = whole_of(first) else {
        return Err(Reason::Number);
    };
    let Some(y) = whole_of(second) else {
        return Err(Reason::Number);
    };
    Ok((Triple::thrice(x), Triple::thrice(y)))
}

/// The six words behind `pair`, if the line has these seven words.
fn six_words(line: &[u8]) -> Option<(ThreeWords<'_>, ThreeWords<'_>)>
    ensures found { IfSome result (λ r. word_texts line.now ≡ texts_of_triples r.0 r.1) }
    ensures none { IfNone result ((a b c d e f : List ℕ) →
        word_texts line.now ≡ texts_of_six a b c d e f → ⊥) }
{
    let (first, rest) = split_three(behind_name(line, b"pair")?)?;
    let (second, rest) = split_three(rest)?;
    if !has_no_word(rest) {
        return None;
    }
    Some((first, second))
}

/// The numbers of both halves, of which one jumps, that the words spell.
fn triples_of(first: ThreeWords<'_>, second: ThreeWords<'_>) -> Result<(Triple, Triple), Reason>
    ensures found { IfOk result (pair_rule.Spells (texts_of_triples first.entry second.entry)) }
    ensures fault { IfErr result (pair_rule.Breaks (texts_of_triples first.entry second.entry)) }
{
    if are_twice_three(first, second) {
        return Err(Reason::Form);
    }
    let Some(x) = triple_of(first) else {
        return Err(Reason::Number);
    };
    let Some(y) = triple_of(second) else {
        return Err(Reason::Number);
    };
    Ok((x, y))
}

/// Whether the first three words are the same, and the second three are.
fn are_twice_three(first: ThreeWords<'_>, second: ThreeWords<'_>) -> bool
    ensures { IsTrue result ↔ AreTwiceThree (texts_of_triples first.entry second.entry) }
{
    are_three_same(first) && are_three_same(second)
}

/// Whether the three words are the same.
fn are_three_same(words: ThreeWords<'_>) -> bool
    ensures { IsTrue result ↔ ((words.entry.first.now ≡ words.entry.second.now) ×
        (words.entry.third.now ≡ words.entry.second.now)) }
{
    words.first == words.second && words.third == words.second
}

/// The numbers that the three words spell.
fn triple_of(words: ThreeWords<'_>) -> Option<Triple>
    ensures found { IfSome result (AreTripleWords words.entry) }
    ensures none { IfNone result ((t : Triple) → AreTripleWords words.entry t → ⊥) }
{
    let left = whole_of(words.first)?;
    let value = whole_of(words.second)?;
    let right = whole_of(words.third)?;
    Some(Triple { left, value, right })
}
