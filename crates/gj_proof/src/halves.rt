//! The lines of halves, read.
ghost use Rattle.std.specs.Prelude.{◌≡◌, ◌++◌, ℤ, List, map, decimal, IfOk, IfErr, IfSome, IfNone};
ghost use Rattle.std.specs.Fmt.{signed_decimal};
ghost use Rattle.gj_frac.specs.Fraction.{Fits};
ghost use Rattle.gj_lex.specs.Words.{word_texts};
ghost use Rattle.gj_forms.specs.Parts.{IsFaultOf, IsReading};
ghost use Rattle.gj_forms.specs.LineForms.{AreLine, BreaksForm};
ghost use Rattle.gj_proof.specs.ProofText.{pair_line};
ghost use Rattle.gj_proof.specs.ProofGrammar.{IsHeadInBounds, halves_form, pair_form, form_part};
ghost use Rattle.gj_proof.specs.ProofGrammar.{pairs_part, halves_part};
ghost use Rattle.gj_proof.specs.declared.halves.HalvesHead.{HalvesHead};

use crate::bounds::is_head_in_bounds;
use crate::fields::whole_of;
use gj_forms::{PartFault, behind_text, line_at, two_fields_of};
use gj_lex::{Reason, Spelling, behind_byte, count_of, printed_whole};
use gj_shape::{Halves, List};
use std::alloc::Global;

/// The order and the scale of halves.
#[derive(Clone, Copy)]
pub struct HalvesHead {
    /// The order of the grid, from 2 to 4,000.
    pub order: u32,
    /// The scale of all numbers, from 1 to 2^124.
    pub scale: i128,
}

/// The halves in the next lines, and what follows them.
pub(crate) fn halves_at(alloc: Global, text: &[u8]) -> Result<(Halves, &[u8]), PartFault>
    ensures { IsReading halves_part text.now result }
{
    let (head, rest) = halves_head_at(text)?;
    let ((first, second), rest) = pairs_at(alloc, rest, head.order)?;
    let halves = Halves {
        order: head.order,
        scale: head.scale,
        first: List::of(first),
        second: List::of(second),
    };
    Ok((halves, rest))
}

/// The order and the scale in the next line, and what follows the line. It takes no memory.
pub fn halves_head_at(text: &[u8]) -> Result<(HalvesHead, &[u8]), PartFault>
    ensures { IsReading (form_part halves_form) text.now result }
{
    let line = line_at(Spelling::Strict, text)?;
    line.with_rest(halves_head_in(line.bytes))
}

/// The order and the scale that the line tells.
fn halves_head_in(line: &[u8]) -> Result<HalvesHead, Reason>
    ensures found { IfOk result (AreLine halves_form (word_texts line.now)) }
    ensures fault { IfErr result (BreaksForm halves_form (word_texts line.now)) }
{
    let Some((first, second)) = two_fields_of(line, b"halves") else {
        return Err(Reason::Form);
    };
    match head_of(first, second) {
        Some(head) => Ok(head),
        None => Err(Reason::Number),
    }
}

/// The order and the scale that the two words spell.
fn head_of(first: &[u8], second: &[u8]) -> Option<HalvesHead>
    ensures found { IfSome result (λ h. (first.now ≡ decimal h.order) ×
        (second.now ≡ signed_decimal h.scale) × IsHeadInBounds h) }
    ensures none { IfNone result ((h : HalvesHead) → first.now ≡ decimal h.order →
        second.now ≡ signed_decimal h.scale →
        IsHeadInBounds h → ⊥) }
{
    let order = count_of(Spelling::Strict, first)?;
    let scale = whole_of(second)?;
    if !is_head_in_bounds(order, scale) {
        return None;
    }
    Some(HalvesHead { order, scale })
}

/// So many pairs of values in the next lines, the first ones and the second ones, and what follows
/// the lines.
#[inline(never)]
fn pairs_at(
    alloc: Global,
    text: &[u8],
    count: u32,
) -> Result<((Vec<i128>, Vec<i128>), &[u8]), PartFault>
    ensures found { IfOk result (λ r. (pairs : List (ℤ × ℤ)) ×
        (pairs_part count).Reads text.now pairs r.1.now
        × (r.0.0.items ≡ map (λ p. p.0) pairs) × (r.0.1.items ≡ map (λ p. p.1) pairs)) }
    ensures fault { IfErr result (IsFaultOf (pairs_part count) text.now) }
{
    let mut first = Vec::with_capacity(alloc, count as usize)?;
    let mut second = Vec::with_capacity(alloc, count as usize)?;
    let mut rest = text;
    for _ in 0..count {
        let ((x, y), behind) = pair_at(rest)?;
        first.push(x)?;
        second.push(y)?;
        rest = behind;
    }
    Ok(((first, second), rest))
}

/// The pair of values in the next line, and what follows the line. It takes no memory.
fn pair_at(text: &[u8]) -> Result<((i128, i128), &[u8]), PartFault>
    ensures { IsReading (form_part pair_form) text.now result }
{
    if let Some((pair, rest)) = printed_pair(text) {
        return Ok((pair, rest));
    }
    let line = line_at(Spelling::Strict, text)?;
    line.with_rest(pair_in(line.bytes))
}

/// The pair of values that the text begins with as it is printed, and what follows its line. It is
/// read in one pass.
fn printed_pair(text: &[u8]) -> Option<((i128, i128), &[u8])>
    ensures { IfSome result (λ r. (text.now ≡ pair_line r.0 ++ r.1.now) × Fits r.0.0 × Fits r.0.1) }
{
    let words = behind_text(text, b"pair ")?;
    let (first, words) = printed_whole::<false>(words)?;
    let (second, words) = printed_whole::<false>(behind_byte(words, b' ')?)?;
    let rest = behind_byte(words, b'\n')?;
    Some(((i128::from(first), i128::from(second)), rest))
}

/// The pair of values of the line.
fn pair_in(line: &[u8]) -> Result<(i128, i128), Reason>
    ensures found { IfOk result (AreLine pair_form (word_texts line.now)) }
    ensures fault { IfErr result (BreaksForm pair_form (word_texts line.now)) }
{
    let Some((first, second)) = two_fields_of(line, b"pair") else {
        return Err(Reason::Form);
    };
    match wholes_of(first, second) {
        Some(pair) => Ok(pair),
        None => Err(Reason::Number),
    }
}

/// The two whole numbers that the words spell.
fn wholes_of(first: &[u8], second: &[u8]) -> Option<(i128, i128)>
    ensures found { IfSome result (λ p. (first.now ≡ signed_decimal p.0) ×
        (second.now ≡ signed_decimal p.1)
        × Fits p.0 × Fits p.1) }
    ensures none { IfNone result ((x y : ℤ) → first.now ≡ signed_decimal x →
        second.now ≡ signed_decimal y →
        Fits x → Fits y → ⊥) }
{
    let x = whole_of(first)?;
    let y = whole_of(second)?;
    Some((x, y))
}
