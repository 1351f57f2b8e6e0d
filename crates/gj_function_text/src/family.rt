//! Lines that name a function of a family, read.
ghost use Rattle.std.specs.Prelude.{◌≡◌, ◌↔◌, All, IfSome, IfNone, IfOk, IfErr, IsTrue};
ghost use Rattle.std.specs.Str.Parse.{digits_value};
ghost use Rattle.gj_forms.specs.LineFaults.{IsRefusedFor};
ghost use Rattle.gj_lex.specs.Words.{word_texts};
ghost use Rattle.gj_forms.specs.Parts.{IsReading};
ghost use Rattle.gj_lex.specs.SpelledNumbers.{IsCountWord};
ghost use Rattle.gj_forms.specs.LineForms.{AreOfForm};
ghost use Rattle.gj_function_text.specs.FamilyLine.{family_form, AreSigns, IsReasonOf, family_rule};
ghost use Rattle.gj_function_text.specs.FamilyRead.{gmic_words, half_words, two_slope_words};
ghost use Rattle.gj_function_text.specs.FamilyRead.{texts_of, IsSign, IsCut};
ghost use Rattle.gj_function_text.specs.FunctionText.{family_part};

use gj_family::{FamilyFault, gmic, half, two_slope};
use gj_forms::{LineFault, PartFault, behind_name, field_of, line_at, two_fields_of};
use gj_lex::{Reason, Spelling, count_of, fraction_of, is_count};
use gj_shape::Shape;
use std::alloc::{AllocError, Global};

/// The words of a line that names a function of a family.
#[derive(Clone, Copy)]
pub(crate) enum LineWords<'a> {
    /// `family gmic F`.
    Gmic(&'a [u8]),
    /// `family half F`.
    Half(&'a [u8]),
    /// `family two-slope K SIGNS`.
    TwoSlope(&'a [u8], &'a [u8]),
}

/// The function of a family that the next line names, and what follows the line.
pub(crate) fn family_at(alloc: Global, text: &[u8]) -> Result<(Shape, &[u8]), PartFault>
    ensures { IsReading family_part text.now result }
{
    let line = line_at(Spelling::Lenient, text)?;
    match family_in(alloc, line.bytes) {
        Ok(shape) => Ok((shape, line.rest)),
        Err(LineFault::Broken(reason)) => Err(PartFault::at(line.start, reason)),
        Err(LineFault::Memory(error)) => Err(PartFault::Memory(error)),
    }
}

/// The function that the line names, or why it names none.
fn family_in(alloc: Global, line: &[u8]) -> Result<Shape, LineFault>
    ensures found { IfOk result (family_rule.Spells (word_texts line.now)) }
    ensures broken { IfErr result (IsRefusedFor (family_rule.Breaks (word_texts line.now))) }
{
    match line_words(line) {
        Some(words) => family_of(alloc, words),
        None => Err(LineFault::Broken(Reason::Form)),
    }
}

/// The words of the line, if they are of a line that names a function.
fn line_words(line: &[u8]) -> Option<LineWords<'_>>
    ensures found { IfSome result (λ w. word_texts line.now ≡ texts_of w) }
    ensures none { IfNone result (AreOfForm family_form (word_texts line.now) → ⊥) }
{
    let line = behind_name(line, b"family")?;
    if let Some(word) = field_of(line, b"gmic") {
        return Some(LineWords::Gmic(word));
    }
    if let Some(word) = field_of(line, b"half") {
        return Some(LineWords::Half(word));
    }
    let (count, signs) = two_fields_of(line, b"two-slope")?;
    Some(LineWords::TwoSlope(count, signs))
}

/// The function that the words name, or why they name none.
fn family_of(alloc: Global, words: LineWords<'_>) -> Result<Shape, LineFault>
    ensures found { IfOk result (family_rule.Spells (texts_of words.entry)) }
    ensures broken { IfErr result (IsRefusedFor (family_rule.Breaks (texts_of words.entry))) }
{
    match words {
        LineWords::Gmic(word) => gmic_of(alloc, word),
        LineWords::Half(word) => half_of(alloc, word),
        LineWords::TwoSlope(count, signs) => two_slope_of(alloc, count, signs),
    }
}

/// The mixed-integer cut whose f the word spells.
fn gmic_of(alloc: Global, word: &[u8]) -> Result<Shape, LineFault>
    ensures found { IfOk result (family_rule.Spells (gmic_words word.now)) }
    ensures broken { IfErr result (IsRefusedFor (family_rule.Breaks (gmic_words word.now))) }
{
    let Some(f) = fraction_of(Spelling::Lenient, word) else {
        return Err(LineFault::Broken(Reason::Number));
    };
    match gmic(alloc, f) {
        Ok(shape) => Ok(shape),
        Err(fault) => Err(line_fault(fault)),
    }
}

/// The function that is 1/2 almost everywhere, whose f the word spells.
fn half_of(alloc: Global, word: &[u8]) -> Result<Shape, LineFault>
    ensures found { IfOk result (family_rule.Spells (half_words word.now)) }
    ensures broken { IfErr result (IsRefusedFor (family_rule.Breaks (half_words word.now))) }
{
    let Some(f) = fraction_of(Spelling::Lenient, word) else {
        return Err(LineFault::Broken(Reason::Number));
    };
    match half(alloc, f) {
        Ok(shape) => Ok(shape),
        Err(fault) => Err(line_fault(fault)),
    }
}

/// The function with two slopes whose place of f and whose signs the words spell.
fn two_slope_of(alloc: Global, count: &[u8], word: &[u8]) -> Result<Shape, LineFault>
    ensures found { IfOk result (family_rule.Spells (two_slope_words count.now word.now)) }
    ensures broken { IfErr result (IsRefusedFor (family_rule.Breaks
        (two_slope_words count.now word.now))) }
{
    if !is_count(Spelling::Lenient, count) {
        return Err(LineFault::Broken(Reason::Number));
    }
    if !are_signs(word) {
        return Err(LineFault::Broken(Reason::Signs));
    }
    let place = cut_count(count);
    match signs_of(alloc, word) {
        Ok(signs) => match two_slope(alloc, place, signs.as_slice()) {
            Ok(shape) => Ok(shape),
            Err(fault) => Err(line_fault(fault)),
        },
        Err(error) => Err(LineFault::Memory(error)),
    }
}

/// The count that the word spells, or 2^32 - 1 if it is higher: no function has a place so high.
fn cut_count(word: &[u8]) -> u32
    requires { IsCountWord Spelling.Lenient word.now (digits_value 10 word.now) }
    ensures { IsCut (digits_value 10 word.now) result }
{
    match count_of(Spelling::Lenient, word) {
        Some(count) => count,
        None => u32::MAX,
    }
}

/// Whether each byte is `+` or `-`.
fn are_signs(word: &[u8]) -> bool
    ensures { IsTrue result ↔ All IsSign word.now }
{
    word.iter().all(|byte| *byte == b'+' || *byte == b'-')
}

/// The signs that the bytes spell: true for `+` and false for `-`.
fn signs_of(alloc: Global, word: &[u8]) -> Result<Vec<bool>, AllocError>
    requires { All IsSign word.now }
    ensures { IfOk result (λ signs. AreSigns word.now signs.items) }
{
    let mut signs = Vec::with_capacity(alloc, word.len())?;
    for byte in word {
        signs.push(*byte == b'+')?;
    }
    Ok(signs)
}

/// How a line is refused for the fault of its family.
fn line_fault(fault: FamilyFault) -> LineFault
    ensures { IsRefusedFor (IsReasonOf fault) result }
{
    match fault {
        FamilyFault::TooManyPieces => LineFault::Broken(Reason::Pieces),
        FamilyFault::BadSigns => LineFault::Broken(Reason::Signs),
        FamilyFault::BadF => LineFault::Broken(Reason::BadF),
        FamilyFault::NoSlopes => LineFault::Broken(Reason::Slopes),
        FamilyFault::Memory(error) => LineFault::Memory(error),
    }
}
