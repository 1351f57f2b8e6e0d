//! The lines of cuts, read.
ghost use Rattle.std.specs.Prelude.{ℕ, List, ◌≡◌, ◌++◌, codes, IfOk, IfErr, IfSome, IfNone, OnSome};
ghost use Rattle.gj_frac.specs.declared.Frac.{Frac};
ghost use Rattle.gj_forms.specs.LineFaults.{IsRefusedFor};
ghost use Rattle.gj_lex.specs.Name.{IsName};
ghost use Rattle.gj_lex.specs.NumberText.{fraction_text};
ghost use Rattle.gj_lex.specs.Words.{word_texts};
ghost use Rattle.gj_forms.specs.Parts.{BeginsWithWord, IsFaultOf, IsListReading, IsReading};
ghost use Rattle.gj_forms.specs.TextLines.{HasLine};
ghost use Rattle.gj_lex.specs.declared.spelling.Spelling.TheVariants.{Strict};
ghost use Rattle.gj_lex.specs.declared.reason.Reason.TheVariants.{Number};
ghost use Rattle.gj_forms.specs.LineForms.{AreOfForm, AreLine, BreaksForm};
ghost use Rattle.gj_proof.specs.ProofText.{reason_word, term_line};
ghost use Rattle.gj_proof.specs.ProofGrammar.{head_form, term_form, form_part, rule_part};
ghost use Rattle.gj_proof.specs.ProofGrammar.{terms_part, row_part, rows_part};
ghost use Rattle.gj_proof.specs.HeadWords.{texts_of_head};
ghost use Rattle.gj_proof.specs.declared.cut.SkipReason.{SkipReason};

use crate::cut::{CutLine, CutRule, CutTerm, SkipReason};
use crate::fields::{number_of, split_at_byte, three_fields_of};
use gj_forms::{
    LineFault, PartFault, TextLine, begins_with_line, behind_text, line_at, line_with_word,
    name_of, two_fields_of, words_at,
};
use gj_frac::Frac;
use gj_function_lines::function_at;
use gj_lex::{Name, Reason, Spelling, behind_byte, printed_fraction};
use gj_shape::List;
use std::alloc::Global;

/// What the first line of a row tells.
#[derive(Clone, Copy)]
pub(crate) enum RowKind {
    /// The terms of its cut follow.
    WithCut,
    /// It is passed over.
    Skipped(SkipReason),
}

/// The first line of a row.
#[derive(Drop)]
pub(crate) struct RowHead {
    pub kind: RowKind,
    /// The name of the basic variable.
    pub name: Name,
    /// The right side.
    pub right: Frac,
}

/// The words of the first line of a row that differ from line to line.
#[derive(Clone, Copy)]
pub(crate) struct HeadWords<'a> {
    pub kind: RowKind,
    pub name: &'a [u8],
    pub right: &'a [u8],
}

// ---- the rule

/// The rule that the next lines tell, and what follows them: the line `rule gmic`, or the lines of
/// a function.
pub(crate) fn rule_at(alloc: Global, text: &[u8]) -> Result<(CutRule, &[u8]), PartFault>
    ensures { IsReading rule_part text.now result }
{
    if begins_with_line(Spelling::Strict, text, b"rule gmic") {
        let rest = words_at(Spelling::Strict, text, b"rule gmic")?;
        return Ok((CutRule::Gmic, rest));
    }
    let (shape, rest) = function_at(alloc, Spelling::Strict, text)?;
    Ok((CutRule::Table(shape), rest))
}

// ---- rows

/// The rows up to a line `end`, and that line with what follows it.
pub(crate) fn rows_at(alloc: Global, text: &[u8]) -> Result<(Vec<CutLine>, &[u8]), PartFault>
    ensures { IsListReading rows_part text.now result }
{
    let mut rows = Vec::new(alloc);
    let mut rest = text;
    while !begins_with_line(Spelling::Strict, rest, b"end") {
        let (row, behind) = row_at(alloc, rest)?;
        rows.push(row)?;
        rest = behind;
    }
    Ok((rows, rest))
}

/// The row in the next lines, and what follows them.
fn row_at(alloc: Global, text: &[u8]) -> Result<(CutLine, &[u8]), PartFault>
    ensures { IsReading row_part text.now result }
{
    let (head, rest) = head_at(alloc, text)?;
    match head.kind {
        RowKind::WithCut => {
            let (terms, rest) = terms_at(alloc, rest)?;
            Ok((CutLine::Cut(head.name, head.right, List::of(terms)), rest))
        }
        RowKind::Skipped(reason) => Ok((CutLine::Skip(head.name, head.right, reason), rest)),
    }
}

/// What the first line of a row tells, and what follows the line.
fn head_at(alloc: Global, text: &[u8]) -> Result<(RowHead, &[u8]), PartFault>
    ensures { IsReading (form_part head_form) text.now result }
{
    let line = line_at(Spelling::Strict, text)?;
    match head_in(alloc, line.bytes) {
        Ok(head) => Ok((head, line.rest)),
        Err(LineFault::Broken(reason)) => Err(PartFault::at(line.start, reason)),
        Err(LineFault::Memory(error)) => Err(PartFault::Memory(error)),
    }
}

/// What the line tells, if it is the first of a row.
fn head_in(alloc: Global, line: &[u8]) -> Result<RowHead, LineFault>
    ensures found { IfOk result (AreLine head_form (word_texts line.now)) }
    ensures fault { IfErr result (IsRefusedFor (BreaksForm head_form (word_texts line.now))) }
{
    let Some(words) = head_words(line) else {
        return Err(LineFault::Broken(Reason::Form));
    };
    let name = name_of(alloc, words.name)?;
    match number_of(words.right) {
        Ok(right) => Ok(RowHead {
            kind: words.kind,
            name,
            right,
        }),
        Err(reason) => Err(LineFault::Broken(reason)),
    }
}

/// The words of the line, if they are of the first line of a row.
fn head_words(line: &[u8]) -> Option<HeadWords<'_>>
    ensures found { IfSome result
        (λ w. word_texts line.now ≡ texts_of_head w.kind w.name.now w.right.now) }
    ensures none { IfNone result (AreOfForm head_form (word_texts line.now) → ⊥) }
{
    if let Some((name, right)) = two_fields_of(line, b"cut") {
        return Some(HeadWords {
            kind: RowKind::WithCut,
            name,
            right,
        });
    }
    let (name, right, word) = three_fields_of(line, b"skip")?;
    let reason = skip_reason(word)?;
    Some(HeadWords {
        kind: RowKind::Skipped(reason),
        name,
        right,
    })
}

/// The reason that the word names.
fn skip_reason(word: &[u8]) -> Option<SkipReason>
    ensures found { IfSome result (λ r. word.now ≡ reason_word r) }
    ensures none { IfNone result ((r : SkipReason) → word.now ≡ reason_word r → ⊥) }
{
    for reason in [SkipReason::Integral, SkipReason::Other] {
        if word == reason.word().as_bytes() {
            return Some(reason);
        }
    }
    None
}

// ---- terms

/// The terms in the next lines, as long as these begin with `term`, and what follows them.
fn terms_at(alloc: Global, text: &[u8]) -> Result<(Vec<CutTerm>, &[u8]), PartFault>
    ensures { IsListReading terms_part text.now result }
{
    let mut terms = Vec::new(alloc);
    let mut rest = text;
    while let Some((term, behind)) = next_term(alloc, rest)? {
        terms.push(term)?;
        rest = behind;
    }
    Ok((terms, rest))
}

/// The term in the next line, and what follows that line; none if it does not begin with `term`.
fn next_term(alloc: Global, text: &[u8]) -> Result<Option<(CutTerm, &[u8])>, PartFault>
    ensures found { IfOk result (λ next. IfSome next
        (λ r. (form_part term_form).Reads text.now r.0 r.1.now)) }
    ensures begins { IfOk result (λ next. OnSome next (BeginsWithWord Strict
        (codes "term") text.now)) }
    ensures none { IfOk result (λ next. IfNone next (BeginsWithWord Strict
        (codes "term") text.now → ⊥)) }
    ensures fault { IfErr result (λ e. BeginsWithWord Strict (codes "term") text.now
        × IsFaultOf (form_part term_form) text.now e) }
{
    if let Some((term, rest)) = printed_term(alloc, text) {
        return Ok(Some((term, rest)));
    }
    match line_with_word(Spelling::Strict, text, b"term") {
        Some(line) => Ok(Some(term_at(alloc, line)?)),
        None => Ok(None),
    }
}

/// The term that the text begins with as it is printed, and what follows its line. It is read in
/// one pass; none also if there is no memory for its name.
fn printed_term(alloc: Global, text: &[u8]) -> Option<(CutTerm, &[u8])>
    ensures { IfSome result (λ r. (text.now ≡ term_line r.0 ++ r.1.now) × IsName r.0.name) }
{
    let words = behind_text(text, b"term ")?;
    let (name, words) = split_at_byte(words, b' ')?;
    let (entry, words) = printed_fraction::<true>(words)?;
    let (cut, words) = printed_fraction::<true>(behind_byte(words, b' ')?)?;
    let rest = behind_byte(words, b'\n')?;
    let name = name_of(alloc, name).ok()?;
    Some((CutTerm { name, entry, cut }, rest))
}

/// The term in the line, and what follows the line.
fn term_at<'a>(alloc: Global, line: TextLine<'a>) -> Result<(CutTerm, &'a [u8]), PartFault>
    ensures found { (text : List ℕ) →
        HasLine Strict text line.entry.start.now (word_texts line.entry.bytes.now)
        line.entry.rest.now →
        IfOk result (λ r. (form_part term_form).Reads text r.0 r.1.now) }
    ensures fault { (text : List ℕ) →
        HasLine Strict text line.entry.start.now (word_texts line.entry.bytes.now)
        line.entry.rest.now →
        IfErr result (IsFaultOf (form_part term_form) text) }
{
    match term_in(alloc, line.bytes) {
        Ok(term) => Ok((term, line.rest)),
        Err(LineFault::Broken(reason)) => Err(PartFault::at(line.start, reason)),
        Err(LineFault::Memory(error)) => Err(PartFault::Memory(error)),
    }
}

/// The term of the line.
fn term_in(alloc: Global, line: &[u8]) -> Result<CutTerm, LineFault>
    ensures found { IfOk result (AreLine term_form (word_texts line.now)) }
    ensures fault { IfErr result (IsRefusedFor (BreaksForm term_form (word_texts line.now))) }
{
    let Some((word, entry, cut)) = three_fields_of(line, b"term") else {
        return Err(LineFault::Broken(Reason::Form));
    };
    let name = name_of(alloc, word)?;
    match numbers_of(entry, cut) {
        Ok((entry, cut)) => Ok(CutTerm { name, entry, cut }),
        Err(reason) => Err(LineFault::Broken(reason)),
    }
}

/// The two fractions that the words spell.
fn numbers_of(first: &[u8], second: &[u8]) -> Result<(Frac, Frac), Reason>
    ensures found { IfOk result (λ r. (first.now ≡ fraction_text r.0) ×
        (second.now ≡ fraction_text r.1)) }
    ensures fault { IfErr result (λ e. (e ≡ Number) × ((x y : Frac) → first.now ≡ fraction_text x →
        second.now ≡ fraction_text y → ⊥)) }
{
    let x = number_of(first)?;
    let y = number_of(second)?;
    Ok((x, y))
}
