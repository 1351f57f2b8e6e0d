//! The lines of a step, read.
ghost use Rattle.std.specs.Prelude.{◌≡◌, ◌≢◌, ◌∷◌, ◌++◌, [], ℕ, List, codes, refl, IfOk, IfErr, IfSome, IfNone};
ghost use Rattle.std.specs.Prelude.{OnOk, IsTrue, ◌↔◌, pos, ◌<ℤ◌};
ghost use Rattle.gj_frac.specs.Fraction.{numerator};
ghost use Rattle.gj_frac.specs.declared.Frac.{Frac};
ghost use Rattle.gj_lex.specs.Words.{word_texts};
ghost use Rattle.gj_lex.specs.Name.{IsName};
ghost use Rattle.gj_problem_text.specs.NumberLines.{Tell, number_rule};
ghost use Rattle.gj_problem_text.specs.NumberWords.{IsNumberWord};
ghost use Rattle.gj_derivation.specs.declared.step.StepRule.{StepRule};
ghost use Rattle.gj_derivation_text.specs.StepLines.{rule_word, rule_kind, line_form};
ghost use Rattle.gj_derivation_text.specs.RuleWords.{rule_is_clear};
ghost use Rattle.gj_derivation_text.specs.LinesRead.{line_told};

use gj_derivation::StepRule;
use gj_forms::only_word;
use gj_frac::Frac;
use gj_lex::{Reason, Spelling};
use gj_line::{Field, Fraction, KnownWord, NameWord, Named, PositiveFraction};
use gj_problem_text::{number_of, two_words};
use std::alloc::AllocError;

/// The rule of a step, as a field of its first line.
#[derive(Clone, Copy)]
pub(crate) struct RuleWord;

impl<'a> Field<'a> for RuleWord {
    type Value = StepRule;

    ghost Told = { StepRule };

    ghost told = { λ v. v };

    ghost is_field = { λ f. Unit {0} };

    ghost form = { λ f. rule_kind };

    ghost is_clear = { λ f h. rule_is_clear };

    fn of_word(&self, _spelling: Spelling, word: &'a [u8]) -> Result<StepRule, Reason> {
        match rule_of(word) {
            Some(rule) => Ok(rule),
            None => Err(Reason::Form),
        }
    }

    fn push(&self, out: &mut Vec<u8>, value: StepRule) -> Result<(), AllocError> {
        out.push(b' ')?;
        out.extend_from_slice(rule_word(value))
    }
}

/// The rule that the word names.
fn rule_of(word: &[u8]) -> Option<StepRule>
    ensures found { IfSome result (λ rule. word.now ≡ rule_word rule) }
    ensures none { IfNone result ((rule : StepRule) → word.now ≡ rule_word rule → ⊥) }
{
    if word == b"linear".as_slice() {
        return Some(StepRule::Linear);
    }
    if word == b"gmic".as_slice() {
        return Some(StepRule::Gmic);
    }
    if word == b"function".as_slice() {
        return Some(StepRule::Function);
    }
    None
}

/// The word of the rule.
fn rule_word(rule: StepRule) -> &'static [u8]
    ensures { result.now ≡ rule_word rule }
{
    match rule {
        StepRule::Linear => b"linear",
        StepRule::Gmic => b"gmic",
        StepRule::Function => b"function",
    }
}

/// `step`
#[derive(Clone, Copy)]
pub(crate) struct StepWord;

impl KnownWord for StepWord {
    ghost spelled = { codes "step" };

    fn text(&self) -> &'static [u8] {
        b"step"
    }
}

/// `by`
#[derive(Clone, Copy)]
pub(crate) struct ByWord;

impl KnownWord for ByWord {
    ghost spelled = { codes "by" };

    fn text(&self) -> &'static [u8] {
        b"by"
    }
}

/// `upper`
#[derive(Clone, Copy)]
pub(crate) struct UpperWord;

impl KnownWord for UpperWord {
    ghost spelled = { codes "upper" };

    fn text(&self) -> &'static [u8] {
        b"upper"
    }
}

/// `times`
#[derive(Clone, Copy)]
pub(crate) struct TimesWord;

impl KnownWord for TimesWord {
    ghost spelled = { codes "times" };

    fn text(&self) -> &'static [u8] {
        b"times"
    }
}

/// `claim`
#[derive(Clone, Copy)]
pub(crate) struct ClaimWord;

impl KnownWord for ClaimWord {
    ghost spelled = { codes "claim" };

    fn text(&self) -> &'static [u8] {
        b"claim"
    }
}

/// `term`
#[derive(Clone, Copy)]
pub(crate) struct TermWord;

impl KnownWord for TermWord {
    ghost spelled = { codes "term" };

    fn text(&self) -> &'static [u8] {
        b"term"
    }
}

/// `step NAME RULE`, the first line of a step.
pub(crate) const STEP: Named<StepWord, (NameWord, (RuleWord, ()))> = Named {
    word: StepWord,
    fields: (NameWord, (RuleWord, ())),
};

/// `by NAME MULTIPLIER`.
pub(crate) const BY: Named<ByWord, (NameWord, (Fraction, ()))> = Named {
    word: ByWord,
    fields: (NameWord, (Fraction, ())),
};

/// `upper NAME`.
pub(crate) const UPPER: Named<UpperWord, (NameWord, ())> = Named {
    word: UpperWord,
    fields: (NameWord, ()),
};

/// `times FACTOR`.
pub(crate) const TIMES: Named<TimesWord, (PositiveFraction, ())> = Named {
    word: TimesWord,
    fields: (PositiveFraction, ()),
};

/// `claim RIGHT`.
pub(crate) const CLAIM: Named<ClaimWord, (Fraction, ())> = Named {
    word: ClaimWord,
    fields: (Fraction, ()),
};

/// `term NAME VALUE`.
pub(crate) const TERM: Named<TermWord, (NameWord, (Fraction, ()))> = Named {
    word: TermWord,
    fields: (NameWord, (Fraction, ())),
};

/// A line of a step behind its first with what it tells: a claim as it is spelled.
#[derive(Clone, Copy)]
pub(crate) enum Line<'a> {
    /// A multiplier of the line with this name.
    By(&'a [u8], Frac),
    /// The column with this name is turned by its upper bound.
    Upper(&'a [u8]),
    /// The factor of the step.
    Times(Frac),
    /// The word of the right side of the claim.
    Claim(&'a [u8]),
    /// A term of the claim: the name of its column, and its value.
    Term(&'a [u8], Frac),
}

/// What a line tells that begins with the word and goes on so, or which rule it breaks.
pub(crate) fn line_with<'a>(word: &[u8], rest: &'a [u8]) -> Result<Line<'a>, Reason>
    ensures told { IfOk result (λ l. Tell line_form (word.now ∷ word_texts rest.now)
        (line_told l)) }
    ensures broken { IfErr result
        ((number_rule line_form).Breaks (word.now ∷ word_texts rest.now)) }
{
    if word == b"term".as_slice() {
        return term_in(rest);
    }
    if word == b"by".as_slice() {
        return by_in(rest);
    }
    if word == b"claim".as_slice() {
        return claim_in(rest);
    }
    if word == b"upper".as_slice() {
        return upper_in(rest);
    }
    if word == b"times".as_slice() {
        return times_in(rest);
    }
    Err(Reason::Form)
}

/// What `by` tells with these words behind it.
fn by_in(rest: &[u8]) -> Result<Line<'_>, Reason>
    ensures told { IfOk result (λ l. Tell line_form (codes "by" ∷ word_texts rest.now)
        (line_told l)) }
    ensures broken { IfErr result
        ((number_rule line_form).Breaks (codes "by" ∷ word_texts rest.now)) }
{
    let Some((name, word)) = name_and_word(rest) else {
        return Err(Reason::Form);
    };
    match number_of(word) {
        Some(value) => Ok(Line::By(name, value)),
        None => Err(Reason::Number),
    }
}

/// What `upper` tells with these words behind it.
fn upper_in(rest: &[u8]) -> Result<Line<'_>, Reason>
    ensures told { IfOk result (λ l. Tell line_form (codes "upper" ∷ word_texts rest.now)
        (line_told l)) }
    ensures broken { IfErr result
        ((number_rule line_form).Breaks (codes "upper" ∷ word_texts rest.now)) }
{
    match only_name(rest) {
        Some(name) => Ok(Line::Upper(name)),
        None => Err(Reason::Form),
    }
}

/// What `times` tells with these words behind it.
fn times_in(rest: &[u8]) -> Result<Line<'_>, Reason>
    ensures told { IfOk result (λ l. Tell line_form (codes "times" ∷ word_texts rest.now)
        (line_told l)) }
    ensures broken { IfErr result
        ((number_rule line_form).Breaks (codes "times" ∷ word_texts rest.now)) }
{
    let Some(word) = only_word(rest) else {
        return Err(Reason::Form);
    };
    match positive_of(word) {
        Some(factor) => Ok(Line::Times(factor)),
        None => Err(Reason::Number),
    }
}

/// What `claim` tells with these words behind it.
fn claim_in(rest: &[u8]) -> Result<Line<'_>, Reason>
    ensures told { IfOk result (λ l. Tell line_form (codes "claim" ∷ word_texts rest.now)
        (line_told l)) }
    ensures broken { IfErr result
        ((number_rule line_form).Breaks (codes "claim" ∷ word_texts rest.now)) }
{
    match only_word(rest) {
        Some(word) => Ok(Line::Claim(word)),
        None => Err(Reason::Form),
    }
}

/// What `term` tells with these words behind it.
fn term_in(rest: &[u8]) -> Result<Line<'_>, Reason>
    ensures told { IfOk result (λ l. Tell line_form (codes "term" ∷ word_texts rest.now)
        (line_told l)) }
    ensures broken { IfErr result
        ((number_rule line_form).Breaks (codes "term" ∷ word_texts rest.now)) }
{
    let Some((name, word)) = name_and_word(rest) else {
        return Err(Reason::Form);
    };
    match number_of(word) {
        Some(value) => Ok(Line::Term(name, value)),
        None => Err(Reason::Number),
    }
}

/// The two words of the line, if it has two and the first is a name.
fn name_and_word(line: &[u8]) -> Option<(&[u8], &[u8])>
    ensures found { IfSome result (λ r. (word_texts line.now ≡ r.0.now ∷ r.1.now ∷ []) ×
        IsName r.0.now) }
    ensures none { IfNone result ((name word : List ℕ) →
        word_texts line.now ≡ name ∷ word ∷ [] → IsName name → ⊥) }
{
    let (name, word) = two_words(line)?;
    if !is_name(name) {
        return None;
    }
    Some((name, word))
}

/// The name that the line is.
fn only_name(line: &[u8]) -> Option<&[u8]>
    ensures found { IfSome result (λ name. (word_texts line.now ≡ name.now ∷ []) ×
        IsName name.now) }
    ensures none { IfNone result ((name : List ℕ) →
        word_texts line.now ≡ name ∷ [] → IsName name → ⊥) }
{
    let name = only_word(line)?;
    if !is_name(name) {
        return None;
    }
    Some(name)
}

/// Whether the word is a name.
fn is_name(word: &[u8]) -> bool
    ensures { IsTrue result ↔ IsName word.now }
{
    NameWord.of_word(Spelling::Lenient, word).is_ok()
}

/// The number above 0 that the word spells.
fn positive_of(word: &[u8]) -> Option<Frac>
    ensures found { IfSome result (λ x. IsNumberWord word.now x × (pos 0 <ℤ numerator x)) }
    ensures none { IfNone result ((x : Frac) → IsNumberWord word.now x → pos 0 <ℤ numerator x →
        ⊥) }
{
    let x = number_of(word)?;
    if x.num() <= 0 {
        return None;
    }
    Some(x)
}
