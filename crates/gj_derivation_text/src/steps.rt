//! The steps of a derivation, read.
ghost use Rattle.std.specs.Prelude.{◌≡◌, ◌<◌, ◌≤◌, ◌↔◌, ◌∷◌, ◌++◌, [], None, nat_eq, IsTrue, List, ℕ, ◌⊎◌, codes};
ghost use Rattle.std.specs.Prelude.{length, IfOk, IfErr, IfSome, MatchOption, OnOk};
ghost use Rattle.std.specs.Cmp.Lexicographic.{pointwise};
ghost use Rattle.std.specs.List.{position};
ghost use Rattle.std.proofs.Common.{inl, inr};
ghost use Rattle.gj_lex.specs.Name.{IsName};
ghost use Rattle.gj_lex.specs.Words.{word_texts};
ghost use Rattle.gj_lex.specs.declared.spelling.Spelling.TheVariants.{Lenient};
ghost use Rattle.gj_forms.specs.LineFaults.{IsRefusedFor};
ghost use Rattle.gj_forms.specs.Parts.{loop_part, IsFaultOf, IsReading, IsRefusal};
ghost use Rattle.gj_derivation.specs.declared.step.StepRule.TheVariants.{Function};
ghost use Rattle.gj_problem_text.specs.Tasks.{most_columns};
ghost use Rattle.gj_derivation_text.specs.OpenSteps.{begun, AreUsedBy, EndsHere, step_line_rule};
ghost use Rattle.gj_derivation_text.specs.OpenSteps.{next_of_step, lines_of_step, index_in};
ghost use Rattle.gj_derivation_text.specs.DerivationText.{head_rule, placed_line, names_of, with_step};
ghost use Rattle.gj_derivation_text.specs.DerivationText.{step_part, next_step, Begins};
ghost use Rattle.gj_derivation_text.specs.DerivationText.{RefusesHead};

use crate::drafts::Drafts;
use crate::lines::{STEP, line_with};
use crate::names::Names;
use crate::open::{OpenStep, Used, add_line, begun, draft_of, none_used};
use crate::problem::push_name;
use crate::words::{goes_on, word_line_at};
use gj_derivation::{Draft, StepRule};
use gj_forms::{LineFault, PartFault, begins_with_word, words_at};
use gj_lex::{Reason, Spelling};
use gj_line::Fields;
use std::alloc::Global;

/// The greatest number of steps.
const MOST_STEPS: usize = 10_000;

/// What the first line of a step tells, and where it stands.
#[derive(Clone, Copy)]
pub(crate) struct Head<'a> {
    /// The name of the step.
    pub name: &'a [u8],
    /// Its rule.
    pub rule: StepRule,
    /// How many bytes of the text are left from the line on.
    pub left: usize,
    /// What follows the line.
    pub rest: &'a [u8],
}

/// Reads steps to the drafts, up to the line `end`, and gives what follows that line. The names are
/// those of the drafts.
pub(crate) fn steps_at<'a>(
    alloc: Global,
    has_function: bool,
    names: &mut Names<'a>,
    drafts: &mut Drafts,
    text: &'a [u8],
) -> Result<&'a [u8], PartFault>
    requires few { length drafts.old.task.names ≤ most_columns }
    requires names { names.old ≡ names_of names.old.drafts drafts.old }
    ensures found { IfOk result (λ rest. (loop_part (next_step names.old.drafts has_function)
        drafts.old).Reads text.now drafts.new rest.now) }
    ensures fault { IfErr result (IsFaultOf
        (loop_part (next_step names.old.drafts has_function) drafts.old) text.now) }
{
    let mut rest = text;
    while !begins_with_word(Spelling::Lenient, rest, b"end") {
        rest = step_at(alloc, has_function, names, drafts, rest)?;
    }
    let rest = words_at(Spelling::Lenient, rest, b"end")?;
    Ok(rest)
}

/// Reads the next step to the drafts, and gives what follows it.
fn step_at<'a>(
    alloc: Global,
    has_function: bool,
    names: &mut Names<'a>,
    drafts: &mut Drafts,
    text: &'a [u8],
) -> Result<&'a [u8], PartFault>
    requires few { length drafts.old.task.names ≤ most_columns }
    requires names { names.old ≡ names_of names.old.drafts drafts.old }
    ensures found { IfOk result (λ rest. (step_part names.old.drafts has_function
        drafts.old).Reads text.now drafts.new rest.now) }
    ensures few { OnOk result (length drafts.new.task.names ≤ most_columns) }
    ensures names { OnOk result (names.new ≡ names_of names.old.drafts drafts.new) }
    ensures shorter { IfOk result (λ rest. length rest.now < length text.now) }
    ensures fault { IfErr result (IsFaultOf (step_part names.old.drafts has_function
        drafts.old) text.now) }
{
    let head = head_at(has_function, names, drafts, text)?;
    let (draft, rest) = lines_of_step_at(alloc, names, head.rule, head.rest)?;
    push_step(alloc, names, drafts, head, draft)?;
    Ok(rest)
}

/// What the first line of the next step tells.
fn head_at<'a>(
    has_function: bool,
    names: &Names<'a>,
    drafts: &Drafts,
    text: &'a [u8],
) -> Result<Head<'a>, PartFault>
    requires { names.now.lines ≡ drafts.now.lines }
    ensures name { IfOk result (λ h. IsName h.name.now) }
    ensures new { IfOk result (λ h. index_in drafts.now.lines h.name.now ≡ None) }
    ensures shorter { IfOk result (λ h. length h.rest.now < length text.now) }
    ensures found { IfOk result (λ h. (placed_line Lenient (head_rule has_function drafts.now)).Reads
        text.now ((h.name.now, (h.rule, tt)), h.left) h.rest.now) }
    ensures fault { IfErr result (IsFaultOf
        (placed_line Lenient (head_rule has_function drafts.now)) text.now) }
{
    let line = word_line_at(text)?;
    match head_in(has_function, names, drafts, line.word, line.behind) {
        Ok((name, rule)) => Ok(Head {
            name,
            rule,
            left: line.start.len(),
            rest: line.rest,
        }),
        Err(reason) => Err(PartFault::at(line.start, reason)),
    }
}

/// What a line tells that begins with the word and goes on so, as the first line of a step.
fn head_in<'a>(
    has_function: bool,
    names: &Names<'a>,
    drafts: &Drafts,
    word: &[u8],
    behind: &'a [u8],
) -> Result<(&'a [u8], StepRule), Reason>
    requires { names.now.lines ≡ drafts.now.lines }
    ensures name { IfOk result (λ h. IsName h.0.now) }
    ensures new { IfOk result (λ h. index_in drafts.now.lines h.0.now ≡ None) }
    ensures found { IfOk result (λ h. (head_rule has_function drafts.now).Spells
        (word.now ∷ word_texts behind.now) (h.0.now, (h.1, tt))) }
    ensures broken { IfErr result ((head_rule has_function drafts.now).Breaks
        (word.now ∷ word_texts behind.now)) }
{
    if !is_step(word) {
        return Err(Reason::Form);
    }
    match STEP.fields.of_words(Spelling::Lenient, behind) {
        Ok((name, (rule, ()))) => match objection_to(has_function, names, drafts, name, rule) {
            None => Ok((name, rule)),
            Some(reason) => Err(reason),
        },
        Err(reason) => Err(reason),
    }
}

/// Whether the word is `step`.
fn is_step(word: &[u8]) -> bool
    ensures { IsTrue result ↔ (word.now ≡ codes "step") }
{
    word == b"step".as_slice()
}

/// Why no step with this name and this rule can begin, if none can.
fn objection_to(
    has_function: bool,
    names: &Names<'_>,
    drafts: &Drafts,
    name: &[u8],
    rule: StepRule,
) -> Option<Reason>
    requires { names.now.lines ≡ drafts.now.lines }
    ensures { MatchOption result
        (Begins has_function drafts.now (name.now, (rule, tt)) (name.now, (rule, tt)))
        (RefusesHead has_function drafts.now (name.now, (rule, tt))) }
{
    if !is_allowed(has_function, rule) {
        return Some(Reason::Form);
    }
    if drafts.steps.as_slice().len() >= MOST_STEPS {
        return Some(Reason::Large);
    }
    if names.lines.place_of(name).is_some() {
        return Some(Reason::Place);
    }
    None
}

/// Whether a step may have the rule: one by a function needs a function in front.
fn is_allowed(has_function: bool, rule: StepRule) -> bool
    ensures { IsTrue result ↔ (rule ≡ Function → IsTrue has_function) }
{
    match rule {
        StepRule::Linear => true,
        StepRule::Gmic => true,
        StepRule::Function => has_function,
    }
}

/// Adds the step to the drafts.
fn push_step<'a>(
    alloc: Global,
    names: &mut Names<'a>,
    drafts: &mut Drafts,
    head: Head<'a>,
    draft: Draft,
) -> Result<(), PartFault>
    requires name { IsName head.name.now }
    requires new { index_in drafts.old.lines head.name.now ≡ None }
    requires names { names.old ≡ names_of names.old.drafts drafts.old }
    ensures added { OnOk result (drafts.new
        ≡ with_step drafts.old head.entry.name.now head.entry.left draft) }
    ensures names { OnOk result (names.new ≡ names_of names.old.drafts drafts.new) }
    ensures memory { IfErr result (λ e. IsRefusal e → ⊥) }
{
    match push_name(alloc, &mut names.lines, &mut drafts.lines, head.name) {
        Ok(()) => {}
        Err(LineFault::Memory(error)) => return Err(PartFault::Memory(error)),
        Err(LineFault::Broken(_)) => unreachable!(),
    }
    drafts.steps.push(draft)?;
    drafts.left.push(head.left)?;
    Ok(())
}

/// The step by the rule, whose further lines the text has, and what follows them.
fn lines_of_step_at<'a>(
    alloc: Global,
    names: &Names<'a>,
    rule: StepRule,
    text: &'a [u8],
) -> Result<(Draft, &'a [u8]), PartFault>
    requires { length names.now.columns ≤ most_columns }
    ensures read { IsReading (lines_of_step names.now (begun rule)) text.now result }
    ensures shorter { IfOk result (λ r. length r.1.now ≤ length text.now) }
{
    let mut step = begun(alloc, rule);
    let mut used = none_used(alloc, rule);
    let mut rest = text;
    while let Some(behind) = step_line_at(names, &mut used, &mut step, rest)? {
        rest = behind;
    }
    Ok((draft_of(step), rest))
}

/// Reads the next line to the step, if the step does not end, and gives what follows it.
fn step_line_at<'a>(
    names: &Names<'a>,
    used: &mut Used,
    step: &mut OpenStep,
    text: &'a [u8],
) -> Result<Option<&'a [u8]>, PartFault>
    requires few { length names.now.columns ≤ most_columns }
    requires used { AreUsedBy used.old step.old }
    ensures found { IfOk result (λ next. MatchOption next
        (EndsHere names.now step.old text.now × (step.new ≡ step.old))
        (λ rest. (next_of_step names.now step.old).Reads text.now (inl step.new) rest.now)) }
    ensures used { OnOk result (AreUsedBy used.new step.new) }
    ensures shorter { IfOk result (λ next. IfSome next (λ rest.
        length rest.now < length text.now)) }
    ensures fault { IfErr result (IsFaultOf (next_of_step names.now step.old) text.now) }
{
    let line = word_line_at(text)?;
    if ends_before(names.drafts, step, line.word) {
        return Ok(None);
    }
    match add_line_with(names, used, step, line.word, line.behind) {
        Ok(()) => Ok(Some(line.rest)),
        Err(LineFault::Broken(reason)) => Err(PartFault::at(line.start, reason)),
        Err(LineFault::Memory(error)) => Err(PartFault::Memory(error)),
    }
}

/// Whether the step ends before a line that begins with the word: it has a claim, or drafts are
/// read, and the line is no line of it.
fn ends_before(drafts: bool, step: &OpenStep, word: &[u8]) -> bool
    ensures { IsTrue result ↔ ((IsTrue drafts ⊎ IsTrue step.now.is_claimed)
        × ((word.now ≡ codes "step") ⊎ (word.now ≡ codes "end"))) }
{
    (drafts || step.is_claimed) && goes_on(word)
}

/// Adds a line that begins with the word and goes on so to the step, or says why it cannot follow.
fn add_line_with<'a>(
    names: &Names<'a>,
    used: &mut Used,
    step: &mut OpenStep,
    word: &[u8],
    behind: &'a [u8],
) -> Result<(), LineFault>
    requires few { length names.now.columns ≤ most_columns }
    requires used { AreUsedBy used.old step.old }
    ensures found { OnOk result ((step_line_rule names.now step.old).Spells
        (word.now ∷ word_texts behind.now) step.new) }
    ensures used { OnOk result (AreUsedBy used.new step.new) }
    ensures broken { IfErr result (IsRefusedFor ((step_line_rule names.now step.old).Breaks
        (word.now ∷ word_texts behind.now))) }
{
    match line_with(word, behind) {
        Ok(told) => add_line(names, used, step, told),
        Err(reason) => Err(LineFault::Broken(reason)),
    }
}
