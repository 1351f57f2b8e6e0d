//! A step with one more line.
ghost use Rattle.std.specs.Prelude.{◌≡◌, ◌≤◌, ◌↔◌, None, Some, Option, IsTrue, length, OnOk};
ghost use Rattle.std.specs.Prelude.{IfErr, IfSome, IfNone};
ghost use Rattle.gj_frac.specs.declared.Frac.{Frac};
ghost use Rattle.gj_forms.specs.LineFaults.{IsRefusedFor};
ghost use Rattle.gj_lex.specs.declared.reason.Reason.TheVariants as reason;
ghost use Rattle.gj_derivation.specs.declared.step.StepRule.TheVariants.{Linear};
ghost use Rattle.gj_problem_text.specs.Tasks.{most_columns, Unless, Never};
ghost use Rattle.gj_derivation_text.specs.LinesRead.{line_told};
ghost use Rattle.gj_derivation_text.specs.OpenSteps.{begun, lines_named, columns_claimed, claim_of};
ghost use Rattle.gj_derivation_text.specs.OpenSteps.{IsFactor, IsDraftOf, AreUsedBy, Adds, Refuses};
ghost use Rattle.gj_derivation_text.specs.OpenSteps.{AddsBy, RefusesBy, TakesUpper, AddsUpper};
ghost use Rattle.gj_derivation_text.specs.OpenSteps.{RefusesUpper, TakesFactor, AddsTimes};
ghost use Rattle.gj_derivation_text.specs.OpenSteps.{SpellsRight, AddsClaim, RefusesClaim};
ghost use Rattle.gj_derivation_text.specs.OpenSteps.{AddsTerm, RefusesTerm};

use crate::indices::Indices;
use crate::lines::Line;
use crate::names::Names;
use gj_derivation::{Claim, Combination, Draft, Multiplier, StepRule};
use gj_forms::LineFault;
use gj_frac::Frac;
use gj_lex::Reason;
use gj_problem::{Entry, Inequality};
use gj_problem_text::{Places, bound_of};
use gj_shape::List;
use std::alloc::Global;

/// A step of which some lines are read.
#[derive(Drop)]
pub(crate) struct OpenStep {
    /// Its rule.
    pub rule: StepRule,
    /// Its multipliers so far.
    pub multipliers: List<Multiplier>,
    /// The columns so far that are turned by their upper bounds.
    pub at_upper: List<u32>,
    /// Its factor, if a line told one.
    pub factor: Option<Frac>,
    /// Whether a line told the right side of its claim, or that there is none.
    pub is_claimed: bool,
    /// The right side of its claim, if there is one.
    pub right: Option<Frac>,
    /// The terms of its claim so far.
    pub entries: List<Entry>,
}

/// The indices that a step has used.
#[derive(Drop)]
pub(crate) struct Used {
    /// The lines that have multipliers.
    pub lines: Indices,
    /// The columns that are turned.
    pub turned: Indices,
    /// The columns that have terms.
    pub claimed: Indices,
}

/// A step of which the first line is read.
pub(crate) fn begun(alloc: Global, rule: StepRule) -> OpenStep
    ensures { result ≡ begun rule }
{
    OpenStep {
        rule,
        multipliers: List::of(Vec::new(alloc)),
        at_upper: List::of(Vec::new(alloc)),
        factor: None,
        is_claimed: false,
        right: None,
        entries: List::of(Vec::new(alloc)),
    }
}

/// No index is used.
pub(crate) fn none_used(alloc: Global, rule: StepRule) -> Used
    ensures { AreUsedBy result (begun rule) }
{
    let _rule = rule;
    Used {
        lines: Indices::none(alloc),
        turned: Indices::none(alloc),
        claimed: Indices::none(alloc),
    }
}

/// The step, all of whose lines are read.
pub(crate) fn draft_of(step: OpenStep) -> Draft
    ensures { IsDraftOf step result }
{
    let OpenStep {
        rule,
        multipliers,
        at_upper,
        factor,
        is_claimed,
        right,
        entries,
    } = step;
    Draft {
        combination: Combination {
            rule,
            multipliers,
            at_upper,
            factor: factor_of(factor),
        },
        claim: claim_of(is_claimed, right, entries),
    }
}

/// The factor, or 1.
fn factor_of(factor: Option<Frac>) -> Frac
    ensures { IsFactor factor result }
{
    match factor {
        Some(factor) => factor,
        None => Frac::ratio(1, 1),
    }
}

/// What the lines told of the claim.
fn claim_of(is_claimed: bool, right: Option<Frac>, entries: List<Entry>) -> Claim
    ensures { result ≡ claim_of is_claimed right entries }
{
    if !is_claimed {
        return Claim::Absent;
    }
    match right {
        None => Claim::Terms(entries),
        Some(right) => Claim::Given(Inequality { entries, right }),
    }
}

/// Adds the line to the step, or says why it cannot follow.
pub(crate) fn add_line<'a>(
    names: &Names<'a>,
    used: &mut Used,
    step: &mut OpenStep,
    line: Line<'a>,
) -> Result<(), LineFault>
    requires few { length names.now.columns ≤ most_columns }
    requires used { AreUsedBy used.old step.old }
    ensures added { OnOk result (Adds names.now step.old (line_told line.entry) step.new) }
    ensures used { OnOk result (AreUsedBy used.new step.new) }
    ensures refused { IfErr result
        (IsRefusedFor (Refuses names.now step.old (line_told line.entry))) }
{
    match line {
        Line::By(name, value) => add_by(&names.lines, used, step, name, value),
        Line::Upper(name) => add_upper(&names.columns, used, step, name),
        Line::Times(factor) => add_times(step, factor),
        Line::Claim(word) => add_claim(names.drafts, step, word),
        Line::Term(name, value) => add_term(&names.columns, used, step, name, value),
    }
}

/// Adds a multiplier of the line with the name.
fn add_by(
    lines: &Places<'_>,
    used: &mut Used,
    step: &mut OpenStep,
    name: &[u8],
    value: Frac,
) -> Result<(), LineFault>
    requires { AreUsedBy used.old step.old }
    ensures added { OnOk result (AddsBy lines.now step.old name.now value step.new) }
    ensures used { OnOk result (AreUsedBy used.new step.new) }
    ensures refused { IfErr result (IsRefusedFor (RefusesBy lines.now step.old name.now)) }
{
    if step.is_claimed {
        return Err(LineFault::Broken(Reason::Form));
    }
    let Some(line) = lines.place_of(name) else {
        return Err(LineFault::Broken(Reason::Place));
    };
    if !used.lines.insert(line)? {
        return Err(LineFault::Broken(Reason::Place));
    }
    step.multipliers.push(Multiplier { line, value })?;
    Ok(())
}

/// Adds a column that is turned by its upper bound.
fn add_upper(
    columns: &Places<'_>,
    used: &mut Used,
    step: &mut OpenStep,
    name: &[u8],
) -> Result<(), LineFault>
    requires few { length columns.now ≤ most_columns }
    requires used { AreUsedBy used.old step.old }
    ensures added { OnOk result (AddsUpper columns.now step.old name.now step.new) }
    ensures used { OnOk result (AreUsedBy used.new step.new) }
    ensures refused { IfErr result (IsRefusedFor (RefusesUpper columns.now step.old name.now)) }
{
    if !takes_upper(step) {
        return Err(LineFault::Broken(Reason::Form));
    }
    let Some(column) = columns.place_of(name) else {
        return Err(LineFault::Broken(Reason::Place));
    };
    if !used.turned.insert(column)? {
        return Err(LineFault::Broken(Reason::Place));
    }
    step.at_upper.push(column as u32)?;
    Ok(())
}

/// Whether columns of the step may be turned: its claim is not told, and it is not linear.
fn takes_upper(step: &OpenStep) -> bool
    ensures { IsTrue result ↔ TakesUpper step.now }
{
    !step.is_claimed && !is_linear(step.rule)
}

/// Whether the rule is the linear one.
fn is_linear(rule: StepRule) -> bool
    ensures { IsTrue result ↔ (rule ≡ Linear) }
{
    match rule {
        StepRule::Linear => true,
        StepRule::Gmic => false,
        StepRule::Function => false,
    }
}

/// Sets the factor, once.
fn add_times(step: &mut OpenStep, factor: Frac) -> Result<(), LineFault>
    ensures added { OnOk result (AddsTimes step.old factor step.new) }
    ensures refused { IfErr result
        (IsRefusedFor (Unless (TakesFactor step.old) reason.Form Never)) }
{
    if step.is_claimed || step.factor.is_some() {
        return Err(LineFault::Broken(Reason::Form));
    }
    step.factor = Some(factor);
    Ok(())
}

/// Sets the right side of the claim, once; `-` is none, for drafts alone.
fn add_claim(drafts: bool, step: &mut OpenStep, word: &[u8]) -> Result<(), LineFault>
    ensures added { OnOk result (AddsClaim drafts step.old word.now step.new) }
    ensures refused { IfErr result (IsRefusedFor (RefusesClaim drafts step.old word.now)) }
{
    if step.is_claimed {
        return Err(LineFault::Broken(Reason::Form));
    }
    let Some(right) = right_of(drafts, word) else {
        return Err(LineFault::Broken(Reason::Number));
    };
    step.is_claimed = true;
    step.right = right;
    Ok(())
}

/// The right side that the word spells, none for `-`; or nothing if it spells none, or if drafts are
/// not read and it is `-`.
fn right_of(drafts: bool, word: &[u8]) -> Option<Option<Frac>>
    ensures found { IfSome result (SpellsRight drafts word.now) }
    ensures none { IfNone result ((right : Option Frac) → SpellsRight drafts word.now right → ⊥) }
{
    let right = bound_of(word)?;
    if !drafts && right.is_none() {
        return None;
    }
    Some(right)
}

/// Adds a term of the claim.
fn add_term(
    columns: &Places<'_>,
    used: &mut Used,
    step: &mut OpenStep,
    name: &[u8],
    value: Frac,
) -> Result<(), LineFault>
    requires few { length columns.now ≤ most_columns }
    requires used { AreUsedBy used.old step.old }
    ensures added { OnOk result (AddsTerm columns.now step.old name.now value step.new) }
    ensures used { OnOk result (AreUsedBy used.new step.new) }
    ensures refused { IfErr result (IsRefusedFor (RefusesTerm columns.now step.old name.now)) }
{
    if !step.is_claimed {
        return Err(LineFault::Broken(Reason::Form));
    }
    let Some(column) = columns.place_of(name) else {
        return Err(LineFault::Broken(Reason::Place));
    };
    if !used.claimed.insert(column)? {
        return Err(LineFault::Broken(Reason::Place));
    }
    step.entries.push(Entry {
        column: column as u32,
        value,
    })?;
    Ok(())
}
