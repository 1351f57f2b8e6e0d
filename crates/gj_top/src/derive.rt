//! The command `derive`: the text of a derivation whose steps may lack claims, with each claim
//! filled in.
ghost use Rattle.std.specs.Prelude.{ℕ, ◌≡◌, ◌↔◌, ◌++◌, ◌∷◌, ◌<◌, ◌≤◌, IsTrue, IfOk, IfSome, OnOk};
ghost use Rattle.std.specs.Prelude.{length};
ghost use Rattle.std.specs.Option.{option_copied};
ghost use Rattle.gj_derivation.specs.Derivations.{IsUsable};
ghost use Rattle.gj_derivation_text.specs.DerivationInputs.{IsDraftText, IsLineOfStep};
ghost use Rattle.gj_derivation_text.specs.PrintedDerivation.{kept_names};
ghost use Rattle.gj_derivation_text.specs.Readable.{AreReadable};
ghost use Rattle.gj_derivation_text.specs.VerdictLines.{rejected_line};
ghost use Rattle.gj_problem_text.specs.CutText.{name_at};
ghost use Rattle.gj_top.specs.Task.{IsAnswering, IsReadingOf};
ghost use Rattle.gj_derivation.specs.declared.draft.Derived.TheVariants as derived;
ghost use Rattle.gj_top.specs.Derive.{derive, RefusesDrafts, IsDeriveReply, shown_names};
ghost use Rattle.gj_top.specs.Derive.{IsDerived, IsFilledIn};
ghost use Rattle.gj_top.specs.Derive.{IsLeftOut, IsFirstLeftOut, lost_line, NamesLost};

use crate::derivation::{function_in, rule_in_front};
use crate::forms::refused;
use crate::objection::objection_to;
use crate::reply::{End, Reply, Unanswered};
use gj_derivation::{Derived, Failure, Multiplier, Shown, derived_steps};
use gj_derivation_text::{
    DraftInput, Drafts, copied_name, line_of_step, push_front, push_rejected, push_steps,
    read_drafts,
};
use gj_lex::Name;
use gj_problem::{Constraint, Problem};
use gj_problem_text::ProblemFault;
use gj_shape::{List, Shape};
use std::alloc::{AllocError, Global};

/// The derivation of the steps that the input tells, with each claim filled in, or the first of
/// them that fails, or the first violation or the first jump of the function in front.
pub(crate) fn reply(alloc: Global, input: &[u8]) -> Result<Reply, Unanswered>
    ensures { IsAnswering derive input.now result }
{
    let told = drafts_of(alloc, input)?;
    Ok(derive_reply(alloc, input, told)?)
}

/// The steps that the input tells, with the function in front of them.
fn drafts_of(alloc: Global, input: &[u8]) -> Result<DraftInput, Unanswered>
    ensures found { IsReadingOf IsDraftText RefusesDrafts input.now result }
    ensures readable { IfOk result (λ a. AreReadable a.function a.drafts) }
{
    match read_drafts(alloc, input) {
        Ok(told) => Ok(told),
        Err(ProblemFault::Refused(at_line, reason)) => Err(refused(alloc, at_line, reason)),
        Err(ProblemFault::Memory(error)) => Err(Unanswered::Memory(error)),
    }
}

/// The derivation of the steps, which the input tells, if cuts by the function in front hold.
fn derive_reply(alloc: Global, input: &[u8], told: DraftInput) -> Result<Reply, AllocError>
    requires { AreReadable told.function told.drafts }
    ensures { IfOk result (λ reply. IsDeriveReply (record { text = input.now; told = told })
        reply.end reply.text.items) }
{
    let DraftInput { function, drafts } = told;
    let rule = rule_in_front(function);
    if let Some(objection) = objection_to(alloc, &rule)? {
        return Ok(objection);
    }
    let reply = derived_reply(alloc, input, function_in(&rule), &drafts)?;
    Ok(reply)
}

/// The derivation of the steps, or the first of them that fails.
fn derived_reply(
    alloc: Global,
    input: &[u8],
    function: Option<&Shape>,
    drafts: &Drafts,
) -> Result<Reply, AllocError>
    requires readable { AreReadable (option_copied function) drafts.now }
    requires usable { IfSome (option_copied function) IsUsable }
    ensures { IfOk result (λ reply. IsDeriveReply (record {
      text = input.now;
      told = record { function = option_copied function.entry; drafts = drafts.now };
    }) reply.end reply.text.items) }
{
    let problem = copied(alloc, &drafts.task.problem)?;
    let steps = drafts.steps.as_slice();
    match derived_steps(alloc, function, problem, steps, drafts.task.grid)? {
        Derived::All(shown) => Ok(Reply {
            end: End::Done,
            text: derived_text(alloc, function, drafts, shown.as_slice())?,
        }),
        Derived::Failed(failure, shown) => Ok(Reply {
            end: End::Rejected,
            text: failed_text(alloc, input, drafts, failure, shown.as_slice())?,
        }),
        Derived::Lost(step, shown) => Ok(Reply {
            end: End::Rejected,
            text: lost_text(alloc, input, drafts, step, shown.as_slice())?,
        }),
    }
}

/// The text of the derivation of the steps that are shown.
fn derived_text(
    alloc: Global,
    function: Option<&Shape>,
    drafts: &Drafts,
    shown: &[Shown],
) -> Result<Vec<u8>, AllocError>
    requires readable { AreReadable (option_copied function) drafts.now }
    requires derived { IsDerived (record {
      function = option_copied function;
      drafts = drafts.now;
    }) (derived.All shown.now) }
    ensures { IfOk result (λ text. IsFilledIn (record {
      function = option_copied function.entry;
      drafts = drafts.now;
    }) shown.now text.items) }
{
    let columns = drafts.task.names.as_slice();
    let problem = &drafts.task.problem;
    let count = problem.constraints.as_slice().len();
    let lines = drafts.lines.as_slice();
    let constraints = &lines[..count];
    let mut text = Vec::new(alloc);
    push_front(alloc, &mut text, function, columns, constraints, problem)?;
    push_steps(
        alloc,
        &mut text,
        columns,
        constraints,
        &lines[count..],
        shown,
    )?;
    Ok(text)
}

/// The line that says which step fails, and what stands against its claim.
fn failed_text(
    alloc: Global,
    input: &[u8],
    drafts: &Drafts,
    failure: Failure,
    shown: &[Shown],
) -> Result<Vec<u8>, AllocError>
    requires within { failure.step < length drafts.now.left }
    requires lines { length drafts.now.task.problem.constraints ≤ length drafts.now.lines }
    ensures { IfOk result (λ text. (n : ℕ) × IsLineOfStep input.now drafts.now.left failure.step n ×
        (text.items ≡ rejected_line drafts.now.task.names (shown_names drafts.now shown.now) n
        failure.verdict)) }
{
    let at_line = line_of_step(input, drafts.left.as_slice(), failure.step);
    let lines = names_shown(alloc, drafts, shown)?;
    let columns = drafts.task.names.as_slice();
    let mut text = Vec::new(alloc);
    push_rejected(
        &mut text,
        columns,
        lines.as_slice(),
        at_line,
        failure.verdict,
    )?;
    Ok(text)
}

/// The names of the constraints, and of the steps that are shown.
fn names_shown(alloc: Global, drafts: &Drafts, shown: &[Shown]) -> Result<Vec<Name>, AllocError>
    requires { length drafts.now.task.problem.constraints ≤ length drafts.now.lines }
    ensures { IfOk result (λ names. names.items ≡ shown_names drafts.now shown.now) }
{
    let constraints = drafts.task.problem.constraints.as_slice().len();
    let lines = drafts.lines.as_slice();
    let mut names = Vec::new(alloc);
    for name in &lines[..constraints] {
        let copy = copied_name(alloc, name)?;
        names.push(copy)?;
    }
    push_kept(alloc, &mut names, &lines[constraints..], shown)?;
    Ok(names)
}

/// Appends the names of the steps that are shown.
fn push_kept(
    alloc: Global,
    names: &mut Vec<Name>,
    steps: &[Name],
    shown: &[Shown],
) -> Result<(), AllocError>
    ensures { OnOk result (names.new.items ≡ names.old.items ++ kept_names steps.now shown.now) }
{
    for (name, x) in steps.iter().zip(shown) {
        match x {
            Shown::Step(_) => {
                let copy = copied_name(alloc, name)?;
                names.push(copy)?;
            }
            Shown::Against(_) => {}
        }
    }
    Ok(())
}

/// The line that says which step names one that is left out, and the first of those.
fn lost_text(
    alloc: Global,
    input: &[u8],
    drafts: &Drafts,
    step: usize,
    shown: &[Shown],
) -> Result<Vec<u8>, AllocError>
    requires left { step < length drafts.now.left }
    requires steps { step < length drafts.now.steps }
    ensures { IfOk result (λ text. NamesLost input.now drafts.now step shown.now text.items) }
{
    let at_line = line_of_step(input, drafts.left.as_slice(), step);
    let combination = &drafts.steps.as_slice()[step].combination;
    let constraints = drafts.task.problem.constraints.as_slice().len();
    let lost = first_left_out(constraints, shown, combination.multipliers.as_slice());
    let text = lost_line(alloc, drafts.lines.as_slice(), at_line, lost)?;
    Ok(text)
}

/// The first of the lines that is left out; so many lines are constraints.
fn first_left_out(constraints: usize, shown: &[Shown], multipliers: &[Multiplier]) -> Option<usize>
    ensures { IsFirstLeftOut constraints shown.now multipliers.now result }
{
    for multiplier in multipliers {
        if is_left_out(constraints, shown, multiplier.line) {
            return Some(multiplier.line);
        }
    }
    None
}

/// Whether the line is that of a step that is left out; so many lines are constraints.
fn is_left_out(constraints: usize, shown: &[Shown], line: usize) -> bool
    ensures { IsTrue result ↔ IsLeftOut constraints shown.now line }
{
    if line < constraints {
        return false;
    }
    matches!(shown.get(line - constraints), Some(Shown::Against(_)))
}

/// The line `rejected line N lost NAME`.
fn lost_line(
    alloc: Global,
    lines: &[Name],
    at_line: u64,
    lost: Option<usize>,
) -> Result<Vec<u8>, AllocError>
    ensures { IfOk result (λ text. text.items ≡ lost_line lines.now at_line lost) }
{
    let mut text = Vec::from_slice(alloc, b"rejected line ")?;
    let number = at_line.to_string(alloc)?;
    text.extend_from_slice(number.as_bytes())?;
    text.extend_from_slice(b" lost")?;
    if let Some(line) = lost {
        push_lost_name(&mut text, lines, line)?;
    }
    text.push(b'\n')?;
    Ok(text)
}

/// Appends a space and the name of the line.
fn push_lost_name(text: &mut Vec<u8>, lines: &[Name], line: usize) -> Result<(), AllocError>
    ensures { OnOk result (text.new.items ≡ text.old.items ++ 32 ∷ name_at lines.now line) }
{
    text.push(b' ')?;
    if let Some(name) = lines.get(line) {
        text.extend_from_slice(name.bytes())?;
    }
    Ok(())
}

/// A copy of the problem.
fn copied(alloc: Global, problem: &Problem) -> Result<Problem, AllocError>
    ensures { IfOk result (λ p. p ≡ problem.now) }
{
    let columns = Vec::from_slice(alloc, problem.columns.as_slice())?;
    let constraints = constraints_copied(alloc, problem.constraints.as_slice())?;
    Ok(Problem {
        columns: List::of(columns),
        constraints: List::of(constraints),
    })
}

/// A copy of the constraints.
fn constraints_copied(
    alloc: Global,
    constraints: &[Constraint],
) -> Result<Vec<Constraint>, AllocError>
    ensures { IfOk result (λ copies. copies.items ≡ constraints.now) }
{
    let mut copies = Vec::with_capacity(alloc, constraints.len())?;
    for constraint in constraints {
        copies.push(constraint_copied(alloc, constraint)?)?;
    }
    Ok(copies)
}

/// A copy of the constraint.
fn constraint_copied(alloc: Global, constraint: &Constraint) -> Result<Constraint, AllocError>
    ensures { IfOk result (λ copy. copy ≡ constraint.now) }
{
    Ok(Constraint {
        entries: List::of(Vec::from_slice(alloc, constraint.entries.as_slice())?),
        sense: constraint.sense,
        right: constraint.right,
    })
}
