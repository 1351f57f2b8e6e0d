//! Problem texts, read.
ghost use Rattle.std.specs.Prelude.{◌≡◌, ◌≤◌, List, ℕ, codes, length, IfOk, IfErr, OnOk};
ghost use Rattle.std.specs.Prelude.{IfSome, IfNone, OnSome};
ghost use Rattle.std.specs.Prelude.{MatchResult};
ghost use Rattle.gj_forms.specs.LineFaults.{IsRefusedFor};
ghost use Rattle.gj_forms.specs.Parts.{BeginsWithWord, IsFaultOf, IsNoLine, IsReading};
ghost use Rattle.gj_forms.specs.TextLines.{HasLine};
ghost use Rattle.gj_lex.specs.Words.{word_texts};
ghost use Rattle.gj_problem_text.specs.FirstFault.{IsMemoryFault, NamesFirstFault};
ghost use Rattle.gj_problem_text.specs.ProblemText.{no_task, lines_part, problem_text};
ghost use Rattle.gj_problem_text.specs.ProblemText.{IsProblemText};
ghost use Rattle.gj_problem_text.specs.Ready.{IsReady};
ghost use Rattle.gj_problem_text.specs.SafeInputs.{unruled_text};
ghost use Rattle.gj_problem_text.specs.Tasks.{most_columns, task_rule};

use crate::entries::{behind_entry, short_entry};
use crate::faults::ProblemFault;
use crate::lines::line_in;
use crate::places::Places;
use crate::steps::{with_entry, with_line};
use crate::task::Task;
use gj_forms::{
    LineFault, PartFault, TextLine, behind_name, end_at, line_at, line_number, words_at,
};
use gj_lex::Spelling;
use gj_problem::Problem;
use gj_shape::List;
use std::alloc::Global;

/// The problem whose text the bytes are, and which rows of it give cuts.
///
/// `Refused` has the line and the reason of the first fault, and comes exactly if the bytes are no
/// problem text. A problem text has at most 10,000 columns, 10,000 constraints and 100,000 entries,
/// and the number of its sums times that of all these is at most 10^9.
pub fn read_problem(alloc: Global, bytes: &[u8]) -> Result<Task, ProblemFault>
    // What is read is spelled so.
    ensures found { IfOk result (IsProblemText bytes.now) }
    // What is spelled so is read, unless there is no memory.
    ensures only { (task : Task) → IsProblemText bytes.now task →
        MatchResult result (λ t. t ≡ task) IsMemoryFault }
    // A refusal names the first fault.
    ensures refused { IfErr result (NamesFirstFault bytes.now) }
    // Each row has a multiplier for each constraint, and no grid is that of 0.
    ensures ready { IfOk result IsReady }
{
    match problem_text_at(alloc, bytes) {
        Ok(task) => Ok(task),
        Err(PartFault::Refused(left, reason)) => {
            Err(ProblemFault::Refused(line_number(bytes, left), reason))
        }
        Err(PartFault::Memory(error)) => Err(ProblemFault::Memory(error)),
    }
}

/// The task whose problem text the bytes are.
fn problem_text_at(alloc: Global, text: &[u8]) -> Result<Task, PartFault>
    ensures found { IfOk result (IsProblemText text.now) }
    ensures fault { IfErr result (IsFaultOf problem_text text.now) }
{
    let rest = words_at(Spelling::Lenient, text, b"gj-problem 1")?;
    let rest = words_at(Spelling::Lenient, rest, b"rule gmic")?;
    let (task, rest) = lines_at(alloc, rest)?;
    end_at(Spelling::Lenient, rest)?;
    Ok(task)
}

/// The task that the bytes tell: a problem text without the line of its rule.
pub(crate) fn unruled_text_at(alloc: Global, text: &[u8]) -> Result<Task, PartFault>
    ensures found { IfOk result (λ task. (rest : List ℕ) × unruled_text.Reads text.now task rest) }
    ensures fault { IfErr result (IsFaultOf unruled_text text.now) }
{
    let rest = words_at(Spelling::Lenient, text, b"gj-problem 1")?;
    let (task, rest) = lines_at(alloc, rest)?;
    end_at(Spelling::Lenient, rest)?;
    Ok(task)
}

/// The task that the next lines tell, up to their line `end`, and what follows that line.
fn lines_at(alloc: Global, text: &[u8]) -> Result<(Task, &[u8]), PartFault>
    ensures { IsReading lines_part text.now result }
{
    let mut task = no_task(alloc);
    let mut places = Places::none(alloc);
    let mut rest = text;
    while let Some(line) = line_before_end(rest)? {
        match with_line_of(alloc, &mut task, &mut places, line.bytes) {
            Ok(()) => {}
            Err(LineFault::Broken(reason)) => return Err(PartFault::at(line.start, reason)),
            Err(LineFault::Memory(error)) => return Err(PartFault::Memory(error)),
        }
        rest = line.rest;
    }
    let rest = words_at(Spelling::Lenient, rest, b"end")?;
    Ok((task, rest))
}

/// The task before any line.
fn no_task(alloc: Global) -> Task
    ensures { result ≡ no_task }
{
    Task {
        names: List::of(Vec::new(alloc)),
        problem: Problem {
            columns: List::of(Vec::new(alloc)),
            constraints: List::of(Vec::new(alloc)),
        },
        entries: 0,
        requests: List::of(Vec::new(alloc)),
        sums: 0,
        grid: None,
        round: None,
    }
}

/// The next line of the text, or none if its first word is `end`.
fn line_before_end(text: &[u8]) -> Result<Option<TextLine<'_>>, PartFault>
    ensures line { IfOk result (λ found. IfSome found (λ l. HasLine Spelling.Lenient text.now
        l.start.now (word_texts l.bytes.now) l.rest.now)) }
    ensures other { IfOk result (λ found. OnSome found
        (BeginsWithWord Spelling.Lenient (codes "end") text.now → ⊥)) }
    ensures end { IfOk result (λ found. IfNone found
        (BeginsWithWord Spelling.Lenient (codes "end") text.now)) }
    ensures fault { IfErr result (IsNoLine Spelling.Lenient text.now) }
{
    let line = line_at(Spelling::Lenient, text)?;
    if behind_entry(line.bytes).is_some() {
        return Ok(Some(line));
    }
    match behind_name(line.bytes, b"end") {
        Some(_) => Ok(None),
        None => Ok(Some(line)),
    }
}

/// Adds the line to the task, or says why it cannot follow.
fn with_line_of<'a>(
    alloc: Global,
    task: &mut Task,
    places: &mut Places<'a>,
    line: &'a [u8],
) -> Result<(), LineFault>
    requires few { length task.old.names ≤ most_columns }
    requires places { places.old ≡ task.old.names }
    ensures found { OnOk result ((task_rule task.old).Spells (word_texts line.now) task.new) }
    ensures few { OnOk result (length task.new.names ≤ most_columns) }
    ensures places { OnOk result (places.new ≡ task.new.names) }
    ensures broken { IfErr result
        (IsRefusedFor ((task_rule task.old).Breaks (word_texts line.now))) }
{
    if let Some((name, value)) = short_entry(line) {
        return with_entry(alloc, task, places, name, value);
    }
    let told = line_in(alloc, line)?;
    with_line(alloc, task, places, told)
}
