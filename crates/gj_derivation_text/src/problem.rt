//! The problem of a derivation, read.
ghost use Rattle.std.specs.Prelude.{◌≡◌, ◌≤◌, ◌↔◌, ◌∷◌, ◌⊎◌, IsTrue, List, ℕ, Some, None, Option, length, IfOk, IfErr, MatchOption};
ghost use Rattle.std.specs.Prelude.{OnOk, ◌++◌, [], ◌<◌, nat_eq, IfSome};
ghost use Rattle.std.proofs.Common.{inl, inr};
ghost use Rattle.gj_lex.specs.Name.{IsName};
ghost use Rattle.gj_lex.specs.Words.{word_texts};
ghost use Rattle.gj_lex.specs.declared.reason.Reason.TheVariants.{Place};
ghost use Rattle.std.specs.Cmp.Lexicographic.{pointwise};
ghost use Rattle.std.specs.List.{position};
ghost use Rattle.gj_forms.specs.LineFaults.{IsRefusedFor, IsMemory};
ghost use Rattle.gj_forms.specs.Parts.{IsFaultOf};
ghost use Rattle.gj_problem_text.specs.LinesRead.{line_told};
ghost use Rattle.gj_problem_text.specs.Tasks.{most_columns};
ghost use Rattle.gj_derivation_text.specs.DerivationText.{no_drafts, new_name, AddsName, IsTaken};
ghost use Rattle.gj_derivation_text.specs.DerivationText.{AddsLine, RefusesLine, AreBarred};
ghost use Rattle.gj_derivation_text.specs.DerivationText.{problem_rule, next_of_problem};
ghost use Rattle.gj_derivation_text.specs.DerivationText.{problem_part, names_of};

use crate::drafts::Drafts;
use crate::names::Names;
use crate::words::{goes_on, word_line_at};
use gj_forms::{LineFault, PartFault, name_of};
use gj_lex::{Name, Reason};
use gj_problem_text::{Line, Places, line_in, with_line};
use gj_shape::List;
use std::alloc::Global;

/// Reads the lines of the problem to drafts of which nothing is told, up to the first step or the
/// end, and gives what follows them. The names are those of the drafts.
pub(crate) fn problem_at<'a>(
    alloc: Global,
    names: &mut Names<'a>,
    drafts: &mut Drafts,
    text: &'a [u8],
) -> Result<&'a [u8], PartFault>
    requires none { drafts.old ≡ no_drafts }
    requires names { names.old ≡ names_of names.old.drafts no_drafts }
    ensures found { IfOk result (λ rest. (problem_part names.old.drafts).Reads
        text.now drafts.new rest.now) }
    ensures names { OnOk result (names.new ≡ names_of names.old.drafts drafts.new) }
    ensures few { OnOk result (length drafts.new.task.names ≤ most_columns) }
    ensures fault { IfErr result (IsFaultOf (problem_part names.old.drafts) text.now) }
{
    let mut rest = text;
    while let Some(behind) = problem_line_at(alloc, names, drafts, rest)? {
        rest = behind;
    }
    Ok(rest)
}

/// Reads the next line, if it is one of the problem, and gives what follows it.
fn problem_line_at<'a>(
    alloc: Global,
    names: &mut Names<'a>,
    drafts: &mut Drafts,
    text: &'a [u8],
) -> Result<Option<&'a [u8]>, PartFault>
    requires few { length drafts.old.task.names ≤ most_columns }
    requires names { names.old ≡ names_of names.old.drafts drafts.old }
    ensures found { IfOk result (λ next. MatchOption next
        ((next_of_problem names.old.drafts drafts.old).Reads text.now (inr drafts.new) text.now)
        (λ rest. (next_of_problem names.old.drafts drafts.old).Reads
        text.now (inl drafts.new) rest.now)) }
    ensures few { OnOk result (length drafts.new.task.names ≤ most_columns) }
    ensures names { OnOk result (names.new ≡ names_of names.old.drafts drafts.new) }
    ensures shorter { IfOk result (λ next. IfSome next (λ rest.
        length rest.now < length text.now)) }
    ensures fault { IfErr result
        (IsFaultOf (next_of_problem names.old.drafts drafts.old) text.now) }
{
    let line = word_line_at(text)?;
    if goes_on(line.word) {
        return Ok(None);
    }
    match add_line(alloc, names, drafts, line.word, line.bytes) {
        Ok(()) => Ok(Some(line.rest)),
        Err(LineFault::Broken(reason)) => Err(PartFault::at(line.start, reason)),
        Err(LineFault::Memory(error)) => Err(PartFault::Memory(error)),
    }
}

/// Adds the line, which begins with the word, to the drafts, or says why it cannot follow.
fn add_line<'a>(
    alloc: Global,
    names: &mut Names<'a>,
    drafts: &mut Drafts,
    word: &[u8],
    line: &'a [u8],
) -> Result<(), LineFault>
    requires word { (more : List (List ℕ)) × (word_texts line.now ≡ word.now ∷ more) }
    requires few { length drafts.old.task.names ≤ most_columns }
    requires names { names.old ≡ names_of names.old.drafts drafts.old }
    ensures found { OnOk result ((problem_rule names.old.drafts drafts.old).Spells
        (word_texts line.now) drafts.new) }
    ensures few { OnOk result (length drafts.new.task.names ≤ most_columns) }
    ensures names { OnOk result (names.new ≡ names_of names.old.drafts drafts.new) }
    ensures broken { IfErr result (IsRefusedFor
        ((problem_rule names.old.drafts drafts.old).Breaks (word_texts line.now))) }
{
    if is_barred(names.drafts, word) {
        return Err(LineFault::Broken(Reason::Form));
    }
    let told = line_in(alloc, line)?;
    add_told(alloc, names, drafts, told)
}

/// Whether a line that begins with the word has no place in a derivation.
fn is_barred(drafts: bool, word: &[u8]) -> bool
    ensures { (more : List (List ℕ)) → (IsTrue result ↔ AreBarred drafts (word.now ∷ more)) }
{
    word == b"upper".as_slice()
        || word == b"sum".as_slice()
        || word == b"round".as_slice()
        || (!drafts && word == b"grid".as_slice())
}

/// Adds what the line tells to the drafts, or says why it cannot follow.
fn add_told<'a>(
    alloc: Global,
    names: &mut Names<'a>,
    drafts: &mut Drafts,
    told: Line<'a>,
) -> Result<(), LineFault>
    requires few { length drafts.old.task.names ≤ most_columns }
    requires names { names.old ≡ names_of names.old.drafts drafts.old }
    ensures added { OnOk result (AddsLine drafts.old (line_told told.entry) drafts.new) }
    ensures few { OnOk result (length drafts.new.task.names ≤ most_columns) }
    ensures names { OnOk result (names.new ≡ names_of names.old.drafts drafts.new) }
    ensures refused { IfErr result (IsRefusedFor (RefusesLine drafts.old (line_told told.entry))) }
{
    let name = new_name(&told);
    with_line(alloc, &mut drafts.task, &mut names.columns, told)?;
    match name {
        Some(name) => add_name(alloc, &mut names.lines, &mut drafts.lines, name),
        None => Ok(()),
    }
}

/// The name that the line gives to a constraint.
fn new_name<'a>(told: &Line<'a>) -> Option<&'a [u8]>
    ensures { MatchOption result (new_name (line_told told.now) ≡ None)
        (λ name. new_name (line_told told.now) ≡ Some name.now) }
{
    match told {
        Line::Constraint(name, _, _) => Some(*name),
        _ => None,
    }
}

/// Adds the name of a line, if no other line has it.
fn add_name<'a>(
    alloc: Global,
    places: &mut Places<'a>,
    lines: &mut List<Name>,
    name: &'a [u8],
) -> Result<(), LineFault>
    requires name { IsName name.now }
    requires places { places.old ≡ lines.old }
    ensures added { OnOk result (AddsName lines.old (Some name.now) lines.new) }
    ensures places { OnOk result (places.new ≡ lines.new) }
    ensures refused { IfErr result
        (IsRefusedFor (λ e. (e ≡ Place) × IsTaken lines.old (Some name.now))) }
{
    if places.place_of(name).is_some() {
        return Err(LineFault::Broken(Reason::Place));
    }
    push_name(alloc, places, lines, name)
}

/// Adds the name of a line that no other line has.
pub(crate) fn push_name<'a>(
    alloc: Global,
    places: &mut Places<'a>,
    lines: &mut List<Name>,
    name: &'a [u8],
) -> Result<(), LineFault>
    requires name { IsName name.now }
    requires places { places.old ≡ lines.old }
    requires new { position (pointwise nat_eq name.now) lines.old ≡ None }
    ensures added { OnOk result (lines.new ≡ lines.old ++ name.now ∷ []) }
    ensures places { OnOk result (places.new ≡ lines.new) }
    ensures memory { IfErr result IsMemory }
{
    places.push(name)?;
    lines.push(name_of(alloc, name)?)?;
    Ok(())
}
