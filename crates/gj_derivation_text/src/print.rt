//! Derivations, printed.
ghost use Rattle.std.specs.Prelude.{◌≡◌, ◌++◌, ◌∷◌, [], ◌↔◌, ℕ, List, length, IsTrue, IfOk, OnOk, codes, map, flat_map};
ghost use Rattle.std.specs.Option.{option_copied};
ghost use Rattle.gj_forms.specs.LineForms.{line_of};
ghost use Rattle.gj_function_lines.specs.FunctionLines.{line};
ghost use Rattle.gj_problem_text.specs.CutText.{name_at};
ghost use Rattle.gj_problem_text.specs.PrintedProblem.{bound_word, column_told, constraint_told};
ghost use Rattle.gj_problem_text.specs.PrintedProblem.{entry_told, problem_lines, printed};
ghost use Rattle.gj_problem_text.specs.ProblemLines.{kind_word, sense_word, problem_form};
ghost use Rattle.gj_problem_text.specs.ProblemLines.{constraint as constraint_line};
ghost use Rattle.gj_derivation_text.specs.PrintedDerivation.{HasFunctionText, IsFront, each_pair};
ghost use Rattle.gj_derivation_text.specs.PrintedDerivation.{by_told, upper_told, term_told};
ghost use Rattle.gj_derivation_text.specs.PrintedDerivation.{factor_told, combination_told};
ghost use Rattle.gj_derivation_text.specs.PrintedDerivation.{claim_told, printed_lines, is_one};
ghost use Rattle.gj_derivation_text.specs.PrintedDerivation.{step_lines, shown_line, shown_lines};
ghost use Rattle.gj_derivation_text.specs.PrintedDerivation.{kept_name, kept_names, steps_text};
ghost use Rattle.gj_derivation_text.specs.StepLines.{line_form};

use crate::lines::{BY, CLAIM, STEP, TERM, TIMES, UPPER};
use crate::names::copied_name;
use crate::verdict::push_left_out;
use gj_derivation::{Combination, Multiplier, Shown, Step};
use gj_frac::Frac;
use gj_function_text::write_function;
use gj_lex::Name;
use gj_line::{Field, Fraction, NameWord, push_line};
use gj_problem::{Column, Constraint, Entry, Inequality, Problem, Sense};
use gj_shape::{List, Shape};
use std::alloc::{AllocError, Global};

/// Appends the lines in front of the steps of a derivation: those of the function, if there is one,
/// the title, and the columns and the constraints with their names.
///
/// An error says that memory ran out; `out` may then have a part of them.
pub fn push_front(
    alloc: Global,
    out: &mut Vec<u8>,
    function: Option<&Shape>,
    columns: &[Name],
    constraints: &[Name],
    problem: &Problem,
) -> Result<(), AllocError>
    requires columns { length columns.now ≡ length problem.now.columns }
    requires constraints { length constraints.now ≡ length problem.now.constraints }
    ensures { OnOk result ((front : List ℕ)
        × IsFront (option_copied function.entry) columns.now constraints.now problem.now front
        × (out.new.items ≡ out.old.items ++ front)) }
{
    push_function(alloc, out, function)?;
    out.extend_from_slice(b"gj-derivation 1\n")?;
    push_columns(out, columns, problem.columns.as_slice())?;
    push_constraints(out, columns, constraints, problem.constraints.as_slice())?;
    Ok(())
}

/// Appends the lines of the steps that drafts show, with their names, and the line `end`. A draft
/// that shows nothing is a comment that says why. The names of the columns and of the constraints
/// are those of the derivation.
///
/// An error says that memory ran out; `out` may then have a part of the lines.
pub fn push_steps(
    alloc: Global,
    out: &mut Vec<u8>,
    columns: &[Name],
    constraints: &[Name],
    names: &[Name],
    shown: &[Shown],
) -> Result<(), AllocError>
    requires { length names.now ≡ length shown.now }
    ensures { OnOk result (out.new.items ≡ out.old.items
        ++ steps_text columns.now constraints.now names.now shown.now) }
{
    let lines = lines_of(alloc, constraints, names, shown)?;
    push_shown(out, columns, lines.as_slice(), names, shown)?;
    out.extend_from_slice(b"end\n")?;
    Ok(())
}

/// Appends the text of the function, if there is one.
fn push_function(
    alloc: Global,
    out: &mut Vec<u8>,
    function: Option<&Shape>,
) -> Result<(), AllocError>
    ensures { OnOk result ((text : List ℕ) × HasFunctionText (option_copied function.entry) text
        × (out.new.items ≡ out.old.items ++ text)) }
{
    match function {
        None => Ok(()),
        Some(shape) => {
            let text = write_function(alloc, shape)?;
            out.extend_from_slice(text.as_slice())?;
            Ok(())
        }
    }
}

// ---- the problem

/// Appends a line for each column.
fn push_columns(out: &mut Vec<u8>, names: &[Name], columns: &[Column]) -> Result<(), AllocError>
    requires { length names.now ≡ length columns.now }
    ensures { OnOk result (out.new.items ≡ out.old.items
        ++ each_pair (λ name c. line_of problem_form (column_told name c))
        names.now columns.now) }
{
    for (j, column) in columns.iter().enumerate() {
        push_column(out, names[j].bytes(), *column)?;
    }
    Ok(())
}

/// Appends the line of a column.
fn push_column(out: &mut Vec<u8>, name: &[u8], column: Column) -> Result<(), AllocError>
    ensures { OnOk result (out.new.items ≡ out.old.items
        ++ line_of problem_form (column_told name.now column)) }
{
    out.extend_from_slice(b"column")?;
    NameWord.push(out, name)?;
    NameWord.push(out, kind_word(column.is_whole))?;
    push_bound(out, column.lower)?;
    push_bound(out, column.upper)?;
    out.push(b'\n')?;
    Ok(())
}

/// The word for a column that is whole, or is not.
fn kind_word(is_whole: bool) -> &'static [u8]
    ensures { result.now ≡ kind_word is_whole }
{
    if is_whole {
        return b"whole";
    }
    b"continuous"
}

/// Appends a space and a bound, `-` if there is none.
fn push_bound(out: &mut Vec<u8>, bound: Option<Frac>) -> Result<(), AllocError>
    ensures { OnOk result (out.new.items ≡ out.old.items ++ 32 ∷ bound_word bound) }
{
    match bound {
        None => out.extend_from_slice(b" -"),
        Some(x) => Fraction.push(out, x),
    }
}

/// Appends the lines of each constraint.
fn push_constraints(
    out: &mut Vec<u8>,
    columns: &[Name],
    names: &[Name],
    constraints: &[Constraint],
) -> Result<(), AllocError>
    requires { length names.now ≡ length constraints.now }
    ensures { OnOk result (out.new.items ≡ out.old.items
        ++ each_pair (λ name c. printed (constraint_told columns.now name c))
        names.now constraints.now) }
{
    for (i, constraint) in constraints.iter().enumerate() {
        push_constraint(out, columns, names[i].bytes(), constraint)?;
    }
    Ok(())
}

/// Appends the line of a constraint, and those of its entries.
fn push_constraint(
    out: &mut Vec<u8>,
    columns: &[Name],
    name: &[u8],
    constraint: &Constraint,
) -> Result<(), AllocError>
    ensures { OnOk result (out.new.items ≡ out.old.items
        ++ printed (constraint_told columns.now name.now constraint.now)) }
{
    push_head(out, name, constraint)?;
    push_entries(out, columns, constraint.entries.as_slice())?;
    Ok(())
}

/// Appends the line of a constraint.
fn push_head(out: &mut Vec<u8>, name: &[u8], constraint: &Constraint) -> Result<(), AllocError>
    ensures { OnOk result (out.new.items ≡ out.old.items ++ line_of problem_form
        (constraint_line name.now constraint.now.sense constraint.now.right)) }
{
    out.extend_from_slice(b"constraint")?;
    NameWord.push(out, name)?;
    NameWord.push(out, sense_word(constraint.sense))?;
    Fraction.push(out, constraint.right)?;
    out.push(b'\n')?;
    Ok(())
}

/// The word of the sense.
fn sense_word(sense: Sense) -> &'static [u8]
    ensures { result.now ≡ sense_word sense }
{
    match sense {
        Sense::AtMost => b"<=",
        Sense::AtLeast => b">=",
        Sense::Equal => b"=",
    }
}

/// Appends a line for each entry.
fn push_entries(out: &mut Vec<u8>, columns: &[Name], entries: &[Entry]) -> Result<(), AllocError>
    ensures { OnOk result (out.new.items ≡ out.old.items
        ++ flat_map (λ e. line_of problem_form (entry_told columns.now e)) entries.now) }
{
    for entry in entries {
        push_entry(out, columns, *entry)?;
    }
    Ok(())
}

/// Appends the line of an entry.
fn push_entry(out: &mut Vec<u8>, columns: &[Name], entry: Entry) -> Result<(), AllocError>
    ensures { OnOk result (out.new.items ≡ out.old.items
        ++ line_of problem_form (entry_told columns.now entry)) }
{
    out.extend_from_slice(b"entry")?;
    NameWord.push(out, name_at(columns, entry.column as usize))?;
    Fraction.push(out, entry.value)?;
    out.push(b'\n')?;
    Ok(())
}

// ---- steps

/// The names of the constraints, and of the steps that are not left out.
fn lines_of(
    alloc: Global,
    constraints: &[Name],
    names: &[Name],
    shown: &[Shown],
) -> Result<Vec<Name>, AllocError>
    requires { length names.now ≡ length shown.now }
    ensures { IfOk result (λ lines. lines.items
        ≡ constraints.now ++ kept_names names.now shown.now) }
{
    let mut lines = Vec::with_capacity(alloc, constraints.len())?;
    push_names(alloc, &mut lines, constraints)?;
    push_kept(alloc, &mut lines, names, shown)?;
    Ok(lines)
}

/// Appends names.
fn push_names(alloc: Global, lines: &mut Vec<Name>, names: &[Name]) -> Result<(), AllocError>
    ensures { OnOk result (lines.new.items ≡ lines.old.items ++ names.now) }
{
    for name in names {
        let copy = copied_name(alloc, name)?;
        lines.push(copy)?;
    }
    Ok(())
}

/// Appends the names of the steps that are not left out.
fn push_kept(
    alloc: Global,
    lines: &mut Vec<Name>,
    names: &[Name],
    shown: &[Shown],
) -> Result<(), AllocError>
    requires { length names.now ≡ length shown.now }
    ensures { OnOk result (lines.new.items ≡ lines.old.items ++ kept_names names.now shown.now) }
{
    for (i, step) in shown.iter().enumerate() {
        push_kept_name(alloc, lines, &names[i], step)?;
    }
    Ok(())
}

/// Appends the name if a step is shown.
fn push_kept_name(
    alloc: Global,
    lines: &mut Vec<Name>,
    name: &Name,
    shown: &Shown,
) -> Result<(), AllocError>
    ensures { OnOk result (lines.new.items ≡ lines.old.items ++ kept_name name.now shown.now) }
{
    match shown {
        Shown::Step(_) => {
            let copy = copied_name(alloc, name)?;
            lines.push(copy)?;
            Ok(())
        }
        Shown::Against(_) => Ok(()),
    }
}

/// Appends the lines of the steps, or why they are left out.
fn push_shown(
    out: &mut Vec<u8>,
    columns: &[Name],
    lines: &[Name],
    names: &[Name],
    shown: &[Shown],
) -> Result<(), AllocError>
    requires { length names.now ≡ length shown.now }
    ensures { OnOk result (out.new.items ≡ out.old.items
        ++ shown_lines columns.now lines.now names.now shown.now) }
{
    for (i, step) in shown.iter().enumerate() {
        push_shown_line(out, columns, lines, names[i].bytes(), step)?;
    }
    Ok(())
}

/// Appends the lines of a step, or why it is left out.
fn push_shown_line(
    out: &mut Vec<u8>,
    columns: &[Name],
    lines: &[Name],
    name: &[u8],
    shown: &Shown,
) -> Result<(), AllocError>
    ensures { OnOk result (out.new.items ≡ out.old.items
        ++ shown_line columns.now lines.now name.now shown.now) }
{
    match shown {
        Shown::Step(step) => push_step(out, columns, lines, name, step),
        Shown::Against(verdict) => push_left_out(out, columns, lines, name, *verdict),
    }
}

/// Appends the lines of a step.
fn push_step(
    out: &mut Vec<u8>,
    columns: &[Name],
    lines: &[Name],
    name: &[u8],
    step: &Step,
) -> Result<(), AllocError>
    ensures { OnOk result (out.new.items ≡ out.old.items
        ++ step_lines columns.now lines.now name.now step.now) }
{
    push_line(&STEP, out, (name, (step.combination.rule, ())))?;
    push_combination(out, columns, lines, &step.combination)?;
    push_claim(out, columns, &step.claim)?;
    Ok(())
}

/// Appends the lines of what a step adds up.
fn push_combination(
    out: &mut Vec<u8>,
    columns: &[Name],
    lines: &[Name],
    combination: &Combination,
) -> Result<(), AllocError>
    ensures { OnOk result (out.new.items ≡ out.old.items
        ++ printed_lines (combination_told columns.now lines.now combination.now)) }
{
    push_multipliers(out, lines, combination.multipliers.as_slice())?;
    push_turned(out, columns, combination.at_upper.as_slice())?;
    push_factor(out, combination.factor)?;
    Ok(())
}

/// Appends a line for each multiplier.
fn push_multipliers(
    out: &mut Vec<u8>,
    lines: &[Name],
    multipliers: &[Multiplier],
) -> Result<(), AllocError>
    ensures { OnOk result (out.new.items ≡ out.old.items
        ++ flat_map (λ m. line_of line_form (by_told lines.now m)) multipliers.now) }
{
    for multiplier in multipliers {
        push_multiplier(out, lines, *multiplier)?;
    }
    Ok(())
}

/// Appends the line of a multiplier.
fn push_multiplier(
    out: &mut Vec<u8>,
    lines: &[Name],
    multiplier: Multiplier,
) -> Result<(), AllocError>
    ensures { OnOk result (out.new.items ≡ out.old.items
        ++ line_of line_form (by_told lines.now multiplier)) }
{
    let name = name_at(lines, multiplier.line);
    push_line(&BY, out, (name, (multiplier.value, ())))
}

/// Appends a line for each column that is turned.
fn push_turned(out: &mut Vec<u8>, columns: &[Name], turned: &[u32]) -> Result<(), AllocError>
    ensures { OnOk result (out.new.items ≡ out.old.items
        ++ flat_map (λ j. line_of line_form (upper_told columns.now j)) turned.now) }
{
    for column in turned {
        push_upper(out, columns, *column)?;
    }
    Ok(())
}

/// Appends the line of a column that is turned.
fn push_upper(out: &mut Vec<u8>, columns: &[Name], column: u32) -> Result<(), AllocError>
    ensures { OnOk result (out.new.items ≡ out.old.items
        ++ line_of line_form (upper_told columns.now column)) }
{
    push_line(&UPPER, out, (name_at(columns, column as usize), ()))
}

/// Appends the line of the factor, if that is not 1.
fn push_factor(out: &mut Vec<u8>, factor: Frac) -> Result<(), AllocError>
    ensures { OnOk result (out.new.items ≡ out.old.items
        ++ printed_lines (factor_told factor)) }
{
    if is_one(factor) {
        return Ok(());
    }
    push_line(&TIMES, out, (factor, ()))
}

/// Whether x is 1.
fn is_one(x: Frac) -> bool
    ensures { result ≡ is_one x }
{
    x.num() == 1 && x.den() == 1
}

/// Appends the lines of a claim.
fn push_claim(out: &mut Vec<u8>, columns: &[Name], claim: &Inequality) -> Result<(), AllocError>
    ensures { OnOk result (out.new.items ≡ out.old.items
        ++ printed_lines (claim_told columns.now claim.now)) }
{
    push_line(&CLAIM, out, (claim.right, ()))?;
    push_terms(out, columns, claim.entries.as_slice())?;
    Ok(())
}

/// Appends a line for each term.
fn push_terms(out: &mut Vec<u8>, columns: &[Name], entries: &[Entry]) -> Result<(), AllocError>
    ensures { OnOk result (out.new.items ≡ out.old.items
        ++ flat_map (λ e. line_of line_form (term_told columns.now e)) entries.now) }
{
    for entry in entries {
        push_term(out, columns, *entry)?;
    }
    Ok(())
}

/// Appends the line of a term.
fn push_term(out: &mut Vec<u8>, columns: &[Name], entry: Entry) -> Result<(), AllocError>
    ensures { OnOk result (out.new.items ≡ out.old.items
        ++ line_of line_form (term_told columns.now entry)) }
{
    let name = name_at(columns, entry.column as usize);
    push_line(&TERM, out, (name, (entry.value, ())))
}

/// The name with this index.
pub(crate) fn name_at(names: &[Name], index: usize) -> &[u8]
    ensures { result.now ≡ name_at names.now index }
{
    match names.get(index) {
        Some(name) => name.bytes(),
        None => b"",
    }
}
