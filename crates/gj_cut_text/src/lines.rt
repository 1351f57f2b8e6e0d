//! The lines of the cuts of the rows of a tableau, with the names of its columns.
ghost use Rattle.std.specs.Prelude.{◌≡◌, All, OnOk, length, true};
ghost use Rattle.gj_shape.specs.FunctionData.{IsContinuous, IsWithinBounds};
ghost use Rattle.gj_shape.specs.Limits.{IsRowNumber};
ghost use Rattle.gj_shape.specs.Table.{IsMinimal};
ghost use Rattle.gj_theory.specs.Cuts.{IsValueOf};
ghost use Rattle.gj_row.specs.TableauLimits.{IsTableau, IsRowWithinLimits};
ghost use Rattle.gj_rule.specs.Kept.{Evaluates};
ghost use Rattle.gj_rule.specs.declared.kind.RuleKind.TheVariants as kind;
ghost use Rattle.gj_mixed.specs.Slopes.{AreSlopesAtZero, IsSlope, IsWeight, Weighs};
ghost use Rattle.gj_proof.specs.ProofText.{IsBoundedRule};
ghost use Rattle.gj_proof.specs.declared.cut.CutRule.TheVariants.{Gmic, Table};
ghost use Rattle.gj_cut_text.specs.Columns.{continuous_columns};
ghost use Rattle.gj_cut_text.specs.MixedLines.{AppendsLines, MakesCutsIn};

use crate::columns::continuous_columns;
use crate::mixed::push_cut;
use gj_cut::{cut_row, gmic_cut_row};
use gj_frac::Frac;
use gj_lex::Name;
use gj_mixed::{MixedCut, Slopes, SlopesAtZero, cut_mixed, gmic_cut_mixed};
use gj_proof::CutRule;
use gj_row::{Row, Tableau};
use gj_rule::{Evaluator, Rule, RuleKind, table_value};
use gj_shape::Shape;
use std::alloc::{AllocError, Global};

/// Appends the lines of each row of the tableau, in their order: its cut by the rule, or why it has
/// none. The cut of a row is made and printed before that of the next, so that no more than one is
/// kept.
///
/// If `mixed`, the columns whose names begin with `c:` are continuous, and so is a function. Else
/// every column is taken for whole. The only error is want of memory.
pub(crate) fn push_row_lines(
    alloc: Global,
    out: &mut Vec<u8>,
    rule: &CutRule,
    tableau: &Tableau,
    mixed: bool,
) -> Result<(), AllocError>
    requires bounded { IsBoundedRule rule.now }
    requires makes { MakesCutsIn mixed rule.now }
    requires tableau { IsTableau tableau.now }
    ensures { OnOk result (AppendsLines mixed rule.now tableau.now.columns tableau.now.rows
        out.old.items out.new.items) }
{
    let columns = tableau.columns.as_slice();
    let rows = tableau.rows.as_slice();
    let flags = continuous_columns(alloc, columns, mixed)?;
    let continuous = flags.as_slice();
    match rule {
        CutRule::Gmic => push_gmic_lines(alloc, out, columns, rows, mixed, continuous),
        CutRule::Table(shape) => {
            push_function_lines(alloc, out, shape, columns, rows, mixed, continuous)
        }
    }
}

/// Appends the lines of each row by the mixed-integer cut.
fn push_gmic_lines(
    alloc: Global,
    out: &mut Vec<u8>,
    columns: &[Name],
    rows: &[Row],
    mixed: bool,
    continuous: &[bool],
) -> Result<(), AllocError>
    requires flags { mixed ≡ true → continuous.now ≡ continuous_columns columns.now }
    requires rows { All (IsRowWithinLimits (length columns.now)) rows.now }
    ensures { OnOk result (AppendsLines mixed Gmic columns.now rows.now
        out.old.items out.new.items) }
{
    for row in rows {
        let cut = if mixed {
            gmic_cut_mixed(alloc, row, continuous)?
        } else {
            let whole = gmic_cut_row(alloc, row)?;
            MixedCut::of_whole(alloc, whole)
        };
        push_cut(out, columns, row, &cut)?;
    }
    Ok(())
}

/// Appends the lines of each row by a minimal function.
fn push_function_lines(
    alloc: Global,
    out: &mut Vec<u8>,
    shape: &Shape,
    columns: &[Name],
    rows: &[Row],
    mixed: bool,
    continuous: &[bool],
) -> Result<(), AllocError>
    requires bounds { IsWithinBounds shape.now }
    requires minimal { IsMinimal shape.now }
    requires jumps_not { mixed ≡ true → IsContinuous shape.now }
    requires flags { mixed ≡ true → continuous.now ≡ continuous_columns columns.now }
    requires rows { All (IsRowWithinLimits (length columns.now)) rows.now }
    ensures { OnOk result (AppendsLines mixed (Table shape.now) columns.now rows.now
        out.old.items out.new.items) }
{
    let kept = shape.copy(alloc)?;
    let at_zero = SlopesAtZero::of_function(shape);
    // Each way has an evaluator of its own, so that the compiler takes it into the one loop over
    // entries that calls it.
    if mixed {
        let eval = |x: Frac|
            requires { IsRowNumber x }
            ensures { IsValueOf shape.entry.now x result }
        { table_value(shape, x) };
        let weigh = |c| at_zero.weight(c);
        return push_lines_by(
            alloc, out, kept, eval, at_zero, weigh, columns, rows, true, continuous,
        );
    }
    let eval = |x: Frac|
        requires { IsRowNumber x }
        ensures { IsValueOf shape.entry.now x result }
    { table_value(shape, x) };
    let weigh = |c| at_zero.weight(c);
    push_lines_by(
        alloc, out, kept, eval, at_zero, weigh, columns, rows, false, continuous,
    )
}

/// Appends the lines of each row by the function with this evaluator, and the slopes with this one.
fn push_lines_by<E: Evaluator, G: Evaluator>(
    alloc: Global,
    out: &mut Vec<u8>,
    shape: Shape,
    eval: E,
    at_zero: SlopesAtZero,
    weigh: G,
    columns: &[Name],
    rows: &[Row],
    mixed: bool,
    continuous: &[bool],
) -> Result<(), AllocError>
    requires minimal { IsMinimal shape }
    requires jumps_not { mixed ≡ true → IsContinuous shape }
    requires evaluates { Evaluates E.can_answer E.answers (kind.Table shape) eval }
    requires up { IsSlope at_zero.up }
    requires down { IsSlope at_zero.down }
    requires weighs { Weighs G.can_answer G.answers at_zero.up at_zero.down weigh }
    requires slopes { AreSlopesAtZero shape at_zero.up at_zero.down }
    requires flags { mixed ≡ true → continuous.now ≡ continuous_columns columns.now }
    requires rows { All (IsRowWithinLimits (length columns.now)) rows.now }
    ensures { OnOk result (AppendsLines mixed (Table shape) columns.now rows.now
        out.old.items out.new.items) }
{
    let rule = Rule::new(RuleKind::Table(shape), eval);
    let slopes = Slopes::new(at_zero.up, at_zero.down, weigh);
    for row in rows {
        let cut = if mixed {
            cut_mixed(alloc, &rule, &slopes, row, continuous)?
        } else {
            let whole = cut_row(alloc, &rule, row)?;
            MixedCut::of_whole(alloc, whole)
        };
        push_cut(out, columns, row, &cut)?;
    }
    Ok(())
}
