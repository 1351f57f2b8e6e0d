//! Mixed cuts, printed.
ghost use Rattle.std.specs.Prelude.{◌≡◌, ◌++◌, IfOk, OnOk, length};
ghost use Rattle.gj_row.specs.TableauLimits.{IsTableau};
ghost use Rattle.gj_proof.specs.CutRules.{MakesContinuousCuts};
ghost use Rattle.gj_proof.specs.ProofText.{IsBoundedRule};
ghost use Rattle.gj_cut_text.specs.MixedLines.{AreInColumns, AreMixedCutsOf};
ghost use Rattle.gj_cut_text.specs.MixedLines.{NamesMixedCut, mixed_row_text};
ghost use Rattle.gj_cut_text.specs.declared.mixed_lines.MixedLine.{MixedLine};

use crate::lines::push_row_lines;
use crate::named::{push_cut_row, push_weights};
use gj_lex::Name;
use gj_mixed::MixedCut;
use gj_proof::{CutRule, SkipReason, push_rule_lines, push_skip_line};
use gj_row::{Row, Tableau};
use std::alloc::{AllocError, Global};

/// The text of the mixed cuts of the rows of the tableau by the rule: `gj-mixed 1`, the lines of
/// the rule, a group of lines a row in their order, and `end`.
///
/// A function is minimal and continuous. The only error is want of memory.
pub fn mixed_text(alloc: Global, rule: &CutRule, tableau: &Tableau) -> Result<Vec<u8>, AllocError>
    requires bounded { IsBoundedRule rule.now }
    requires makes { MakesContinuousCuts rule.now }
    requires tableau { IsTableau tableau.now }
    ensures { IfOk result (λ text. AreMixedCutsOf rule.now tableau.now text.items) }
{
    let mut text = Vec::from_slice(alloc, b"gj-mixed 1\n")?;
    push_rule_lines(alloc, &mut text, rule)?;
    push_row_lines(alloc, &mut text, rule, tableau, true)?;
    text.extend_from_slice(b"end\n")?;
    Ok(text)
}

/// Appends the lines of a row with this cut: those of its whole columns, or that it is passed over,
/// and behind them a line for each continuous column.
pub(crate) fn push_cut(
    out: &mut Vec<u8>,
    columns: &[Name],
    row: &Row,
    cut: &MixedCut,
) -> Result<(), AllocError>
    requires { AreInColumns (length columns.now) cut.now }
    ensures { OnOk result ((m : MixedLine) ×
        NamesMixedCut columns.now row.now cut.now m.line m.weights
        × (out.new.items ≡ out.old.items ++ mixed_row_text m)) }
{
    match cut {
        MixedCut::Cut(terms, weights) => {
            push_cut_row(out, columns, row, terms.as_slice())?;
            push_weights(out, columns, weights.as_slice())
        }
        MixedCut::Integral => { push_skip_line(out, &row.basic, row.rhs, SkipReason::Integral) }
        MixedCut::OtherFraction => { push_skip_line(out, &row.basic, row.rhs, SkipReason::Other) }
    }
}
