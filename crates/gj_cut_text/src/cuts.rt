//! The text of the claim about the cuts of the rows of a tableau.
ghost use Rattle.std.specs.Prelude.{IfOk};
ghost use Rattle.gj_row.specs.TableauLimits.{IsTableau};
ghost use Rattle.gj_cut_text.specs.CutClaim.{IsTextOfCuts};
ghost use Rattle.gj_cut_text.specs.CutRules.{PassesTests};

use crate::lines::push_row_lines;
use gj_proof::{CutRule, push_rule_lines};
use gj_row::Tableau;
use std::alloc::{AllocError, Global};

/// The proof text of the claim about the cuts of the rows of the tableau by the rule: the lines of
/// each row, with its cut or why it has none.
///
/// [`violation_of_rule`](crate::violation_of_rule) has found no violation of the rule. Every column
/// is taken for whole. The lines of a row are printed before the cut of the next is made, so that
/// no more than one cut is kept. The only error is want of memory.
///
/// ```text
/// let tableau = Tableau::read(alloc, b"basic,rhs,x1,x2\nx0,8/5,7/5,-1/5\n")?;
/// let text = cuts_text(alloc, &CutRule::Gmic, &tableau)?;
/// // behind its first three lines it has `cut x0 8/5`, `term x1 7/5 2/3`, `term x2 -1/5 1/2`
/// // and `end`
/// ```
pub fn cuts_text(alloc: Global, rule: &CutRule, tableau: &Tableau) -> Result<Vec<u8>, AllocError>
    requires tests { PassesTests rule.now }
    requires tableau { IsTableau tableau.now }
    ensures { IfOk result (λ text. IsTextOfCuts rule.now tableau.now text.items) }
{
    let mut text = Vec::from_slice(alloc, b"gj-proof 1\nclaim cut\n")?;
    push_rule_lines(alloc, &mut text, rule)?;
    push_row_lines(alloc, &mut text, rule, tableau, false)?;
    text.extend_from_slice(b"end\n")?;
    Ok(text)
}
