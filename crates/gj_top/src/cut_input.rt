//! The input of the commands `cut` and `mixed`: a function or a rule, and a tableau behind it.
ghost use Rattle.std.specs.Prelude.{◌≤◌, drop, length, IfOk, IfErr};
ghost use Rattle.gj_proof.specs.declared.cut.CutRule.{CutRule};
ghost use Rattle.gj_row.specs.TableauText.{IsTableauText};
ghost use Rattle.gj_top.specs.Task.{IsReadingOf, IsTaskRefusal};
ghost use Rattle.gj_top.specs.Cut.{SpellsCutInput, BeginsWithRule, RefusesCutInput};

use crate::forms::refused;
use crate::lines::numbered_line;
use crate::reply::Unanswered;
use gj_function_text::{TextFault, begins_as_rule, read_function, read_rule};
use gj_proof::CutRule;
use gj_row::{RowFault, Tableau};
use std::alloc::Global;

/// A rule, and the rows of which it makes cuts.
#[derive(Drop)]
pub struct CutInput {
    /// A function, or the mixed-integer cut.
    pub rule: CutRule,
    /// The rows, and the names of their columns.
    pub tableau: Tableau,
}

/// The rule and the tableau that the input spells.
pub(crate) fn cut_input_of(alloc: Global, input: &[u8]) -> Result<CutInput, Unanswered>
    ensures { IsReadingOf SpellsCutInput RefusesCutInput input.now result }
{
    let (rule, len) = rule_of(alloc, input)?;
    let tableau = tableau_behind(alloc, input, len)?;
    Ok(CutInput { rule, tableau })
}

/// The rule that the input begins with, and the number of bytes up to and with its line `end`.
fn rule_of(alloc: Global, input: &[u8]) -> Result<(CutRule, usize), Unanswered>
    ensures found { IfOk result (λ r. (r.1 ≤ length input.now) ×
        BeginsWithRule input.now r.0 (drop r.1 input.now)) }
    ensures refused { IfErr result (IsTaskRefusal RefusesCutInput input.now) }
{
    if begins_as_rule(input) {
        match read_rule(input) {
            Ok(len) => Ok((CutRule::Gmic, len)),
            Err((at_line, reason)) => Err(refused(alloc, at_line, reason)),
        }
    } else {
        match read_function(alloc, input) {
            Ok((shape, len)) => Ok((CutRule::Table(shape), len)),
            Err(TextFault::Refused(at_line, reason)) => Err(refused(alloc, at_line, reason)),
            Err(TextFault::Memory(error)) => Err(Unanswered::Memory(error)),
        }
    }
}

/// The tableau behind the first bytes of the input, which are those of a rule.
fn tableau_behind(alloc: Global, input: &[u8], len: usize) -> Result<Tableau, Unanswered>
    requires within { len ≤ length input.now }
    requires rule { (r : CutRule) × BeginsWithRule input.now r (drop len input.now) }
    ensures found { IfOk result (IsTableauText (drop len input.now)) }
    ensures refused { IfErr result (IsTaskRefusal RefusesCutInput input.now) }
{
    match Tableau::read(alloc, &input[len..]) {
        Ok(tableau) => Ok(tableau),
        Err(RowFault::Refused(number, reason)) => {
            let line = numbered_line(alloc, b"refused record ", number, reason.word())?;
            Err(Unanswered::Refused(line))
        }
        Err(RowFault::Memory(error)) => Err(Unanswered::Memory(error)),
    }
}
