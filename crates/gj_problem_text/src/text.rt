//! The text of the cuts that a task asks for.
ghost use Rattle.std.specs.Prelude.{IfOk};
ghost use Rattle.gj_proof.specs.CutRules.{MakesContinuousCuts};
ghost use Rattle.gj_problem_text.specs.CutText.{IsCutsTextBy};
ghost use Rattle.gj_problem_text.specs.Ready.{IsReady};

use crate::answers::push_answers;
use crate::task::Task;
use gj_proof::{CutRule, push_rule_lines};
use std::alloc::{AllocError, Global};

/// The text of the cuts that the task asks for by the rule: one for each row that is to give one, in
/// their order, or why there is none.
///
/// Each cut holds at all feasible points of the task's problem. Want of memory is the only error.
///
/// ```text
/// let input = b"gj-problem 1\nrule gmic\ncolumn x whole 0 -\nconstraint c <= 7/2\n\
///     entry x 1\nsum 1\nend\n";
/// let asked = read_safe_input(alloc, input)?;
/// let text = cuts_text(alloc, &asked.rule, &asked.task)?;
/// ```
pub fn cuts_text(alloc: Global, rule: &CutRule, task: &Task) -> Result<Vec<u8>, AllocError>
    requires makes { MakesContinuousCuts rule.now }
    requires ready { IsReady task.now }
    ensures { IfOk result (λ out. IsCutsTextBy rule.now task.now out.items) }
{
    let mut out = Vec::from_slice(alloc, b"gj-safe 1\n")?;
    push_rule_lines(alloc, &mut out, rule)?;
    push_answers(alloc, &mut out, rule, task)?;
    out.extend_from_slice(b"end\n")?;
    Ok(out)
}
