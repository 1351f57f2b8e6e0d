//! The command `problem`: the cuts of the rows of a mixed-integer program by its multipliers, by a
//! function or by the mixed-integer cut.
ghost use Rattle.std.specs.Prelude.{IfOk};
ghost use Rattle.gj_problem_text.specs.Ready.{IsReady};
ghost use Rattle.gj_problem_text.specs.SafeInputs.{IsSafeInput};
ghost use Rattle.gj_top.specs.Task.{IsAnswering, IsReadingOf};
ghost use Rattle.gj_top.specs.Problem.{IsProblemReply, RefusesProblem, problem};

use crate::forms::refused;
use crate::objection::objection_to;
use crate::reply::{End, Reply, Unanswered};
use gj_problem_text::{ProblemFault, SafeInput, cuts_text, read_safe_input};
use std::alloc::{AllocError, Global};

/// The cuts of the rows that the problem text asks for by its rule, or the first violation, or the
/// first jump of the function.
pub(crate) fn reply(alloc: Global, input: &[u8]) -> Result<Reply, Unanswered>
    ensures { IsAnswering problem input.now result }
{
    let asked = problem_of(alloc, input)?;
    Ok(problem_reply(alloc, &asked)?)
}

/// The rule and the problem that the input spells.
fn problem_of(alloc: Global, input: &[u8]) -> Result<SafeInput, Unanswered>
    ensures found { IsReadingOf IsSafeInput RefusesProblem input.now result }
    ensures ready { IfOk result (λ asked. IsReady asked.task) }
{
    match read_safe_input(alloc, input) {
        Ok(asked) => Ok(asked),
        Err(ProblemFault::Refused(at_line, reason)) => Err(refused(alloc, at_line, reason)),
        Err(ProblemFault::Memory(error)) => Err(Unanswered::Memory(error)),
    }
}

/// The cuts of the rows by their multipliers, as the command `problem` gives them, or the first
/// violation or the first jump of the function of the rule.
fn problem_reply(alloc: Global, asked: &SafeInput) -> Result<Reply, AllocError>
    requires { IsReady asked.now.task }
    ensures { IfOk result (λ reply. IsProblemReply asked.now reply.end reply.text.items) }
{
    if let Some(objection) = objection_to(alloc, &asked.rule)? {
        return Ok(objection);
    }
    Ok(Reply {
        end: End::Done,
        text: cuts_text(alloc, &asked.rule, &asked.task)?,
    })
}
