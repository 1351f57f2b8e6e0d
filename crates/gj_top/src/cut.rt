//! The command `cut`: the cuts of the rows of a tableau, by a function or by the mixed-integer cut.
ghost use Rattle.std.specs.Prelude.{IfOk};
ghost use Rattle.gj_row.specs.TableauLimits.{IsTableau};
ghost use Rattle.gj_top.specs.Task.{IsAnswering};
ghost use Rattle.gj_top.specs.Cut.{IsCutReply, cut};

use crate::cut_input::{CutInput, cut_input_of};
use crate::objection::violation_text;
use crate::reply::{End, Reply, Unanswered};
use gj_cut_text::{cuts_text, violation_of_rule};
use std::alloc::{AllocError, Global};

/// The cuts of the rows of the tableau behind the function or the rule that the input begins with,
/// or the first violation of the function.
pub(crate) fn reply(alloc: Global, input: &[u8]) -> Result<Reply, Unanswered>
    ensures { IsAnswering cut input.now result }
{
    let input = cut_input_of(alloc, input)?;
    Ok(cuts_or_violation(alloc, &input)?)
}

/// The cuts of the rows of the tableau, or the first violation of the function of the rule.
fn cuts_or_violation(alloc: Global, input: &CutInput) -> Result<Reply, AllocError>
    requires { IsTableau input.now.tableau }
    ensures { IfOk result (λ reply. IsCutReply input.now reply.end reply.text.items) }
{
    match violation_of_rule(&input.rule) {
        Some(violation) => Ok(Reply {
            end: End::NoFunction,
            text: violation_text(alloc, violation)?,
        }),
        None => Ok(Reply {
            end: End::Done,
            text: cuts_text(alloc, &input.rule, &input.tableau)?,
        }),
    }
}
