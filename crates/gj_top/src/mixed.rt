//! The command `mixed`: the mixed cuts of the rows of a tableau, by a function or by the
//! mixed-integer cut.
ghost use Rattle.std.specs.Prelude.{IfOk};
ghost use Rattle.gj_row.specs.TableauLimits.{IsTableau};
ghost use Rattle.gj_top.specs.Task.{IsAnswering};
ghost use Rattle.gj_top.specs.Mixed.{IsMixedReply, mixed};

use crate::cut_input::{CutInput, cut_input_of};
use crate::objection::objection_to;
use crate::reply::{End, Reply, Unanswered};
use gj_cut_text::mixed_text;
use gj_proof::CutRule;
use gj_row::Tableau;
use std::alloc::{AllocError, Global};

/// The mixed cuts of the rows of the tableau behind the function or the rule that the input begins
/// with, or the first violation, or the first jump of the function.
pub(crate) fn reply(alloc: Global, input: &[u8]) -> Result<Reply, Unanswered>
    ensures { IsAnswering mixed input.now result }
{
    let CutInput { rule, tableau } = cut_input_of(alloc, input)?;
    Ok(mixed_reply(alloc, &rule, &tableau)?)
}

/// The mixed cuts of the rows of the tableau by the rule, as the command `mixed` gives them, or the
/// first violation or the first jump of the function of the rule.
pub fn mixed_reply(alloc: Global, rule: &CutRule, tableau: &Tableau) -> Result<Reply, AllocError>
    requires { IsTableau tableau.now }
    ensures { IfOk result (λ reply. IsMixedReply
        (record { «rule» = rule.now; tableau = tableau.now }) reply.end reply.text.items) }
{
    if let Some(objection) = objection_to(alloc, rule)? {
        return Ok(objection);
    }
    Ok(Reply {
        end: End::Done,
        text: mixed_text(alloc, rule, tableau)?,
    })
}
