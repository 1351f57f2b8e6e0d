//! Why a rule makes no cuts.
ghost use Rattle.std.specs.Prelude.{◌≡◌, ◌++◌, codes, IfOk, IfSome, IfNone};
ghost use Rattle.gj_proof.specs.CutRules.{MakesContinuousCuts};
ghost use Rattle.gj_proof.specs.ProofText.{IsBoundedRule, violation_line};
ghost use Rattle.gj_cut_text.specs.CutRules.{PassesTests};
ghost use Rattle.gj_top.specs.Objection.{IsObjection, NamesJump};

use crate::continuity::jump_reply;
use crate::reply::{End, Reply};
use gj_cut_text::violation_of_rule;
use gj_proof::{CutRule, push_violation_line};
use gj_shape::Violation;
use std::alloc::{AllocError, Global};

/// The reply to a rule that makes no cuts where columns are continuous: the first violation of its
/// function, or the first jump; a rule that makes such cuts goes on.
pub(crate) fn objection_to(alloc: Global, rule: &CutRule) -> Result<Option<Reply>, AllocError>
    ensures some { IfOk result (λ found. IfSome found
        (λ reply. IsObjection rule.now reply.end reply.text.items)) }
    ensures none { IfOk result (λ found. IfNone found (MakesContinuousCuts rule.now)) }
    ensures bounded { IfOk result (λ found. IfNone found (IsBoundedRule rule.now)) }
{
    if let Some(violation) = violation_of_rule(rule) {
        return Ok(Some(Reply {
            end: End::NoFunction,
            text: violation_text(alloc, violation)?,
        }));
    }
    jump_of(alloc, rule)
}

/// The reply to a rule whose function jumps.
fn jump_of(alloc: Global, rule: &CutRule) -> Result<Option<Reply>, AllocError>
    requires tests { PassesTests rule.now }
    ensures some { IfOk result (λ found. IfSome found
        (λ reply. (reply.end ≡ End.NotContinuous) × NamesJump rule.now reply.text.items)) }
    ensures none { IfOk result (λ found. IfNone found (MakesContinuousCuts rule.now)) }
    ensures bounded { IfOk result (λ found. IfNone found (IsBoundedRule rule.now)) }
{
    match rule {
        CutRule::Gmic => Ok(None),
        CutRule::Table(shape) => jump_reply(alloc, shape),
    }
}

/// The line that names the first violation of a function.
pub(crate) fn violation_text(alloc: Global, violation: Violation) -> Result<Vec<u8>, AllocError>
    ensures { IfOk result (λ text. text.items ≡ codes "no function " ++ violation_line violation) }
{
    let mut text = Vec::from_slice(alloc, b"no function ")?;
    push_violation_line(alloc, &mut text, violation)?;
    Ok(text)
}
