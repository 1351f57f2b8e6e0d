//! The command `minimal`: whether a function is minimal, as a proof text or a report of it.
ghost use Rattle.gj_top.specs.Task.{IsAnswering};
ghost use Rattle.gj_top.specs.Minimal.{minimal};

use crate::forms::function_of;
use crate::reply::{End, Reply, Unanswered};
use crate::report::proof_text;
use gj_verdict_text::minimality_proof;
use std::alloc::Global;

/// The verdict on the function that the input spells.
pub(crate) fn reply(alloc: Global, input: &[u8], json: bool) -> Result<Reply, Unanswered>
    ensures { IsAnswering (minimal json) input.now result }
{
    let proof = minimality_proof(function_of(alloc, input, json)?);
    Ok(Reply {
        end: End::Done,
        text: proof_text(alloc, &proof, json)?,
    })
}
