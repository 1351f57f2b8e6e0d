//! The command `extreme`: whether a function is extreme, as a proof text or a report of it.
ghost use Rattle.std.specs.Prelude.{◌≡◌, IfOk};
ghost use Rattle.gj_shape.specs.Table.{IsMinimal};
ghost use Rattle.gj_limit_extreme.specs.Decision.{IsLimitDecided};
ghost use Rattle.gj_limit_proof.specs.LimitMeaning.{LimitClaimHolds};
ghost use Rattle.gj_limit_proof.specs.LimitRules.{MeetsLimitRules};
ghost use Rattle.gj_limit_proof.specs.LimitText.{IsBounded};
ghost use Rattle.gj_top.specs.Task.{IsAnswering};
ghost use Rattle.gj_top.specs.Continuity.{Jumps};
ghost use Rattle.gj_top.specs.Report.{limit_claims, IsToldReply, IsToldBy};
ghost use Rattle.gj_top.specs.Extreme.{IsExtremality, extreme, wide_line};
ghost use Rattle.gj_top.specs.LimitExtreme.{IsLimitExtremality, IsJumpsExtremality};
ghost use Rattle.gj_top.specs.LimitExtreme.{extreme_with_jumps};

use crate::continuity::jump_text;
use crate::forms::function_of;
use crate::reply::{End, Reply, Unanswered};
use crate::report::{limit_proof_text, proof_text};
use gj_extreme::{DecideFault, decide};
use gj_limit_extreme::{LimitDecideFault, decide_limits};
use gj_limit_proof::{LimitProof, write_limit_proof};
use gj_shape::Shape;
use std::alloc::{AllocError, Global};

/// The most bytes of a proof text about a function that jumps.
const LONGEST_TEXT: usize = 12_000_000;

/// The verdict on the function that the input spells.
pub(crate) fn reply(alloc: Global, input: &[u8], json: bool) -> Result<Reply, Unanswered>
    ensures { IsAnswering (extreme json) input.now result }
{
    let shape = function_of(alloc, input, json)?;
    Ok(verdict_on(alloc, &shape, json)?)
}

/// The verdict on the function, or why there is none: its first jump, or that a number is too wide.
fn verdict_on(alloc: Global, shape: &Shape, json: bool) -> Result<Reply, AllocError>
    ensures { IfOk result (λ reply. IsToldReply json IsExtremality shape.now reply.end
        reply.text.items) }
{
    match decide(alloc, shape) {
        Ok(proof) => Ok(Reply {
            end: End::Done,
            text: proof_text(alloc, &proof, json)?,
        }),
        Err(DecideFault::NotContinuous(index)) => Ok(Reply {
            end: End::NotContinuous,
            text: jump_text(alloc, shape, index)?,
        }),
        Err(DecideFault::Wide) => Ok(Reply {
            end: End::Wide,
            text: wide_text(alloc)?,
        }),
        Err(DecideFault::Memory(error)) => Err(error),
    }
}

/// The line if a number of the decision is too wide, or its proof text too long.
fn wide_text(alloc: Global) -> Result<Vec<u8>, AllocError>
    ensures { IfOk result (λ text. text.items ≡ wide_line) }
{
    Vec::from_slice(alloc, b"wide\n")
}

/// The verdict on the function that the input spells; on a minimal one that jumps by the limits of
/// its slack.
pub(crate) fn reply_with_jumps(alloc: Global, input: &[u8], json: bool) -> Result<Reply, Unanswered>
    ensures { IsAnswering (extreme_with_jumps json) input.now result }
{
    let shape = function_of(alloc, input, json)?;
    Ok(verdict_with_jumps(alloc, &shape, json)?)
}

/// The verdict on the function; on a minimal one that jumps by the limits of its slack.
fn verdict_with_jumps(alloc: Global, shape: &Shape, json: bool) -> Result<Reply, AllocError>
    ensures { IfOk result (λ reply. IsJumpsExtremality json shape.now reply.end reply.text.items) }
{
    let verdict = verdict_on(alloc, shape, json)?;
    match verdict.end {
        End::NotContinuous => limit_verdict_on(alloc, shape, json),
        _ => Ok(verdict),
    }
}

/// The verdict on a minimal function that jumps, or that a number of the decision is too wide or
/// the proof text too long.
fn limit_verdict_on(alloc: Global, shape: &Shape, json: bool) -> Result<Reply, AllocError>
    requires minimal { IsMinimal shape.now }
    requires jumps { Jumps shape.now }
    ensures { IfOk result (λ reply. IsToldBy limit_claims json IsLimitExtremality shape.now
        reply.end reply.text.items) }
{
    match decide_limits(alloc, shape) {
        Ok(proof) => short_proof(alloc, shape, &proof, json),
        Err(LimitDecideFault::Wide) => Ok(Reply {
            end: End::Wide,
            text: wide_text(alloc)?,
        }),
        Err(LimitDecideFault::Memory(error)) => Err(error),
    }
}

/// The proof of the decision on a minimal function that jumps, if its text is not too long.
fn short_proof(
    alloc: Global,
    shape: &Shape,
    proof: &LimitProof,
    json: bool,
) -> Result<Reply, AllocError>
    requires minimal { IsMinimal shape.now }
    requires jumps { Jumps shape.now }
    requires decided { IsLimitDecided shape.now proof.now }
    requires bounded { IsBounded proof.now }
    requires rules { MeetsLimitRules proof.now }
    requires holds { LimitClaimHolds proof.now }
    ensures { IfOk result (λ reply. IsToldBy limit_claims json IsLimitExtremality shape.now
        reply.end reply.text.items) }
{
    let written = write_limit_proof(alloc, proof)?;
    if written.len() > LONGEST_TEXT {
        return Ok(Reply {
            end: End::Wide,
            text: wide_text(alloc)?,
        });
    }
    Ok(Reply {
        end: End::Done,
        text: limit_proof_text(alloc, proof, written, json)?,
    })
}
