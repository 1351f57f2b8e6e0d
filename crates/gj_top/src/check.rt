//! The command `check`: what the checker says of a proof text of any kind or of a derivation.
ghost use Rattle.std.specs.Prelude.{◌↔◌, IsTrue, IfOk};
ghost use Rattle.gj_proof.specs.ProofText.{IsBounded};
ghost use Rattle.gj_limit_proof.specs.LimitText.{IsBounded as IsLimitBounded};
ghost use Rattle.gj_top.specs.Task.{IsAnswering};
ghost use Rattle.gj_top.specs.Derivation.{BeginsAsDerivation};
ghost use Rattle.gj_top.specs.Check.{BeginsAsLimitProof, IsJudgement, IsLimitJudgement, check};

use crate::derivation::derivation_answer;
use crate::forms::{limit_proof_of, proof_of};
use crate::lines::{numbered_line, worded_line};
use crate::reply::{End, Reply, Unanswered};
use gj_check::{CheckFault, check};
use gj_forms::{begins_with_line, begins_with_word};
use gj_lex::Spelling;
use gj_limit_check::check_limit_proof;
use gj_limit_proof::LimitProof;
use gj_proof::Proof;
use std::alloc::{AllocError, Global};

/// What the checker says of the proof, or of the derivation, that the input spells.
pub(crate) fn reply(alloc: Global, input: &[u8]) -> Result<Reply, Unanswered>
    ensures { IsAnswering check input.now result }
{
    if begins_as_derivation(input) {
        return derivation_answer(alloc, input);
    }
    if begins_as_limit_proof(input) {
        return limit_claim_answer(alloc, input);
    }
    claim_answer(alloc, input)
}

/// Whether the input is read as a derivation: by its first word.
fn begins_as_derivation(input: &[u8]) -> bool
    ensures { IsTrue result ↔ BeginsAsDerivation input.now }
{
    begins_with_word(Spelling::Lenient, input, b"gj-derivation")
        || begins_with_word(Spelling::Lenient, input, b"gj-function")
}

/// Whether the input is read as a proof text about a function that jumps: by its first line.
fn begins_as_limit_proof(input: &[u8]) -> bool
    ensures { IsTrue result ↔ BeginsAsLimitProof input.now }
{
    begins_with_line(Spelling::Strict, input, b"gj-proof 3")
}

/// What the checker says of the proof that the input spells.
fn claim_answer(alloc: Global, input: &[u8]) -> Result<Reply, Unanswered>
    requires no_steps { BeginsAsDerivation input.now → ⊥ }
    requires no_limits { BeginsAsLimitProof input.now → ⊥ }
    ensures { IsAnswering check input.now result }
{
    let proof = proof_of(alloc, input)?;
    Ok(judgement(alloc, &proof)?)
}

/// What the checker says of the proof.
fn judgement(alloc: Global, proof: &Proof) -> Result<Reply, AllocError>
    requires { IsBounded proof.now }
    ensures { IfOk result (λ reply. IsJudgement proof.now reply.end reply.text.items) }
{
    match check(alloc, proof) {
        Ok(()) => Ok(Reply {
            end: End::Done,
            text: worded_line(alloc, b"accepted ", proof.claim().word())?,
        }),
        Err(CheckFault::Rejected(at_line, rule)) => Ok(Reply {
            end: End::Rejected,
            text: numbered_line(alloc, b"rejected line ", at_line, rule.word())?,
        }),
        Err(CheckFault::Memory(error)) => Err(error),
    }
}

/// What the checker says of the proof about a function that jumps that the input spells.
fn limit_claim_answer(alloc: Global, input: &[u8]) -> Result<Reply, Unanswered>
    requires no_steps { BeginsAsDerivation input.now → ⊥ }
    requires limits { BeginsAsLimitProof input.now }
    ensures { IsAnswering check input.now result }
{
    let proof = limit_proof_of(alloc, input)?;
    Ok(limit_judgement(alloc, &proof)?)
}

/// What the checker says of the proof about a function that jumps.
fn limit_judgement(alloc: Global, proof: &LimitProof) -> Result<Reply, AllocError>
    requires { IsLimitBounded proof.now }
    ensures { IfOk result (λ reply. IsLimitJudgement proof.now reply.end reply.text.items) }
{
    match check_limit_proof(alloc, proof) {
        Ok(()) => Ok(Reply {
            end: End::Done,
            text: worded_line(alloc, b"accepted ", proof.claim().word())?,
        }),
        Err(CheckFault::Rejected(at_line, rule)) => Ok(Reply {
            end: End::Rejected,
            text: numbered_line(alloc, b"rejected line ", at_line, rule.word())?,
        }),
        Err(CheckFault::Memory(error)) => Err(error),
    }
}
