//! What the checker says of a derivation.
ghost use Rattle.std.specs.Prelude.{◌≡◌, IfOk, length};
ghost use Rattle.std.specs.Option.{option_copied};
ghost use Rattle.gj_derivation_text.specs.DerivationInputs.{IsDerivationText};
ghost use Rattle.gj_derivation_text.specs.Readable.{IsReadableDerivation};
ghost use Rattle.gj_top.specs.Task.{IsAnswering, IsReadingOf};
ghost use Rattle.gj_top.specs.Check.{check};
ghost use Rattle.gj_top.specs.Derivation.{BeginsAsDerivation, RefusesDerivation};
ghost use Rattle.gj_top.specs.Derivation.{IsDerivationReply, rule_in_front, function_of};

use crate::forms::refused;
use crate::objection::objection_to;
use crate::reply::{End, Reply, Unanswered};
use gj_derivation::{Checked, check_steps};
use gj_derivation_text::{
    DerivationInput, line_of_step, push_accepted, push_rejected, read_derivation,
};
use gj_problem_text::ProblemFault;
use gj_proof::CutRule;
use gj_shape::Shape;
use std::alloc::{AllocError, Global};

/// What the checker says of the derivation that the input tells.
pub(crate) fn derivation_answer(alloc: Global, input: &[u8]) -> Result<Reply, Unanswered>
    requires { BeginsAsDerivation input.now }
    ensures { IsAnswering check input.now result }
{
    let derivation = derivation_of(alloc, input)?;
    Ok(derivation_reply(alloc, input, derivation)?)
}

/// The derivation that the input tells.
fn derivation_of(alloc: Global, input: &[u8]) -> Result<DerivationInput, Unanswered>
    ensures found { IsReadingOf IsDerivationText RefusesDerivation input.now result }
    ensures readable { IfOk result IsReadableDerivation }
    ensures left { IfOk result (λ d. length d.left ≡ length d.steps) }
{
    match read_derivation(alloc, input) {
        Ok(derivation) => Ok(derivation),
        Err(ProblemFault::Refused(at_line, reason)) => Err(refused(alloc, at_line, reason)),
        Err(ProblemFault::Memory(error)) => Err(Unanswered::Memory(error)),
    }
}

/// What the checker says of the steps of the derivation, which the input tells; or the first
/// violation or the first jump of the function in front.
fn derivation_reply(
    alloc: Global,
    input: &[u8],
    derivation: DerivationInput,
) -> Result<Reply, AllocError>
    requires readable { IsReadableDerivation derivation }
    requires left { length derivation.left ≡ length derivation.steps }
    ensures { IfOk result (λ reply. IsDerivationReply
        (record { text = input.now; told = derivation }) reply.end reply.text.items) }
{
    let DerivationInput {
        function,
        columns,
        lines,
        problem,
        steps,
        left,
    } = derivation;
    let rule = rule_in_front(function);
    if let Some(objection) = objection_to(alloc, &rule)? {
        return Ok(objection);
    }
    let mut text = Vec::new(alloc);
    match check_steps(alloc, function_in(&rule), problem, steps.as_slice())? {
        Checked::Accepted => {
            push_accepted(&mut text)?;
            Ok(Reply {
                end: End::Done,
                text,
            })
        }
        Checked::Failed(failure) => {
            let at_line = line_of_step(input, left.as_slice(), failure.step);
            let columns = columns.as_slice();
            push_rejected(
                &mut text,
                columns,
                lines.as_slice(),
                at_line,
                failure.verdict,
            )?;
            Ok(Reply {
                end: End::Rejected,
                text,
            })
        }
    }
}

/// The rule for which the function in front of steps stands.
pub(crate) fn rule_in_front(function: Option<Shape>) -> CutRule
    ensures { result ≡ rule_in_front function }
{
    match function {
        Some(shape) => CutRule::Table(shape),
        None => CutRule::Gmic,
    }
}

/// The function of the rule.
pub(crate) fn function_in(rule: &CutRule) -> Option<&Shape>
    ensures { option_copied result ≡ function_of rule.now }
{
    match rule {
        CutRule::Table(shape) => Some(shape),
        CutRule::Gmic => None,
    }
}
