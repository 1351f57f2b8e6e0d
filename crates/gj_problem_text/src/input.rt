//! Problem texts with their rules, read.
ghost use Rattle.std.specs.Prelude.{◌≡◌, ◌≤◌, drop, length, IfOk, IfErr, MatchResult};
ghost use Rattle.gj_function_text.specs.FunctionText.{IsFunctionText};
ghost use Rattle.gj_problem_text.specs.FirstFault.{IsMemoryFault};
ghost use Rattle.gj_problem_text.specs.Ready.{IsReady};
ghost use Rattle.gj_problem_text.specs.SafeInputs.{BeginsAsFunction, IsSafeInput};
ghost use Rattle.gj_problem_text.specs.SafeInputs.{NamesFirstFaultOfInput};

use crate::faults::ProblemFault;
use crate::read::{read_problem, unruled_text_at};
use crate::task::Task;
use gj_forms::{PartFault, begins_with_word, line_number};
use gj_function_text::{TextFault, read_function};
use gj_lex::Spelling;
use gj_proof::CutRule;
use gj_shape::Shape;
use std::alloc::Global;

/// A rule, and the problem and its rows that are to give cuts by it.
#[derive(Drop)]
pub struct SafeInput {
    /// The rule.
    pub rule: CutRule,
    /// The problem and its rows.
    pub task: Task,
}

/// The rule and the task that the bytes tell: a problem text with the line `rule gmic`, or a
/// function text and behind it a problem text without that line.
///
/// `Refused` has the line and the reason of the first fault, and comes exactly if the bytes are
/// neither. Lines are counted from the first byte.
pub fn read_safe_input(alloc: Global, bytes: &[u8]) -> Result<SafeInput, ProblemFault>
    // What is read is spelled so.
    ensures found { IfOk result (IsSafeInput bytes.now) }
    // What is spelled so is read, unless there is no memory.
    ensures only { (asked : SafeInput) → IsSafeInput bytes.now asked →
        MatchResult result (λ a. a ≡ asked) IsMemoryFault }
    // A refusal names the first fault.
    ensures refused { IfErr result (NamesFirstFaultOfInput bytes.now) }
    // Each row has a multiplier for each constraint, and no grid is that of 0.
    ensures ready { IfOk result (λ asked. IsReady asked.task) }
{
    safe_input_of(alloc, bytes)
}

/// The rule and the task that the bytes tell.
fn safe_input_of(alloc: Global, bytes: &[u8]) -> Result<SafeInput, ProblemFault>
    ensures found { IfOk result (IsSafeInput bytes.now) }
    ensures refused { IfErr result (NamesFirstFaultOfInput bytes.now) }
{
    if begins_with_word(Spelling::Lenient, bytes, b"gj-function") {
        function_input_of(alloc, bytes)
    } else {
        gmic_input_of(alloc, bytes)
    }
}

/// The task of a problem text, by the mixed-integer cut.
fn gmic_input_of(alloc: Global, bytes: &[u8]) -> Result<SafeInput, ProblemFault>
    requires { BeginsAsFunction bytes.now → ⊥ }
    ensures found { IfOk result (IsSafeInput bytes.now) }
    ensures refused { IfErr result (NamesFirstFaultOfInput bytes.now) }
{
    match read_problem(alloc, bytes) {
        Ok(task) => Ok(SafeInput {
            rule: CutRule::Gmic,
            task,
        }),
        Err(fault) => Err(fault),
    }
}

/// The function at the front, and the task behind it.
fn function_input_of(alloc: Global, bytes: &[u8]) -> Result<SafeInput, ProblemFault>
    requires { BeginsAsFunction bytes.now }
    ensures found { IfOk result (IsSafeInput bytes.now) }
    ensures refused { IfErr result (NamesFirstFaultOfInput bytes.now) }
{
    match read_function(alloc, bytes) {
        Ok((shape, len)) => input_behind(alloc, bytes, shape, len),
        Err(TextFault::Refused(line, reason)) => Err(ProblemFault::Refused(line, reason)),
        Err(TextFault::Memory(error)) => Err(ProblemFault::Memory(error)),
    }
}

/// The task behind the first bytes, which are those of the function.
fn input_behind(
    alloc: Global,
    bytes: &[u8],
    shape: Shape,
    len: usize,
) -> Result<SafeInput, ProblemFault>
    requires begins { BeginsAsFunction bytes.now }
    requires within { len ≤ length bytes.now }
    requires function { IsFunctionText bytes.now shape (drop len bytes.now) }
    ensures found { IfOk result (IsSafeInput bytes.now) }
    ensures refused { IfErr result (NamesFirstFaultOfInput bytes.now) }
{
    match unruled_text_at(alloc, &bytes[len..]) {
        Ok(task) => Ok(SafeInput {
            rule: CutRule::Table(shape),
            task,
        }),
        Err(PartFault::Refused(left, reason)) => {
            Err(ProblemFault::Refused(line_number(bytes, left), reason))
        }
        Err(PartFault::Memory(error)) => Err(ProblemFault::Memory(error)),
    }
}
