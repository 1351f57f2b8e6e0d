//! Texts of derivations, read.
ghost use Rattle.std.specs.Prelude.{◌≡◌, ◌≤◌, ◌<◌, List, ℕ, Some, None, Option, All, IsSome, ◌↔◌, IsTrue, drop, length, map, IfOk, IfErr, MatchResult};
ghost use Rattle.gj_forms.specs.Parts.{IsFaultOf};
ghost use Rattle.gj_function_text.specs.FunctionText.{IsFunctionText};
ghost use Rattle.gj_problem_text.specs.FirstFault.{IsMemoryFault};
ghost use Rattle.gj_problem_text.specs.SafeInputs.{BeginsAsFunction};
ghost use Rattle.gj_derivation_text.specs.DerivationText.{no_drafts, derivation_part};
ghost use Rattle.gj_derivation_text.specs.DerivationInputs.{input_part, draft_input};
ghost use Rattle.gj_derivation_text.specs.DerivationInputs.{derivation_input, IsDraftText};
ghost use Rattle.gj_derivation_text.specs.DerivationInputs.{IsDerivationText, NamesFirstFaultIn};
ghost use Rattle.gj_derivation_text.specs.DerivationInputs.{Tells, IsLineOfStep, as_draft, IsOfDrafts};
ghost use Rattle.gj_derivation_text.specs.DerivationInputs.{HasGivenClaim};
ghost use Rattle.gj_derivation_text.specs.Readable.{AreReadable, IsReadableDerivation};

use crate::drafts::Drafts;
use crate::input::{DerivationInput, DraftInput};
use crate::names::Names;
use crate::problem::problem_at;
use crate::steps::steps_at;
use gj_derivation::{Claim, Draft, Step};
use gj_forms::{PartFault, begins_with_word, end_at, line_number, words_at};
use gj_function_text::{TextFault, read_function};
use gj_lex::Spelling;
use gj_problem::Problem;
use gj_problem_text::{Places, ProblemFault, Task};
use gj_shape::{List, Shape};
use std::alloc::{AllocError, Global};

/// The derivation that the bytes tell, with the function in front of it, if there is one.
///
/// The text is the line `gj-derivation 1`, lines `column`, `constraint` and `entry` as in a problem
/// text, steps, and the line `end`. A step begins with `step NAME linear|gmic|function`. Lines `by
/// NAME MULTIPLIER`, `upper NAME` and `times FACTOR` follow, then `claim RIGHT`, and then `term NAME
/// VALUE`. A text has at most 10,000 columns, 10,000 constraints, 100,000 entries and 10,000 steps.
///
/// `Refused` has the line and the reason of the first fault, and comes exactly if the bytes tell no
/// derivation. Lines are counted from the first byte.
pub fn read_derivation(alloc: Global, bytes: &[u8]) -> Result<DerivationInput, ProblemFault>
    // What is read is spelled so.
    ensures found { IfOk result (IsDerivationText bytes.now) }
    // What is spelled so is read, unless there is no memory.
    ensures only { (d : DerivationInput) → IsDerivationText bytes.now d →
        MatchResult result (λ e. e ≡ d) IsMemoryFault }
    // A refusal names the first fault.
    ensures refused { IfErr result (NamesFirstFaultIn derivation_input bytes.now) }
    // Each step has a factor above 0, and a function if it asks for one; it names columns and lines
    // before it, each once.
    ensures readable { IfOk result IsReadableDerivation }
    // The line of each step is known.
    ensures left { IfOk result (λ d. length d.left ≡ length d.steps) }
{
    match input_of(alloc, false, bytes) {
        Ok(input) => derivation_of(alloc, input),
        Err(fault) => Err(fault),
    }
}

/// The drafts that the bytes tell, with the function in front of them, if there is one.
///
/// The text is that of a derivation, but a step may lack the lines of its claim, or have `claim -`
/// and terms, and one line `grid N` may stand among those of the problem.
///
/// `Refused` has the line and the reason of the first fault, and comes exactly if the bytes tell no
/// such text. Lines are counted from the first byte.
pub fn read_drafts(alloc: Global, bytes: &[u8]) -> Result<DraftInput, ProblemFault>
    // What is read is spelled so.
    ensures found { IfOk result (IsDraftText bytes.now) }
    // What is spelled so is read, unless there is no memory.
    ensures only { (a : DraftInput) → IsDraftText bytes.now a →
        MatchResult result (λ b. b ≡ a) IsMemoryFault }
    // A refusal names the first fault.
    ensures refused { IfErr result (NamesFirstFaultIn draft_input bytes.now) }
    // Each step has a factor above 0, and a function if it asks for one; it names columns and lines
    // before it, each once.
    ensures readable { IfOk result (λ a. AreReadable a.function a.drafts) }
{
    input_of(alloc, true, bytes)
}

/// The line of the text in which the k-th step begins, counted from 1; `left` says how many bytes
/// are left from the line of each step on.
pub fn line_of_step(bytes: &[u8], left: &[usize], k: usize) -> u64
    requires { k < length left.now }
    ensures { IsLineOfStep bytes.now left.now k result }
{
    line_number(bytes, left[k])
}

/// The drafts, or the derivation as drafts, that the bytes tell.
fn input_of(alloc: Global, drafts: bool, bytes: &[u8]) -> Result<DraftInput, ProblemFault>
    ensures found { IfOk result (Tells (input_part drafts) bytes.now) }
    ensures refused { IfErr result (NamesFirstFaultIn (input_part drafts) bytes.now) }
{
    if begins_with_word(Spelling::Lenient, bytes, b"gj-function") {
        function_input_of(alloc, drafts, bytes)
    } else {
        plain_input_of(alloc, drafts, bytes)
    }
}

/// The drafts of a text without a function.
fn plain_input_of(alloc: Global, drafts: bool, bytes: &[u8]) -> Result<DraftInput, ProblemFault>
    requires { BeginsAsFunction bytes.now → ⊥ }
    ensures found { IfOk result (Tells (input_part drafts) bytes.now) }
    ensures refused { IfErr result (NamesFirstFaultIn (input_part drafts) bytes.now) }
{
    match drafts_of(alloc, drafts, false, bytes) {
        Ok(told) => Ok(DraftInput {
            function: None,
            drafts: told,
        }),
        Err(PartFault::Refused(left, reason)) => {
            Err(ProblemFault::Refused(line_number(bytes, left), reason))
        }
        Err(PartFault::Memory(error)) => Err(ProblemFault::Memory(error)),
    }
}

/// The function at the front, and the drafts behind it.
fn function_input_of(alloc: Global, drafts: bool, bytes: &[u8]) -> Result<DraftInput, ProblemFault>
    requires { BeginsAsFunction bytes.now }
    ensures found { IfOk result (Tells (input_part drafts) bytes.now) }
    ensures refused { IfErr result (NamesFirstFaultIn (input_part drafts) bytes.now) }
{
    match read_function(alloc, bytes) {
        Ok((shape, len)) => input_behind(alloc, drafts, bytes, shape, len),
        Err(TextFault::Refused(line, reason)) => Err(ProblemFault::Refused(line, reason)),
        Err(TextFault::Memory(error)) => Err(ProblemFault::Memory(error)),
    }
}

/// The drafts behind the first bytes, which are those of the function.
fn input_behind(
    alloc: Global,
    drafts: bool,
    bytes: &[u8],
    shape: Shape,
    len: usize,
) -> Result<DraftInput, ProblemFault>
    requires begins { BeginsAsFunction bytes.now }
    requires within { len ≤ length bytes.now }
    requires function { IsFunctionText bytes.now shape (drop len bytes.now) }
    ensures found { IfOk result (Tells (input_part drafts) bytes.now) }
    ensures refused { IfErr result (NamesFirstFaultIn (input_part drafts) bytes.now) }
{
    match drafts_of(alloc, drafts, true, &bytes[len..]) {
        Ok(told) => Ok(DraftInput {
            function: Some(shape),
            drafts: told,
        }),
        Err(PartFault::Refused(left, reason)) => {
            Err(ProblemFault::Refused(line_number(bytes, left), reason))
        }
        Err(PartFault::Memory(error)) => Err(ProblemFault::Memory(error)),
    }
}

/// The drafts that the text tells.
fn drafts_of(
    alloc: Global,
    drafts: bool,
    has_function: bool,
    text: &[u8],
) -> Result<Drafts, PartFault>
    ensures found { IfOk result (Tells (derivation_part drafts has_function) text.now) }
    ensures fault { IfErr result (IsFaultOf (derivation_part drafts has_function) text.now) }
{
    let mut names = Names {
        columns: Places::none(alloc),
        lines: Places::none(alloc),
        drafts,
    };
    let mut told = no_drafts(alloc);
    let rest = words_at(Spelling::Lenient, text, b"gj-derivation 1")?;
    let rest = problem_at(alloc, &mut names, &mut told, rest)?;
    let rest = steps_at(alloc, has_function, &mut names, &mut told, rest)?;
    end_at(Spelling::Lenient, rest)?;
    Ok(told)
}

/// Nothing is told.
fn no_drafts(alloc: Global) -> Drafts
    ensures { result ≡ no_drafts }
{
    Drafts {
        task: Task {
            names: List::of(Vec::new(alloc)),
            problem: Problem {
                columns: List::of(Vec::new(alloc)),
                constraints: List::of(Vec::new(alloc)),
            },
            entries: 0,
            requests: List::of(Vec::new(alloc)),
            sums: 0,
            grid: None,
            round: None,
        },
        lines: List::of(Vec::new(alloc)),
        steps: List::of(Vec::new(alloc)),
        left: List::of(Vec::new(alloc)),
    }
}

/// The derivation of drafts whose claims are given.
fn derivation_of(alloc: Global, input: DraftInput) -> Result<DerivationInput, ProblemFault>
    requires { All HasGivenClaim input.drafts.steps }
    ensures found { IfOk result (IsOfDrafts input) }
    ensures memory { IfErr result IsMemoryFault }
{
    let DraftInput { function, drafts } = input;
    let Drafts {
        task,
        lines,
        steps,
        left,
    } = drafts;
    match steps_of(alloc, steps) {
        Ok(steps) => Ok(DerivationInput {
            function,
            columns: task.names,
            lines,
            problem: task.problem,
            steps,
            left,
        }),
        Err(error) => Err(ProblemFault::Memory(error)),
    }
}

/// The steps of drafts whose claims are given.
fn steps_of(alloc: Global, drafts: List<Draft>) -> Result<List<Step>, AllocError>
    requires { All HasGivenClaim drafts }
    ensures { IfOk result (λ steps. drafts ≡ map as_draft steps) }
{
    let drafts = drafts.into_vec();
    let mut steps = Vec::with_capacity(alloc, drafts.len())?;
    for draft in drafts {
        steps.push(step_of(draft))?;
    }
    Ok(List::of(steps))
}

/// The step of a draft whose claim is given.
fn step_of(draft: Draft) -> Step
    requires { HasGivenClaim draft }
    ensures { draft ≡ as_draft result }
{
    let Draft { combination, claim } = draft;
    match claim {
        Claim::Given(claim) => Step { combination, claim },
        Claim::Terms(_) => unreachable!(),
        Claim::Absent => unreachable!(),
    }
}
