//! The layout of a proof text: the numbers of its lines, counted from 1.
ghost use Rattle.std.specs.Prelude.{◌≡◌, ◌+◌, ◌<◌, ◌≤◌, ◌^◌, [], ◌∷◌, IfOk, OnErr, length};
ghost use Rattle.gj_shape.specs.FunctionData.{IsWithinBounds};
ghost use Rattle.gj_proof.specs.ProofText.{subject_of_rule, subject_lines, modulus_lines};
ghost use Rattle.gj_proof.specs.ProofText.{row_lines, term_lines, covered_lines, reduction_lines};
ghost use Rattle.gj_proof.specs.ProofText.{group_lines, IsBoundedRule};
ghost use Rattle.gj_proof.specs.ProofText.Subject.{function};

use crate::cut::{CutLine, CutRule, CutTerm};
use crate::numbers::Numbers;
use crate::pivot::PivotRow;
use gj_shape::{CoverLine, Shape};
use std::alloc::AllocError;

/// The number of the line with the word of the claim, behind the title.
pub const CLAIM_LINE: u64 = 2;

/// The number of the first line behind the title, the claim and the lines of the function.
pub fn line_behind_function(shape: &Shape) -> u64
    ensures value { result ≡ length (subject_lines (function shape.now)) + 3 }
    ensures small { result < 2 ^ 32 }
    ensures limits { IsWithinBounds shape.now }
{
    u64::from(shape.order()) + 5
}

/// The number of the first line behind the title, the claim and the lines of the rule.
pub fn line_behind_rule(rule: &CutRule) -> u64
    ensures value { result ≡ length (subject_lines (subject_of_rule rule.now)) + 3 }
    ensures bounded { IsBoundedRule rule.now }
{
    match rule {
        CutRule::Gmic => 4,
        CutRule::Table(shape) => line_behind_function(shape),
    }
}

/// The number of the first line behind those of the function and these lines of covered intervals,
/// with which the claim's own begin.
pub fn line_behind_covers(shape: &Shape, lines: &[CoverLine]) -> u64
    ensures { result ≡ length (subject_lines (function shape.now)) + 3 + length
        (covered_lines 0 lines.now) }
{
    line_behind_function(shape) + lines.len() as u64
}

/// The number of the line with which the first group of an extreme function begins: behind those of
/// the function, one for each interval, and by residues that of the modulus.
pub fn first_group_line(numbers: Numbers, shape: &Shape) -> u64
    ensures value { result ≡ length (subject_lines (function shape.now)) + 3 + shape.now.order +
        length (modulus_lines numbers) }
    ensures limits { IsWithinBounds shape.now }
{
    let modulus_lines = match numbers {
        Numbers::Whole => 0,
        Numbers::Residues => 1,
    };
    line_behind_function(shape) + u64::from(shape.order()) + modulus_lines
}

/// How many lines the first of a group and those of these steps are, with which it begins. So many
/// lines below its first the next step stands, or behind all steps the pivot.
pub fn lines_with_steps(steps: &[u32]) -> u64
    ensures { result ≡ 1 + length (reduction_lines 0 0 steps.now) }
{
    steps.len() as u64 + 1
}

/// The number of the first line behind a group that begins with the line of this number. A text
/// with a line whose number is not below 2^64 does not fit any memory.
pub fn line_behind_group(line: u64, group: &PivotRow) -> Result<u64, AllocError>
    ensures number { IfOk result (λ n. n ≡ line + length (group_lines 0 (group.now ∷ []))) }
    ensures memory { OnErr result (2 ^ 64 ≤ line + length (group_lines 0 (group.now ∷ []))) }
{
    let pivot = line_below(line, lines_with_steps(group.reduce.as_slice()))?;
    line_below(pivot, 1)
}

/// How many lines that of a row and those of these terms are, with which it begins. So many lines
/// below the line of the row the next term stands.
pub fn lines_with_terms(terms: &[CutTerm]) -> u64
    ensures { result ≡ 1 + length (term_lines 0 0 terms.now) }
{
    terms.len() as u64 + 1
}

/// The number of the first line behind a row of cuts whose line has this number. A text with a line
/// whose number is not below 2^64 does not fit any memory.
pub fn line_behind_row(line: u64, row: &CutLine) -> Result<u64, AllocError>
    ensures number { IfOk result (λ n. n ≡ line + length (row_lines 0 (row.now ∷ []))) }
    ensures memory { OnErr result (2 ^ 64 ≤ line + length (row_lines 0 (row.now ∷ []))) }
{
    match row {
        CutLine::Cut(_, _, terms) => line_below(line, lines_with_terms(terms.as_slice())),
        CutLine::Skip(_, _, _) => line_below(line, 1),
    }
}

/// The number of the line of the pair with this index, of a proof that the function is not extreme:
/// behind the line of the halves and those of the pairs before it.
pub fn line_of_pair(shape: &Shape, index: u32) -> u64
    ensures { result ≡ length (subject_lines (function shape.now)) + 3 + (1 + index) }
{
    line_behind_function(shape) + u64::from(index) + 1
}

/// The number of the line that stands so many lines below another. A text with a line whose number
/// is not below 2^64 does not fit any memory.
pub fn line_below(line: u64, count: u64) -> Result<u64, AllocError>
    ensures number { IfOk result (λ n. n ≡ line + count) }
    ensures memory { OnErr result (2 ^ 64 ≤ line + count) }
{
    line.checked_add(count).ok_or(AllocError)
}
