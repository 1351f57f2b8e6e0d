//! The layout of a proof text about a function that jumps: the numbers of its lines, from 1 on.
//!
//! They are those of texts 1 and 2, but for the groups: `first_group_line` and `line_of_pair` say
//! where the first group and the pairs stand, and `lines_with_steps` where in a group.
ghost use Rattle.std.specs.Prelude.{◌≡◌, ◌+◌, ◌≤◌, ◌^◌, [], ◌∷◌, IfOk, OnErr, length};
ghost use Rattle.gj_limit_proof.specs.LimitText.{group_lines};

use crate::claim::LimitPivotRow;
use gj_proof::line_below;
pub use gj_proof::{first_group_line, line_of_pair, lines_with_steps};
use std::alloc::AllocError;

/// The number of the first line behind a group that begins with the line of this number. A text
/// with a line whose number is not below 2^64 does not fit any memory.
pub fn line_behind_group(line: u64, group: &LimitPivotRow) -> Result<u64, AllocError>
    ensures number { IfOk result (λ n. n ≡ line + length (group_lines 0 (group.now ∷ []))) }
    ensures memory { OnErr result (2 ^ 64 ≤ line + length (group_lines 0 (group.now ∷ []))) }
{
    let pivot = line_below(line, lines_with_steps(group.reduce.as_slice()))?;
    line_below(pivot, 1)
}
