//! The command `demo`: the summary of the decision on a function that no text gives.
ghost use Rattle.std.specs.Prelude.{ℕ, ◌≤◌, List};
ghost use Rattle.gj_demo.specs.Demo.{greatest_demo};
ghost use Rattle.gj_top.specs.Task.{IsAnswering};
ghost use Rattle.gj_top.specs.Demo.{demo};

use crate::reply::{End, Reply, Unanswered};
use gj_demo::summary;
use std::alloc::Global;

/// The summary of the function of the demonstration with this number, over any input, of which
/// nothing is read.
pub(crate) fn reply(alloc: Global, n: u32) -> Result<Reply, Unanswered>
    requires low { 1 ≤ n }
    requires high { n ≤ greatest_demo }
    ensures { (input : List ℕ) → IsAnswering (demo n) input result }
{
    Ok(Reply {
        end: End::Done,
        text: summary(alloc, n)?,
    })
}
