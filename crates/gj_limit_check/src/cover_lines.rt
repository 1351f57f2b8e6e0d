//! The rule `cover`: each cover line opens a component, or puts an interval into the component of
//! another.
ghost use Rattle.std.specs.Prelude.{◌≡◌, ◌↔◌, List, All, IsTrue, IfOk, length};
ghost use Rattle.gj_check.specs.CoverLines.{HaveLines};
ghost use Rattle.gj_limit_proof.specs.LimitRules.{MeetsLimitCover};
ghost use Rattle.gj_proof.specs.ProofText.{IsCoverLineBelow};
ghost use Rattle.gj_shape.specs.declared.extremality.CoverLine.{CoverLine};
ghost use Rattle.gj_limit_check.specs.LimitCoverLines.{IsCoverOutcome};

use crate::faces::{covers, joins};
use gj_shape::{CoverLine, Shape};
use std::alloc::{AllocError, Global};

/// The components of all intervals, by cover lines.
#[derive(Drop)]
pub(crate) struct Components {
    /// The number of the component of each interval, from 0.
    pub(crate) number: Vec<u32>,
    /// How many components there are.
    pub(crate) count: u32,
}

/// What comes of cover lines.
#[derive(Drop)]
pub(crate) enum Covered {
    /// All meet the rule.
    Whole(Components),
    /// The line with this index is the first that does not.
    BrokenAt(usize),
}

/// The components by as many cover lines as there are intervals, or the first of these lines that
/// breaks the rule.
pub(crate) fn components_by(
    alloc: Global,
    shape: &Shape,
    lines: &[CoverLine],
) -> Result<Covered, AllocError>
    requires count { length lines.now ≡ shape.now.order }
    requires lines { All (IsCoverLineBelow shape.now.order) lines.now }
    ensures { IfOk result (IsCoverOutcome shape.now lines.now) }
{
    let order = shape.order() as usize;
    let mut has_line = vec![in alloc; false; order]?;
    let mut number = vec![in alloc; 0u32; order]?;
    let mut count = 0u32;
    for (index, line) in lines.iter().enumerate() {
        if !meets_rule(shape, has_line.as_slice(), *line) {
            return Ok(Covered::BrokenAt(index));
        }
        let interval = line.interval as usize;
        has_line[interval] = true;
        if line.from == line.interval {
            number[interval] = count;
            count += 1;
        } else {
            number[interval] = number[line.from as usize];
        }
    }
    Ok(Covered::Whole(Components { number, count }))
}

/// Whether the line meets the rule behind lines that these intervals have.
fn meets_rule(shape: &Shape, has_line: &[bool], line: CoverLine) -> bool
    requires lines { length has_line.now ≡ shape.now.order }
    requires line { IsCoverLineBelow shape.now.order line }
    ensures { (before : List CoverLine) → HaveLines before has_line.now →
        (IsTrue result ↔ MeetsLimitCover shape.now before line) }
{
    if has_line[line.interval as usize] {
        return false;
    }
    if line.from == line.interval {
        return covers(shape, line.face, line.interval);
    }
    if !has_line[line.from as usize] {
        return false;
    }
    joins(shape, line.face, line.interval, line.from)
}
