//! The cover of a function that may jump.
ghost use Rattle.std.specs.Prelude.{ℕ, ◌↔◌, ◌<◌, ◌≤◌, IfOk};
ghost use Rattle.gj_jumps.specs.LimitCover.{IsTightAt, IsCoveredByLimits};
ghost use Rattle.gj_shape.specs.Cover.{HasCoverLine};
ghost use Rattle.gj_limit_cover.specs.CoverOf.{IsCoverOf};

use crate::class::least_class;
use crate::progress::Progress;
use crate::table::Table;
use gj_cover::Cover;
use gj_shape::Shape;
use std::alloc::{AllocError, Global};

/// The covered intervals of a function that may jump, their components, the lines that show why
/// they are covered, and the class of the least uncovered interval.
///
/// Two intervals are joined if an edge that links them has the slack 0, or if the slack tends to 0
/// at both ends of an edge that links them, seen from inside a triangle with that edge. An interval
/// is directly covered if a triangle with slack 0 projects on it, and covered if it is directly
/// covered or joined to a covered interval. The lines come in this order: if an interval without a
/// line is joined to one with a line, the next line is for the least such, with the least interval
/// to which it is joined, and the first face in walk order that joins the two with slack 0 at all
/// its corners or, if there is none, the first that joins them; otherwise it is for the least
/// interval without a line that is directly covered, with the first triangle in walk order, and
/// opens the next component.
pub fn cover_by_limits(alloc: Global, shape: &Shape) -> Result<Cover, AllocError>
    ensures cover { IfOk result (IsCoverOf shape.now.order (IsTightAt shape.now)) }
    ensures covered { IfOk result (λ cover. (i : ℕ) → i < shape.now.order →
        HasCoverLine cover.lines i ↔ IsCoveredByLimits shape.now i) }
    ensures few { IfOk result (λ cover. cover.count ≤ shape.now.order) }
{
    let table = Table::of(alloc, shape)?;
    let found = Progress::of(alloc, shape, &table)?;
    let class = least_class(alloc, shape, &table, &found.free)?;
    Ok(found.with_class(class))
}
