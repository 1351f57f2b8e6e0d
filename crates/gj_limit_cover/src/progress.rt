//! The search for cover lines.
ghost use Rattle.std.specs.Prelude.{ℕ, ◌≡◌, ◌<◌, length, replicate, OnOk, IfOk, IfSome, IfNone};
ghost use Rattle.gj_limit_cover.specs.LimitCover.{JoinsLines, IsOpen, IsOpeningLine, IsNextLine};
ghost use Rattle.gj_shape.specs.FirstViolation.{IsLeastFrom};
ghost use Rattle.gj_jumps.specs.LimitCover.{IsTightAt};
ghost use Rattle.gj_limit_cover.specs.Progress.{IsComplete};
ghost use Rattle.gj_limit_cover.specs.Table.{IsTableOf, IsJoinedSet};

use crate::faces::{covering_face, joining_face};
use crate::table::Table;
use gj_cover::Cover;
use gj_loops::IndexSet;
use gj_shape::{CoverLine, List, Shape};
use std::alloc::{AllocError, Global};

/// The lines that were found so far, and what is needed to find the next.
#[derive(Drop)]
pub(crate) struct Progress {
    /// The number of the component of each interval that has a line.
    component: Vec<Option<u32>>,
    /// The intervals that have no line.
    pub(crate) free: IndexSet,
    /// Those of them that are joined to an interval with a line, and perhaps some with a line.
    near: IndexSet,
    /// The lines.
    lines: Vec<CoverLine>,
    /// How many components were opened.
    count: u32,
}

/// A line that comes next, and the intervals that are joined to its own.
#[derive(Drop)]
struct Next {
    line: CoverLine,
    joined: IndexSet,
}

impl Progress {
    ghost use Rattle.gj_cover.specs.Progress.{unnumbered};
    ghost use Rattle.gj_limit_cover.specs.Progress.{IsProgress};

    /// No lines.
    fn new(alloc: Global, shape: &Shape) -> Result<Progress, AllocError>
        ensures { IfOk result (IsProgress shape.now.order (IsTightAt shape.now)) }
    {
        let order = shape.order() as usize;
        Ok(Progress {
            component: vec![in alloc; None; order]?,
            free: IndexSet::below(order),
            near: IndexSet::empty(),
            lines: Vec::new(alloc),
            count: 0,
        })
    }

    /// All lines.
    pub(crate) fn of(alloc: Global, shape: &Shape, table: &Table) -> Result<Progress, AllocError>
        requires { IsTableOf shape.now table.now }
        ensures progress { IfOk result (IsProgress shape.now.order (IsTightAt shape.now)) }
        ensures complete { IfOk result (λ p. IsComplete shape.now.order
            (IsTightAt shape.now) p.lines.items) }
    {
        let mut progress = Progress::new(alloc, shape)?;
        while let Some(next) = progress.next_line(shape, table) {
            progress.add(shape, table, next.line, &next.joined)?;
        }
        Ok(progress)
    }

    /// The cover with this class. It takes no memory.
    pub(crate) fn with_class(self, class: Vec<u32>) -> Cover
        ensures { result ≡ record {
          component = self.component.items;
          count = self.count;
          lines = self.lines.items;
          class = class.items;
        } }
    {
        Cover {
            component: List::of(self.component),
            count: self.count,
            lines: List::of(self.lines),
            class: List::of(class),
        }
    }

    /// The next line.
    fn next_line(&self, shape: &Shape, table: &Table) -> Option<Next>
        requires table { IsTableOf shape.now table.now }
        requires progress { IsProgress shape.now.order (IsTightAt shape.now) self.now }
        ensures found { IfSome result (λ next.
            IsNextLine shape.now.order (IsTightAt shape.now) self.now.lines.items next.line) }
        ensures joined { IfSome result
            (λ next. IsJoinedSet shape.now self.now.free self.now.near next.line.interval
            next.joined) }
        ensures none { IfNone result (IsComplete shape.now.order
            (IsTightAt shape.now) self.now.lines.items) }
    {
        let Some((interval, from, joined)) = self.next_joined(shape, table) else {
            let line = self.next_opening(shape, table)?;
            let joined = table.joined(shape, line.interval);
            return Some(Next { line, joined });
        };
        let face = joining_face(shape, interval, from)?;
        let line = CoverLine {
            interval,
            from,
            face,
        };
        Some(Next { line, joined })
    }

    /// The least interval without a line that is joined to one with a line, the least such, and all
    /// that are joined to it.
    fn next_joined(&self, shape: &Shape, table: &Table) -> Option<(u32, u32, IndexSet)>
        requires table { IsTableOf shape.now table.now }
        requires progress { IsProgress shape.now.order (IsTightAt shape.now) self.now }
        ensures interval { IfSome result (λ p. IsLeastFrom 0
            (λ i. (j : ℕ) × JoinsLines shape.now.order
            (IsTightAt shape.now) self.now.lines.items i j) p.0) }
        ensures from { IfSome result (λ p. IsLeastFrom 0
            (JoinsLines shape.now.order (IsTightAt shape.now) self.now.lines.items p.0) p.1) }
        ensures joined { IfSome result
            (λ p. IsJoinedSet shape.now self.now.free self.now.near p.0 p.2) }
        ensures none { IfNone result ((i j : ℕ) →
            JoinsLines shape.now.order (IsTightAt shape.now) self.now.lines.items i j → ⊥) }
    {
        let Some(interval) = self.near.and(&self.free).first() else {
            return None;
        };
        let joined = table.joined_next(shape, interval as u32, &self.free, &self.near);
        let Some(from) = joined.and_not(&self.free).first() else {
            return None;
        };
        Some((interval as u32, from as u32, joined))
    }

    /// The line that opens the next component, if no line joins.
    fn next_opening(&self, shape: &Shape, table: &Table) -> Option<CoverLine>
        requires table { IsTableOf shape.now table.now }
        requires progress { IsProgress shape.now.order (IsTightAt shape.now) self.now }
        requires none_joins { (i j : ℕ) →
            JoinsLines shape.now.order (IsTightAt shape.now) self.now.lines.items i j → ⊥ }
        ensures found { IfSome result (IsOpeningLine shape.now.order
            (IsTightAt shape.now) self.now.lines.items) }
        ensures none { IfNone result ((i : ℕ) →
            IsOpen shape.now.order (IsTightAt shape.now) self.now.lines.items i → ⊥) }
    {
        let Some(interval) = self.free.and(&table.direct).first() else {
            return None;
        };
        let face = covering_face(shape, &table.joins, interval as u32)?;
        Some(CoverLine {
            interval: interval as u32,
            from: interval as u32,
            face,
        })
    }

    /// Adds the next line, if these intervals are joined to its own.
    fn add(
        &mut self,
        shape: &Shape,
        table: &Table,
        line: CoverLine,
        joined: &IndexSet,
    ) -> Result<(), AllocError>
        requires table { IsTableOf shape.now table.now }
        requires progress { IsProgress shape.now.order (IsTightAt shape.now) self.old }
        requires next { IsNextLine shape.now.order
            (IsTightAt shape.now) self.old.lines.items line }
        requires joined { IsJoinedSet shape.now self.old.free self.old.near line.interval
            joined.now }
        ensures progress { OnOk result (IsProgress shape.now.order
            (IsTightAt shape.now) self.new) }
        ensures fewer { OnOk result
            (unnumbered self.new.component.items < unnumbered self.old.component.items) }
    {
        self.lines.push(line)?;
        let number = self.component[line.from as usize].unwrap_or(self.count);
        self.component[line.interval as usize] = Some(number);
        self.free.remove(line.interval as usize);
        self.near = self.near.or(joined);
        if line.from != line.interval {
            return Ok(());
        }
        self.count += 1;
        Ok(())
    }
}
