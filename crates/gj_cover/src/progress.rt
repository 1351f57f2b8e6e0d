//! The search for cover lines.
ghost use Rattle.std.specs.Prelude.{ℕ, ◌≡◌, ◌<◌, length, replicate, OnOk, IfOk, IfSome, IfNone};
ghost use Rattle.gj_shape.specs.Cover.{JoinsLines, IsOpen, IsOpeningLine, IsNextLine};
ghost use Rattle.gj_shape.specs.FirstViolation.{IsLeastFrom};
ghost use Rattle.gj_cover.specs.Table.{IsTightInTable, IsJoinedSet};
ghost use Rattle.gj_cover.specs.Progress.{IsComplete};

use crate::covered::Cover;
use crate::first_faces::{first_covering, first_joining};
use crate::joined::joined;
use crate::table::Table;
use gj_loops::IndexSet;
use gj_shape::{CoverLine, List};
use std::alloc::{AllocError, Global};

/// The lines that were found so far, and what is needed to find the next.
#[derive(Drop)]
pub(crate) struct Progress {
    /// The number of the component of each interval that has a line.
    component: Vec<Option<u32>>,
    /// The intervals that have no line.
    pub(crate) free: IndexSet,
    /// Those of them that are joined to an interval with a line, and perhaps some with a line.
    near: IndexSet,
    /// The lines.
    lines: Vec<CoverLine>,
    /// How many components were opened.
    count: u32,
    /// No interval below this one is directly covered but by a line.
    searched: u32,
}

/// A line that comes next, and the intervals that are joined to its own.
#[derive(Drop)]
struct Next {
    line: CoverLine,
    joined: IndexSet,
}

impl Progress {
    ghost use Rattle.gj_cover.specs.Progress.{IsProgress, unnumbered};

    /// No lines.
    fn new(alloc: Global, table: &Table) -> Result<Progress, AllocError>
        ensures { IfOk result (IsProgress table.now.order (IsTightInTable table.now)) }
    {
        let order = table.order() as usize;
        Ok(Progress {
            component: vec![in alloc; None; order]?,
            free: IndexSet::below(order),
            near: IndexSet::empty(),
            lines: Vec::new(alloc),
            count: 0,
            searched: 0,
        })
    }

    /// All lines.
    pub(crate) fn of(alloc: Global, table: &Table) -> Result<Progress, AllocError>
        ensures progress { IfOk result (IsProgress table.now.order (IsTightInTable table.now)) }
        ensures complete { IfOk result (λ p. IsComplete table.now.order
            (IsTightInTable table.now) p.lines.items) }
    {
        let mut progress = Progress::new(alloc, table)?;
        while let Some(next) = progress.next_line(table) {
            progress.add(table, next.line, &next.joined)?;
        }
        Ok(progress)
    }

    /// The cover with this class. It takes no memory.
    pub(crate) fn with_class(self, class: Vec<u32>) -> Cover
        ensures { result ≡ record {
          component = self.component.items;
          count = self.count;
          lines = self.lines.items;
          class = class.items;
        } }
    {
        Cover {
            component: List::of(self.component),
            count: self.count,
            lines: List::of(self.lines),
            class: List::of(class),
        }
    }

    /// The next line.
    fn next_line(&self, table: &Table) -> Option<Next>
        requires { IsProgress table.now.order (IsTightInTable table.now) self.now }
        ensures found { IfSome result (λ next.
            IsNextLine table.now.order (IsTightInTable table.now) self.now.lines.items next.line) }
        ensures joined { IfSome result
            (λ next. IsJoinedSet table.now next.line.interval next.joined) }
        ensures none { IfNone result (IsComplete table.now.order
            (IsTightInTable table.now) self.now.lines.items) }
    {
        let Some((interval, from, joined)) = self.next_joined(table) else {
            let line = self.next_opening(table)?;
            let joined = joined(table, line.interval);
            return Some(Next { line, joined });
        };
        let face = first_joining(table, interval, from)?;
        let line = CoverLine {
            interval,
            from,
            face,
        };
        Some(Next { line, joined })
    }

    /// The least interval without a line that is joined to one with a line, the least such, and all
    /// that are joined to it.
    fn next_joined(&self, table: &Table) -> Option<(u32, u32, IndexSet)>
        requires { IsProgress table.now.order (IsTightInTable table.now) self.now }
        ensures interval { IfSome result (λ p. IsLeastFrom 0
            (λ i. (j : ℕ) × JoinsLines table.now.order
            (IsTightInTable table.now) self.now.lines.items i j) p.0) }
        ensures from { IfSome result (λ p. IsLeastFrom 0
            (JoinsLines table.now.order (IsTightInTable table.now) self.now.lines.items p.0) p.1) }
        ensures joined { IfSome result (λ p. IsJoinedSet table.now p.0 p.2) }
        ensures none { IfNone result ((i j : ℕ) →
            JoinsLines table.now.order (IsTightInTable table.now) self.now.lines.items i j → ⊥) }
    {
        let Some(interval) = self.near.and(&self.free).first() else {
            return None;
        };
        let joined = joined(table, interval as u32);
        let Some(from) = joined.and_not(&self.free).first() else {
            return None;
        };
        Some((interval as u32, from as u32, joined))
    }

    /// The line that opens the next component, if no line joins.
    fn next_opening(&self, table: &Table) -> Option<CoverLine>
        requires progress { IsProgress table.now.order (IsTightInTable table.now) self.now }
        requires none_joins { (i j : ℕ) →
            JoinsLines table.now.order (IsTightInTable table.now) self.now.lines.items i j → ⊥ }
        ensures found { IfSome result (IsOpeningLine table.now.order
            (IsTightInTable table.now) self.now.lines.items) }
        ensures none { IfNone result ((i : ℕ) →
            IsOpen table.now.order (IsTightInTable table.now) self.now.lines.items i → ⊥) }
    {
        for interval in self.searched..table.order() {
            if self.component[interval as usize].is_none() {
                if let Some(face) = first_covering(table, interval) {
                    return Some(CoverLine {
                        interval,
                        from: interval,
                        face,
                    });
                }
            }
        }
        None
    }

    /// Adds the next line, if these intervals are joined to its own.
    fn add(&mut self, table: &Table, line: CoverLine, joined: &IndexSet) -> Result<(), AllocError>
        requires progress { IsProgress table.now.order (IsTightInTable table.now) self.old }
        requires next { IsNextLine table.now.order
            (IsTightInTable table.now) self.old.lines.items line }
        requires joined { IsJoinedSet table.now line.interval joined.now }
        ensures progress { OnOk result (IsProgress table.now.order
            (IsTightInTable table.now) self.new) }
        ensures fewer { OnOk result
            (unnumbered self.new.component.items < unnumbered self.old.component.items) }
    {
        self.lines.push(line)?;
        let number = self.component[line.from as usize].unwrap_or(self.count);
        self.component[line.interval as usize] = Some(number);
        self.free.remove(line.interval as usize);
        self.near = self.near.or(joined);
        if line.from != line.interval {
            return Ok(());
        }
        self.count += 1;
        self.searched = line.interval;
        Ok(())
    }
}
