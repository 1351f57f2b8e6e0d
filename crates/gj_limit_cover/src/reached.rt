//! The intervals to which joined ones lead from one of them.
ghost use Rattle.std.specs.Prelude.{ℕ, ◌↔◌, ◌<◌, IsTrue};
ghost use Rattle.gj_loops.specs.IndexSets.{has};
ghost use Rattle.gj_jumps.specs.LimitCover.{IsTightAt};
ghost use Rattle.gj_limit_cover.specs.Linking.{limit_linking};
ghost use Rattle.gj_limit_cover.specs.LimitCover.{IsInClassOf};
ghost use Rattle.gj_limit_cover.specs.Table.{IsTableOf};

use crate::table::Table;
use gj_loops::IndexSet;
use gj_shape::Shape;

/// The intervals that were reached, and those among them whose joined intervals are still to be
/// looked for.
#[derive(Drop)]
pub(crate) struct Reached {
    reached: IndexSet,
    waiting: IndexSet,
}

impl Reached {
    ghost use Rattle.gj_cover.specs.Reached.{AreUncovered, AreReached, IsReachedFrom};
    ghost use Rattle.gj_limit_cover.specs.Reached.{reached_data};

    /// The class of an interval that is not covered, if the free intervals are the uncovered ones.
    pub(crate) fn from(shape: &Shape, table: &Table, free: &IndexSet, start: u32) -> IndexSet
        requires table { IsTableOf shape.now table.now }
        requires uncovered { AreUncovered
            (limit_linking shape.now.order (IsTightAt shape.now)) free.now }
        requires start { IsTrue (has free.now start) }
        ensures { (i : ℕ) →
            IsTrue (has result i) ↔ ((i < shape.now.order) × IsInClassOf shape.now.order
            (IsTightAt shape.now) start i) }
    {
        let mut found = Reached::new(shape, table, start);
        while let Some(interval) = found.waiting.first() {
            found.reach(shape, table, free, interval as u32);
        }
        found.reached
    }

    /// The start alone.
    fn new(shape: &Shape, table: &Table, start: u32) -> Reached
        requires table { IsTableOf shape.now table.now }
        requires start { start < shape.now.order }
        ensures { AreReached (limit_linking shape.now.order (IsTightAt shape.now)) start
            (reached_data result) }
    {
        let mut reached = IndexSet::empty();
        reached.insert(start as usize);
        Reached {
            reached,
            waiting: reached,
        }
    }

    /// Reaches all free intervals that are joined to the interval, which waits no longer.
    fn reach(&mut self, shape: &Shape, table: &Table, free: &IndexSet, interval: u32)
        requires table { IsTableOf shape.now table.now }
        requires within { interval < shape.now.order }
        requires reached { IsTrue (has self.old.reached interval) }
        requires waits { IsTrue (has self.old.waiting interval) }
        ensures { IsReachedFrom
            (limit_linking shape.now.order (IsTightAt shape.now))
            interval free.now (reached_data self.old) (reached_data self.new) }
    {
        let more = table
            .joined(shape, interval)
            .and(free)
            .and_not(&self.reached);
        self.reached = self.reached.or(&more);
        self.waiting = self.waiting.or(&more);
        self.waiting.remove(interval as usize);
    }
}
