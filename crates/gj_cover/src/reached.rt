//! The intervals to which joined ones lead from one of them.
ghost use Rattle.std.specs.Prelude.{ℕ, ◌↔◌, ◌<◌, IsTrue};
ghost use Rattle.gj_loops.specs.IndexSets.{has};
ghost use Rattle.gj_shape.specs.Cover.{IsInClassOf};
ghost use Rattle.gj_cover.specs.Linking.{tight_linking};
ghost use Rattle.gj_cover.specs.Table.{IsTightInTable};

use crate::joined::joined;
use crate::table::Table;
use gj_loops::IndexSet;

/// The intervals that were reached, and those among them whose joined intervals are still to be
/// looked for.
#[derive(Drop)]
pub(crate) struct Reached {
    reached: IndexSet,
    waiting: IndexSet,
}

impl Reached {
    ghost use Rattle.gj_cover.specs.Reached.{reached_data, AreUncovered, AreReached, IsReachedFrom};

    /// The class of an interval that is not covered, if the free intervals are the uncovered ones.
    pub(crate) fn from(table: &Table, free: &IndexSet, start: u32) -> IndexSet
        requires uncovered { AreUncovered
            (tight_linking table.now.order (IsTightInTable table.now)) free.now }
        requires start { IsTrue (has free.now start) }
        ensures { (i : ℕ) →
            IsTrue (has result i) ↔ ((i < table.now.order) × IsInClassOf table.now.order
            (IsTightInTable table.now) start i) }
    {
        let mut found = Reached::new(table, start);
        while let Some(interval) = found.waiting.first() {
            found.reach(table, free, interval as u32);
        }
        found.reached
    }

    /// The start alone.
    fn new(table: &Table, start: u32) -> Reached
        requires { start < table.now.order }
        ensures { AreReached (tight_linking table.now.order (IsTightInTable table.now)) start
            (reached_data result) }
    {
        let mut reached = IndexSet::empty();
        reached.insert(start as usize);
        Reached {
            reached,
            waiting: reached,
        }
    }

    /// Reaches all free intervals that are joined to the interval, which waits no longer.
    fn reach(&mut self, table: &Table, free: &IndexSet, interval: u32)
        requires within { interval < table.now.order }
        requires reached { IsTrue (has self.old.reached interval) }
        requires waits { IsTrue (has self.old.waiting interval) }
        ensures { IsReachedFrom
            (tight_linking table.now.order (IsTightInTable table.now))
            interval free.now (reached_data self.old) (reached_data self.new) }
    {
        let more = joined(table, interval).and(free).and_not(&self.reached);
        self.reached = self.reached.or(&more);
        self.waiting = self.waiting.or(&more);
        self.waiting.remove(interval as usize);
    }
}
