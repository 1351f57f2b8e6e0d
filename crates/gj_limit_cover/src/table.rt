//! The joins of a function as sets, and the intervals that are joined to one.
ghost use Rattle.std.specs.Prelude.{ℕ, ◌≡◌, ◌↔◌, ◌<◌, ◌≤◌, ◌&&◌, ◌==◌, false, IfOk, IsTrue};
ghost use Rattle.gj_loops.specs.IndexSets.{has};
ghost use Rattle.gj_loops.specs.declared.index_set.IndexSet.{IndexSet};
ghost use Rattle.gj_jumps.specs.LimitCover.{IsTightAt};
ghost use Rattle.gj_limit_faces.specs.Joins.{AreJoinsOf};
ghost use Rattle.gj_limit_cover.specs.LimitCover.{IsDirectlyCovered};
ghost use Rattle.gj_limit_cover.specs.Links.{IsLink, AreLinkedRows, IsDirectInRow};

use gj_limit_faces::{Joins, TightLimits};
use gj_loops::{IndexSet, LIMIT};
use gj_shape::Shape;
use std::alloc::{AllocError, Global};

/// Which intervals are joined, and which are directly covered.
#[derive(Drop)]
pub(crate) struct Table {
    pub(crate) joins: Joins,
    /// For each interval those to which an edge links it.
    linked: Vec<IndexSet>,
    /// The directly covered intervals.
    pub(crate) direct: IndexSet,
}

impl Table {
    ghost use Rattle.gj_limit_cover.specs.LimitCover.{AreJoined};
    ghost use Rattle.gj_limit_cover.specs.Table.{IsTableOf, IsJoinedSet, HasLeastLined};

    /// The table of the function.
    pub(crate) fn of(alloc: Global, shape: &Shape) -> Result<Table, AllocError>
        ensures { IfOk result (IsTableOf shape.now) }
    {
        let limits = TightLimits::new(alloc, shape)?;
        let joins = Joins::new(alloc, shape, &limits)?;
        let linked = linked_rows(alloc, shape, &joins)?;
        let direct = direct_intervals(shape, &joins);
        Ok(Table {
            joins,
            linked,
            direct,
        })
    }

    /// The intervals that are joined to the interval.
    pub(crate) fn joined(&self, shape: &Shape, i: u32) -> IndexSet
        requires table { IsTableOf shape.now self.now }
        requires within { i < shape.now.order }
        ensures within { (j : ℕ) → IsTrue (has result j) → j < shape.now.order }
        ensures joined { (j : ℕ) → j < shape.now.order →
            IsTrue (has result j) ↔ AreJoined shape.now.order (IsTightAt shape.now) i j }
        ensures set { (free near : IndexSet) → IsJoinedSet shape.now free near i result }
    {
        let linking = self.linking_below(shape, i, shape.order());
        self.linked[i as usize].or(&linking)
    }

    /// Of the intervals that are joined to the interval those that are free and not near, the least
    /// that is not free, and perhaps others.
    pub(crate) fn joined_next(
        &self,
        shape: &Shape,
        i: u32,
        free: &IndexSet,
        near: &IndexSet,
    ) -> IndexSet
        requires table { IsTableOf shape.now self.now }
        requires within { i < shape.now.order }
        ensures joined { IsJoinedSet shape.now free.now near.now i result }
        ensures least { HasLeastLined shape.now free.now i result }
    {
        let linked = self.linked[i as usize];
        let end = needed_end(&linked, free, near, shape.order());
        let linking = self.linking_below(shape, i, end);
        linked.or(&linking)
    }

    /// Of the intervals below the end those that are linked to the interval.
    fn linking_below(&self, shape: &Shape, i: u32, end: u32) -> IndexSet
        requires table { IsTableOf shape.now self.now }
        requires within { i < shape.now.order }
        requires end { end ≤ shape.now.order }
        ensures { (j : ℕ) → IsTrue (has result j) ↔
            ((j < end) × IsLink shape.now.order (IsTightAt shape.now) j i) }
    {
        let mut set = IndexSet::empty();
        for j in 0..end {
            if !self.linked[j as usize].contains(i as usize) {
                continue;
            }
            set.insert(j as usize);
        }
        set
    }
}

/// Below which index the intervals that are linked to one are needed: all if some free interval is
/// not near, and else those before the first that is linked and not free.
fn needed_end(linked: &IndexSet, free: &IndexSet, near: &IndexSet, order: u32) -> u32
    requires { order ≤ 1_000 }
    ensures low { result ≤ order }
    ensures near { (j : ℕ) → IsTrue (has free.now j) → has near.now j ≡ false → result ≡ order }
    ensures lined { result < order → IsTrue (has linked.now result) × (has free.now result ≡ false) }
{
    if free.and_not(near).first().is_some() {
        return order;
    }
    let Some(first) = linked.and_not(free).first() else {
        return order;
    };
    order.min(first as u32)
}

/// For each interval those to which an edge links it.
fn linked_rows(alloc: Global, shape: &Shape, joins: &Joins) -> Result<Vec<IndexSet>, AllocError>
    requires { AreJoinsOf shape.now joins.now }
    ensures { IfOk result (λ v. AreLinkedRows shape.now shape.now.order v.items) }
{
    let mut rows = Vec::with_capacity(alloc, shape.order() as usize)?;
    for a in 0..shape.order() {
        rows.push(linked_row(shape, joins, a))?;
    }
    Ok(rows)
}

/// The intervals to which an edge links the interval.
fn linked_row(shape: &Shape, joins: &Joins, i: u32) -> IndexSet
    requires joins { AreJoinsOf shape.now joins.now }
    requires within { i < shape.now.order }
    ensures { (j : ℕ) → IsTrue (has result j) ↔
        ((j < shape.now.order) × IsLink shape.now.order (IsTightAt shape.now) i j) }
{
    let order = shape.order() as usize;
    let row = joins.row(i);
    row.horizontal.turned(i as usize, order).or(&row.diagonal)
}

/// The intervals on which a triangle with slack 0 projects.
fn direct_intervals(shape: &Shape, joins: &Joins) -> IndexSet
    requires { AreJoinsOf shape.now joins.now }
    ensures { (i : ℕ) → IsTrue (has result i) ↔
        ((i < shape.now.order) × IsDirectlyCovered shape.now.order (IsTightAt shape.now) i) }
{
    let mut direct = IndexSet::empty();
    for a in 0..shape.order() {
        direct = direct.or(&direct_in_row(shape, joins, a));
    }
    direct
}

/// Those on which one of the squares (a, b) projects.
fn direct_in_row(shape: &Shape, joins: &Joins, a: u32) -> IndexSet
    requires joins { AreJoinsOf shape.now joins.now }
    requires within { a < shape.now.order }
    ensures { (i : ℕ) → IsTrue (has result i) ↔ ((i < shape.now.order) ×
        IsDirectInRow shape.now.order (IsTightAt shape.now) a i) }
{
    let order = shape.order() as usize;
    let row = joins.row(a);
    let triangles = row.lower.or(&row.upper);
    let lower_sums = row.lower.turned(a as usize, order);
    let upper_sums = row.upper.turned(a as usize + 1, order);
    let sums = lower_sums.or(&upper_sums);
    let others = triangles.or(&sums);
    others.or(&one_if(a as usize, triangles.first().is_some()))
}

/// The set of the index alone, if that is wanted, and else of none.
fn one_if(i: usize, is_wanted: bool) -> IndexSet
    requires { i < LIMIT }
    ensures { (j : ℕ) → has result j ≡ (is_wanted && j == i) }
{
    let mut set = IndexSet::empty();
    set.put(i, is_wanted);
    set
}
