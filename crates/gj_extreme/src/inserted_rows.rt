//! The rows of the linear system for the slopes, inserted in their order until there is one for
//! each component.
ghost use Rattle.std.specs.Prelude.{ℕ, ◌≡◌, ◌<◌, ◌≤◌, ◌+◌, ◌-◌, ◌^◌, ◌↔◌, ◌∷◌, List, length, IfOk};
ghost use Rattle.std.specs.Prelude.{OnOk, IsErrOf, IsTrue};
ghost use Rattle.gj_faces.specs.TightPairs.{AreTightPairsOf};
ghost use Rattle.gj_shape.specs.Elimination.{Passes};
ghost use Rattle.gj_shape.specs.FunctionData.{FunctionData, IsWithinBounds};
ghost use Rattle.gj_shape.specs.SlopeRows.{row_names, row_of as row_entries, component_in};
ghost use Rattle.gj_shape.specs.declared.extremality.RowName.{RowName};
ghost use Rattle.gj_shape.specs.declared.extremality.RowName.TheVariants.{Pair};
ghost use Rattle.gj_system.specs.Components.{IsNameBelow};
ghost use Rattle.gj_extreme.specs.Decision.{slope_elimination};
ghost use Rattle.gj_extreme.specs.RowsToCome.{AreToCome, AreInserted, IsReady, IsTaken};
ghost use Rattle.gj_extreme.specs.RowsToCome.{row_names_from};
ghost use Rattle.gj_extreme.specs.SeenPairs.{AreSeenBelow};
ghost use Rattle.gj_extreme.specs.PairsLeft.{AreIntervalsOf, ArePairsLeft};

use crate::seen::{SeenPair, SeenPairs};
use gj_elim::{Basis, ElimFault, Inserted};
use gj_faces::TightPairs;
use gj_loops::IndexSet;
use gj_shape::{RowName, Shape, wrapped};
use gj_system::SlopeRows;
use std::alloc::{AllocError, Global};

/// Rows that are inserted, with the names of those that are kept. A row that was inserted before is
/// passed over, since it changes nothing.
#[derive(Drop)]
pub(crate) struct Rows {
    pub(crate) basis: Basis,
    pub(crate) names: Vec<RowName>,
    /// The row that is being inserted.
    pub(crate) row: Vec<i128>,
    /// The pairs whose rows were inserted. It has places once rows of pairs are to be inserted.
    pub(crate) seen: SeenPairs,
}

/// The rows of the system for intervals in these components, inserted in their order until there is
/// one for each component.
pub(crate) fn rows_of(
    alloc: Global,
    shape: &Shape,
    pairs: &TightPairs,
    system: &SlopeRows,
) -> Result<Rows, ElimFault>
    requires pairs { AreTightPairsOf shape.now pairs.now }
    requires components { length system.now.component ≡ shape.now.order }
    ensures limits { IsWithinBounds shape.now }
    ensures rows { IfOk result (AreInserted shape.now
        (component_in system.now.component) system.now.columns) }
    ensures wide { IsErrOf result ElimFault.Wide →
        Passes (slope_elimination shape.now (component_in system.now.component)
        system.now.columns).marked }
{
    let order = shape.order();
    let mut rows = Rows::new(alloc, system)?;
    rows.insert(shape, system, RowName::Period)?;
    rows.insert(shape, system, RowName::F)?;
    if rows.is_full() {
        return Ok(rows);
    }
    rows.seen = SeenPairs::new(alloc, system.component())?;
    let intervals = intervals_of(alloc, system)?;
    for a in 1..order {
        insert_pairs(shape, pairs, system, intervals.as_slice(), a, &mut rows)?;
        if rows.is_full() {
            return Ok(rows);
        }
    }
    Ok(rows)
}

/// For each component the set of its intervals.
fn intervals_of(alloc: Global, system: &SlopeRows) -> Result<Vec<IndexSet>, AllocError>
    requires few { length system.now.component ≤ 1024 }
    ensures { IfOk result (λ sets. AreIntervalsOf (component_in system.now.component)
        (length system.now.component) sets.items) }
{
    let component = system.component();
    let mut intervals = vec![in alloc; IndexSet::empty(); system.columns() as usize]?;
    for i in 0..component.len() {
        let number = component[i] as usize;
        if number < intervals.len() {
            intervals[number].insert(i);
        }
    }
    Ok(intervals)
}

/// The b of the tight pairs (a, b), without those of which it is seen that (a - 1, b + 1) or
/// (a - 2, b + 2) is a tight pair with the same row: from a down and from b up, the one or two
/// intervals passed are in the same components.
fn pairs_left(pairs: &TightPairs, system: &SlopeRows, intervals: &[IndexSet], a: u32) -> IndexSet
    requires below { a < pairs.now.order }
    requires order { length system.now.component ≡ pairs.now.order }
    requires intervals { AreIntervalsOf (component_in system.now.component) pairs.now.order
        intervals.now }
    ensures { ArePairsLeft pairs.now (component_in system.now.component) a result }
{
    let row = pairs.row(a);
    if a < 3 {
        return *row;
    }
    let component = system.component();
    let last = component[(a - 1) as usize] as usize;
    let other = component[(a - 2) as usize] as usize;
    if last >= intervals.len() || other >= intervals.len() {
        return *row;
    }
    let left = row.and_not(&pairs.row(a - 1).down(1).and(&intervals[last]));
    if last == other {
        return left;
    }
    let moved = pairs.row(a - 2).down(1).and(&intervals[last]).down(1);
    left.and_not(&moved.and(&intervals[other]))
}

/// Inserts the rows of the tight pairs (a, b) with b from a on.
fn insert_pairs(
    shape: &Shape,
    pairs: &TightPairs,
    system: &SlopeRows,
    intervals: &[IndexSet],
    a: u32,
    rows: &mut Rows,
) -> Result<(), ElimFault>
    requires limits { IsWithinBounds shape.now }
    requires pairs { AreTightPairsOf shape.now pairs.now }
    requires order { length system.now.component ≡ shape.now.order }
    requires some { 0 < a }
    requires below { a < shape.now.order }
    requires intervals { AreIntervalsOf (component_in system.now.component) shape.now.order
        intervals.now }
    requires to_come { AreToCome shape.now (component_in system.now.component) system.now.columns
        rows.old (row_names_from shape.now a) }
    requires seen { AreSeenBelow shape.now.order rows.old.seen }
    ensures to_come { OnOk result
        (AreToCome shape.now (component_in system.now.component) system.now.columns
        rows.new (row_names_from shape.now (a + 1))) }
    ensures seen { OnOk result (AreSeenBelow shape.now.order rows.new.seen) }
    ensures wide { IsErrOf result ElimFault.Wide →
        Passes (slope_elimination shape.now (component_in system.now.component)
        system.now.columns).marked }
{
    let row = pairs.row(a);
    let component = system.component();
    let left = pairs_left(pairs, system, intervals, a);
    let first = a as usize;
    let mut from = first;
    'pairs: while let Some(b) = left.first_from(from) {
        if b > first && row.contains(b - 1) && has_row_of_pair_before(component, first, b) {
            from = b + 1;
            continue 'pairs;
        }
        rows.insert_pair(shape, system, a, b as u32)?;
        from = b + 1;
    }
    Ok(())
}

/// Whether it is known that the pairs (a, b - 1) and (a, b) have the same row: a + b is not q, and
/// the intervals that end at b/q and at (a + b)/q are in one component.
fn has_row_of_pair_before(component: &[u32], a: usize, b: usize) -> bool
    requires first { a < length component.now }
    requires second { b < length component.now }
    requires positive { 0 < b }
    requires small { length component.now < 2 ^ 31 }
    ensures { IsTrue result → (n place : ℕ) →
        row_entries (component_in component.now) n (length component.now) place (Pair a (b - 1))
        ≡ row_entries (component_in component.now) n (length component.now) place (Pair a b) }
{
    let order = component.len();
    if a + b == order {
        return false;
    }
    component[b - 1] == component[wrapped((a + (b - 1)) as u32, order as u32) as usize]
}

impl Rows {
    /// No rows, of which all are still to come.
    fn new(alloc: Global, system: &SlopeRows) -> Result<Rows, AllocError>
        ensures { IfOk result (λ rows. (f : FunctionData) → f.order ≡ length system.now.component →
            AreToCome f (component_in system.now.component) system.now.columns rows (row_names f)) }
    {
        let columns = system.columns();
        Ok(Rows {
            basis: Basis::new(alloc, columns)?,
            names: Vec::new(alloc),
            row: vec![in alloc; 0; columns as usize]?,
            seen: SeenPairs::without_places(alloc),
        })
    }

    /// Whether there is a row for each component.
    pub(crate) fn is_full(&self) -> bool
        ensures { IsTrue result ↔ (length self.now.row.items ≤ length self.now.basis.kept) }
    {
        self.row.len() <= self.basis.rank() as usize
    }

    /// Inserts the row of a tight pair, if it is not known that the row was inserted before.
    fn insert_pair(
        &mut self,
        shape: &Shape,
        system: &SlopeRows,
        a: u32,
        b: u32,
    ) -> Result<(), ElimFault>
        requires order { length system.now.component ≡ shape.now.order }
        requires limits { IsWithinBounds shape.now }
        requires name { IsNameBelow (Pair a b) shape.now.order }
        requires ready { IsReady self.old system.now.columns }
        requires seen { AreSeenBelow shape.now.order self.old.seen }
        ensures to_come { OnOk result ((rest : List RowName) →
            AreToCome shape.now (component_in system.now.component) system.now.columns self.old
            (Pair a b ∷ rest) →
            AreToCome shape.now (component_in system.now.component) system.now.columns
            self.new rest) }
        ensures seen { OnOk result (AreSeenBelow shape.now.order self.new.seen) }
        ensures wide { IsErrOf result ElimFault.Wide → (rest : List RowName) →
            AreToCome shape.now (component_in system.now.component) system.now.columns self.old
            (Pair a b ∷ rest) →
            Passes (slope_elimination shape.now (component_in system.now.component)
            system.now.columns).marked }
    {
        let place = self.seen.place(a, b);
        let seen = self.seen.pairs[place];
        if system.have_same_row(seen.a, seen.b, a, b) {
            return Ok(());
        }
        self.insert(shape, system, RowName::Pair(a, b))?;
        self.seen.pairs[place] = SeenPair { a, b };
        Ok(())
    }

    /// Inserts the row with this name, if there is not yet one for each component.
    fn insert(&mut self, shape: &Shape, system: &SlopeRows, name: RowName) -> Result<(), ElimFault>
        requires order { length system.now.component ≡ shape.now.order }
        requires limits { IsWithinBounds shape.now }
        requires name { IsNameBelow name shape.now.order }
        requires ready { IsReady self.old system.now.columns }
        ensures to_come { OnOk result ((rest : List RowName) →
            AreToCome shape.now (component_in system.now.component) system.now.columns
            self.old (name ∷ rest) →
            IsTaken shape.now (component_in system.now.component) system.now.columns
            name self.new rest) }
        ensures wide { IsErrOf result ElimFault.Wide → (rest : List RowName) →
            AreToCome shape.now (component_in system.now.component) system.now.columns
            self.old (name ∷ rest) →
            Passes (slope_elimination shape.now (component_in system.now.component)
            system.now.columns).marked }
        ensures seen { self.new.seen ≡ self.old.seen }
    {
        if self.is_full() {
            return Ok(());
        }
        system.write_row(shape.place(), name, self.row.as_mut_slice());
        self.names.reserve(1)?;
        if let Inserted::Pivot(_) = self.basis.insert(self.row.as_slice())? {
            self.names.push_reserved(name);
        }
        Ok(())
    }
}
