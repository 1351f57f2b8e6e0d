//! The tight pairs as sets.
ghost use Rattle.std.specs.Prelude.{ℕ, ◌≡◌, ◌↔◌, ◌+◌, ◌*◌, ◌<◌, ◌≤◌, false, nat_lt, length};
ghost use Rattle.std.specs.Prelude.{IfOk, IfSome, IsTrue};
ghost use Rattle.gj_loops.specs.IndexSets.{has};
ghost use Rattle.gj_shape.specs.Additive.{IsAdditive};
ghost use Rattle.gj_shape.specs.Given.{IsOrder};
ghost use Rattle.gj_cover.specs.Sides.{AreSides, one_way};

use crate::transposed::{first_indices, transposed};
use gj_loops::IndexSet;
use gj_shape::{FaceKind, wrapped};
use std::alloc::{AllocError, Global};

/// Which pairs of indices below the order are tight, as sets, so that each question about all pairs
/// with one index, or with one sum, is asked of a whole set.
#[derive(Drop)]
pub(crate) struct Table {
    order: u32,
    /// For each a the indices b of the tight pairs (a, b).
    rows: Vec<IndexSet>,
    sides: Sides,
    /// The indices below the order.
    within: IndexSet,
    ghost few: { IsOrder order },
    ghost rows_length: { length rows.items ≡ order },
    ghost sides_are: { AreSides order rows.items sides } by { one_way order rows.items sides },
    ghost within_is: { (i : ℕ) → has within i ≡ nat_lt i order },
}

/// The tight pairs by their second index, and by their sum modulo the order.
#[derive(Drop)]
enum Sides {
    /// Sets of their own.
    Apart {
        /// For each b the indices a of the tight pairs (a, b).
        columns: Vec<IndexSet>,
        /// For each s the indices a of the tight pairs (a, b) with the sum s.
        firsts: Vec<IndexSet>,
        /// For each s the indices b of the tight pairs (a, b) with the sum s.
        seconds: Vec<IndexSet>,
    },
    /// The rows again: (b, a) is tight with each tight (a, b), the indices of the pairs with the
    /// sum s are those in the row of the place less s, and the order stands for 0 in each row.
    Rows {
        place: u32,
    },
}

impl Table {
    ghost use Rattle.std.specs.Prelude.{ℕ, ◌%◌, ◌&&◌, nat_lt};
    ghost use Rattle.gj_loops.specs.IndexSets.{has};
    ghost use Rattle.gj_cover.specs.Sides.{AreOwnSides};
    ghost use Rattle.gj_cover.specs.Table.{IsTightInTable, is_tight_in};

    /// The table of the pairs in these rows.
    pub(crate) fn of(alloc: Global, rows: Vec<IndexSet>, order: u32) -> Result<Table, AllocError>
        requires few { IsOrder order }
        requires length { length rows.items ≡ order }
        ensures order { IfOk result (λ t. t.order ≡ order) }
        ensures rows { IfOk result (λ t. t.rows.items ≡ rows.items) }
    {
        let columns = transposed(alloc, rows.as_slice())?;
        let firsts = first_indices(alloc, rows.as_slice())?;
        let seconds = first_indices(alloc, columns.as_slice())?;
        Ok(Table {
            order,
            rows,
            sides: Sides::Apart {
                columns,
                firsts,
                seconds,
            },
            within: IndexSet::below(order as usize),
        })
    }

    /// The table of the pairs in these rows, if (b, a) is tight with each tight (a, b), the pairs
    /// with a sum are those in the row of the place less the sum, and the order stands for 0 in
    /// each row. It takes no memory.
    pub(crate) fn with_own_sides(rows: Vec<IndexSet>, order: u32, place: u32) -> Table
        requires few { IsOrder order }
        requires length { length rows.items ≡ order }
        requires sides { AreOwnSides order rows.items place }
        ensures order { result.order ≡ order }
        ensures rows { result.rows.items ≡ rows.items }
    {
        Table {
            order,
            rows,
            sides: Sides::Rows { place },
            within: IndexSet::below(order as usize),
        }
    }

    /// The order.
    pub(crate) fn order(&self) -> u32
        ensures value { result ≡ self.now.order }
        ensures few { IsOrder result }
    {
        self.order
    }

    /// The place, if the rows are all sets of the table.
    pub(crate) fn own_place(&self) -> Option<u32>
        ensures { IfSome result (AreOwnSides self.now.order self.now.rows.items) }
    {
        match self.sides {
            Sides::Rows { place } => Some(place),
            Sides::Apart { .. } => None,
        }
    }

    /// The indices of the set that are below the order.
    pub(crate) fn bounded(&self, set: &IndexSet) -> IndexSet
        ensures { (j : ℕ) → has result j ≡ (nat_lt j self.now.order && has set.now j) }
    {
        self.within.and(set)
    }

    /// Each index of the set less 1, where 0 becomes the last index below the order; none that is
    /// not below the order.
    pub(crate) fn turned_back(&self, set: &IndexSet) -> IndexSet
        ensures { (j : ℕ) → has result j ≡ (nat_lt j self.now.order && has set.now
            ((j + 1) % self.now.order)) }
    {
        self.within.and(&set.turned_down(self.order as usize))
    }

    /// The indices b with a tight pair (a, b).
    pub(crate) fn row(&self, a: u32) -> &IndexSet
        requires { a ≤ self.now.order }
        ensures { (b : ℕ) → b < self.now.order → has result.now b ≡ is_tight_in self.now a b }
    {
        &self.rows[wrapped(a, self.order) as usize]
    }

    /// The indices a with a tight pair (a, b).
    pub(crate) fn column(&self, b: u32) -> &IndexSet
        requires { b ≤ self.now.order }
        ensures { (a : ℕ) → a < self.now.order → has result.now a ≡ is_tight_in self.now a b }
    {
        match &self.sides {
            Sides::Apart { columns, .. } => &columns[wrapped(b, self.order) as usize],
            Sides::Rows { .. } => self.row(b),
        }
    }

    /// The first indices of the tight pairs with this sum, modulo the order.
    pub(crate) fn firsts(&self, sum: u32) -> &IndexSet
        requires { sum ≤ self.now.order }
        ensures { (a b : ℕ) → a < self.now.order → b < self.now.order →
            (a + b) % self.now.order ≡ sum % self.now.order →
            has result.now a ≡ is_tight_in self.now a b }
    {
        match &self.sides {
            Sides::Apart { firsts, .. } => &firsts[wrapped(sum, self.order) as usize],
            Sides::Rows { place } => self.row_of_sum(*place, sum),
        }
    }

    /// The second indices of the tight pairs with this sum, modulo the order.
    pub(crate) fn seconds(&self, sum: u32) -> &IndexSet
        requires { sum ≤ self.now.order }
        ensures { (a b : ℕ) → a < self.now.order → b < self.now.order →
            (a + b) % self.now.order ≡ sum % self.now.order →
            has result.now b ≡ is_tight_in self.now a b }
    {
        match &self.sides {
            Sides::Apart { seconds, .. } => &seconds[wrapped(sum, self.order) as usize],
            Sides::Rows { place } => self.row_of_sum(*place, sum),
        }
    }

    /// The indices b up to the order with a tight pair (a, b). The order stands for 0.
    pub(crate) fn whole_row(&self, place: u32, a: u32) -> &IndexSet
        requires sides { AreOwnSides self.now.order self.now.rows.items place }
        requires first { a ≤ self.now.order }
        ensures tells { (b : ℕ) → b ≤ self.now.order → has result.now b ≡ is_tight_in self.now a b }
        ensures within { (b : ℕ) → self.now.order < b → has result.now b ≡ false }
    {
        &self.rows[wrapped(a, self.order) as usize]
    }

    /// The first indices up to the order of the tight pairs with this sum, modulo the order. The
    /// order stands for 0.
    pub(crate) fn whole_row_of_sum(&self, place: u32, sum: u32) -> &IndexSet
        requires sides { AreOwnSides self.now.order self.now.rows.items place }
        requires sum { sum ≤ self.now.order }
        ensures { (a b : ℕ) → a ≤ self.now.order → b < self.now.order →
            (a + b) % self.now.order ≡ sum % self.now.order →
            has result.now a ≡ is_tight_in self.now a b }
    {
        let sum = wrapped(sum, self.order);
        self.whole_row(place, wrapped(place + (self.order - sum), self.order))
    }

    /// The row of the place less the sum, which has the first indices of the tight pairs with this
    /// sum.
    fn row_of_sum(&self, place: u32, sum: u32) -> &IndexSet
        requires sides { AreOwnSides self.now.order self.now.rows.items place }
        requires sum { sum ≤ self.now.order }
        ensures { (a b : ℕ) → a < self.now.order → b < self.now.order →
            (a + b) % self.now.order ≡ sum % self.now.order →
            has result.now a ≡ is_tight_in self.now a b }
    {
        let sum = wrapped(sum, self.order);
        self.row(wrapped(place + (self.order - sum), self.order))
    }

    /// Whether the pair is tight, if both indices are below the order.
    fn has_pair(&self, i: u32, j: u32) -> bool
        requires first { i < self.now.order }
        requires second { j < self.now.order }
        ensures { IsTrue result ↔ IsTightInTable self.now i j }
    {
        self.rows[i as usize].contains(j as usize)
    }

    /// Whether the pair (i, j) is tight, if only the first index may be the order.
    fn has_pair_right(&self, i: u32, j: u32) -> bool
        requires first { i ≤ self.now.order }
        requires second { j < self.now.order }
        ensures { IsTrue result ↔ IsTightInTable self.now i j }
    {
        self.row(i).contains(j as usize)
    }

    /// Whether the pair (i, j) is tight, if only the second index may be the order.
    fn has_pair_above(&self, i: u32, j: u32) -> bool
        requires first { i < self.now.order }
        requires second { j ≤ self.now.order }
        ensures { IsTrue result ↔ IsTightInTable self.now i j }
    {
        self.rows[i as usize].contains(wrapped(j, self.order) as usize)
    }

    /// Whether the pair is tight, if no index is above the order.
    pub(crate) fn is_tight(&self, i: u32, j: u32) -> bool
        requires first { i ≤ self.now.order }
        requires second { j ≤ self.now.order }
        ensures { IsTrue result ↔ IsTightInTable self.now i j }
    {
        self.row(i).contains(wrapped(j, self.order) as usize)
    }

    /// Whether the face of this kind of the square (a, b) is additive.
    pub(crate) fn is_additive(&self, kind: FaceKind, a: u32, b: u32) -> bool
        requires first { a < self.now.order }
        requires second { b < self.now.order }
        ensures { IsTrue result ↔ IsAdditive (IsTightInTable self.now) kind a b }
    {
        match kind {
            FaceKind::Vertex => self.has_pair(a, b),
            FaceKind::Horizontal => self.has_pair(a, b) && self.has_pair_right(a + 1, b),
            FaceKind::Vertical => self.has_pair(a, b) && self.has_pair_above(a, b + 1),
            FaceKind::Diagonal => self.has_diagonal(a, b),
            FaceKind::Lower => self.has_diagonal(a, b) && self.has_pair(a, b),
            FaceKind::Upper => self.has_diagonal(a, b) && self.is_tight(a + 1, b + 1),
        }
    }

    /// Whether the diagonal edge of the square (a, b) is additive.
    fn has_diagonal(&self, a: u32, b: u32) -> bool
        requires first { a < self.now.order }
        requires second { b < self.now.order }
        ensures { IsTrue result ↔ (IsTightInTable self.now (a + 1) b ×
            IsTightInTable self.now a (b + 1)) }
    {
        self.has_pair_right(a + 1, b) && self.has_pair_above(a, b + 1)
    }
}
