//! The tight pairs of a continuous function, made once for all who ask.
ghost use Rattle.std.specs.Prelude.{◌≡◌, length};
ghost use Rattle.gj_shape.specs.Given.{IsOrder};
ghost use Rattle.gj_faces.specs.Rows.{AreSetsWithin};

use crate::lanes::tight_rows;
use gj_loops::IndexSet;
use gj_shape::Shape;
use std::alloc::{AllocError, Global};

/// For each a below the order, the indices b below it for which the pair (a, b) is tight.
#[derive(Drop)]
pub struct TightPairs {
    order: u32,
    rows: Vec<IndexSet>,
    ghost few: { IsOrder order },
    ghost whole: { length rows.items ≡ order },
    ghost within: { AreSetsWithin rows.items order },
}

impl TightPairs {
    ghost use Rattle.std.specs.Prelude.{ℕ, ◌↔◌, ◌<◌, ◌≤◌, false, IfOk, IsTrue, MatchOption};
    ghost use Rattle.gj_loops.specs.IndexSets.{has};
    ghost use Rattle.gj_shape.specs.FunctionData.{IsContinuous};
    ghost use Rattle.gj_faces.specs.TightPairs.{IsTightIn, IsNextTight, AreTightPairsOf};

    /// The tight pairs of the continuous function.
    pub fn new(alloc: Global, shape: &Shape) -> Result<TightPairs, AllocError>
        requires { IsContinuous shape.now }
        ensures { IfOk result (AreTightPairsOf shape.now) }
    {
        let order = shape.order();
        let rows = tight_rows(alloc, shape)?;
        Ok(TightPairs { order, rows })
    }

    /// The order, from 2 to 1,000.
    pub fn order(&self) -> u32
        ensures value { result ≡ self.now.order }
        ensures few { IsOrder result }
    {
        self.order
    }

    /// The indices b below the order for which the pair (a, b) is tight, and no others.
    pub fn row(&self, a: u32) -> &IndexSet
        requires { a < self.now.order }
        ensures tells { (b : ℕ) → b < self.now.order → IsTrue (has result.now b) ↔
            IsTightIn self.now a b }
        ensures within { (b : ℕ) → self.now.order ≤ b → has result.now b ≡ false }
    {
        &self.rows[a as usize]
    }

    /// Whether the pair (a, b) is tight.
    pub fn contains(&self, a: u32, b: u32) -> bool
        requires first { a < self.now.order }
        requires second { b < self.now.order }
        ensures { IsTrue result ↔ IsTightIn self.now a b }
    {
        self.row(a).contains(b as usize)
    }

    /// The least b below the order, and not below `from`, for which the pair (a, b) is tight.
    ///
    /// So the pairs of a row are gone over: the next is asked for from b + 1.
    pub fn next_in_row(&self, a: u32, from: u32) -> Option<u32>
        requires { a < self.now.order }
        ensures { MatchOption result ((b : ℕ) → from ≤ b → b < self.now.order →
            IsTightIn self.now a b → ⊥)
            (IsNextTight self.now a from) }
    {
        match self.row(a).first_from(from as usize) {
            Some(b) => Some(b as u32),
            None => None,
        }
    }
}
