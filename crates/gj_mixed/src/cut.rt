//! Cuts of rows with continuous columns.
ghost use Rattle.std.specs.Prelude.{◌≡◌};
ghost use Rattle.gj_mixed.specs.MixedCuts.{without_weights};

use gj_cut::{RowCut, Term};
use gj_shape::List;
use std::alloc::Global;

/// The cut of a row with continuous columns, or why there is none.
#[derive(Debug, PartialEq, Eq, Drop)]
pub enum MixedCut {
    /// The sum of all terms, each its coefficient times the variable of its column, is at least 1:
    /// the terms of the whole columns, and those of the continuous columns, each with its weight
    /// for a coefficient, both in the order of the columns.
    Cut(List<Term>, List<Term>),
    /// The right side is whole.
    Integral,
    /// The right side is not whole, and its fractional part is not the rule's f.
    OtherFraction,
}

impl MixedCut {
    /// The cut of a row whose columns are all whole: it has no weights.
    pub fn of_whole(alloc: Global, cut: RowCut) -> MixedCut
        ensures { result ≡ without_weights cut }
    {
        match cut {
            RowCut::Cut(terms) => MixedCut::Cut(terms, List::of(Vec::new(alloc))),
            RowCut::Integral => MixedCut::Integral,
            RowCut::OtherFraction => MixedCut::OtherFraction,
        }
    }
}
