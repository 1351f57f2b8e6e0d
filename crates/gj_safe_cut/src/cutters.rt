//! What makes cuts of rows of problems.
ghost use Rattle.std.specs.Prelude.{◌≡◌, ◌++◌, ℕ, List, IfOk, OnOk, Err};
ghost use Rattle.gj_frac.specs.declared.Frac.{Frac};
ghost use Rattle.gj_shape.specs.FunctionData.{IsWithinBounds};
ghost use Rattle.gj_shape.specs.Table.{IsMinimal};
ghost use Rattle.gj_rule.specs.declared.kind.RuleKind.TheVariants.{Table};
ghost use Rattle.gj_mixed.specs.Slopes.{AreSlopesAtZero};
ghost use Rattle.gj_problem.specs.declared.pieces.Piece.{Piece};
ghost use Rattle.gj_safe_cut.specs.declared.cut.SafeCut.{SafeCut};
ghost use Rattle.gj_safe_cut.specs.declared.cut.SafeCut.TheVariants.{Free, Wide};
ghost use Rattle.gj_safe_cut.specs.SafeCuts.{IsCutOfRow, IsGmicCutOfRow};

use crate::cut::SafeCut;
use crate::terms::turned_back;
use crate::values::Place;
use gj_cut::part_of;
use gj_frac::Frac;
use gj_mixed::SlopesAtZero;
use gj_problem::{Fault, Row};
use gj_shape::Shape;
use std::alloc::Global;

/// What makes a cut of a row of a problem.
pub trait RowCutter: Drop {
    // What the row with these pieces and this right side gives in so many columns.
    ghost is_cut: { Self → ℕ → List Piece → Frac → SafeCut → Type 0 };

    /// The cut of a row, in so many columns.
    ///
    /// `Memory` is for want of memory, and `Wide` comes exactly where a number does not fit.
    fn cut_of_row(&self, alloc: Global, columns: usize, row: Row) -> Result<SafeCut, Fault>
        ensures cut { IfOk result (is_cut self.now columns
            (row.slacks.items ++ row.bounds.items) row.right) }
        ensures wide { result ≡ Err Fault.Wide → is_cut self.now columns
            (row.slacks.items ++ row.bounds.items) row.right Wide }
        ensures narrow { OnOk result (¬ is_cut self.now columns
            (row.slacks.items ++ row.bounds.items) row.right Wide) };

    // A row has no free column.
    ghost never_free: { (by : Self) (columns : ℕ) (pieces : List Piece) (right : Frac) (j : ℕ) →
        is_cut by columns pieces right (Free j) → ⊥ };
}

/// The mixed-integer cut.
#[derive(Clone, Copy)]
pub struct ByGmic;

impl RowCutter for ByGmic {
    ghost is_cut = { λ _. IsGmicCutOfRow };

    ghost never_free = { λ _ columns pieces right j is. is };

    fn cut_of_row(&self, alloc: Global, columns: usize, row: Row) -> Result<SafeCut, Fault> {
        let Some(f) = part_of(row.right) else {
            return Ok(SafeCut::Integral);
        };
        let place = Place::of(f);
        let cut = turned_back(alloc, columns, &row, &place, place.slopes())?;
        Ok(SafeCut::Cut(cut))
    }
}

/// The cut by a function and its slopes at 0.
#[derive(Clone, Copy)]
pub struct ByFunction<'a> {
    /// The function.
    pub shape: &'a Shape,
    /// Its slopes at 0.
    pub at_zero: SlopesAtZero,
}

impl<'a> ByFunction<'a> {
    /// The cut by this minimal function.
    pub fn of(shape: &'a Shape) -> ByFunction<'a>
        requires { IsMinimal shape.now }
        ensures shape { result.shape.now ≡ shape.now }
        ensures slopes { AreSlopesAtZero shape.now result.at_zero.up result.at_zero.down }
        ensures bounds { IsWithinBounds shape.now }
    {
        // it says that the function is within the bounds of functions
        let _order = shape.order();
        let at_zero = SlopesAtZero::of_function(shape);
        ByFunction { shape, at_zero }
    }
}

impl<'a> RowCutter for ByFunction<'a> {
    ghost is_cut = { λ by. IsCutOfRow (Table by.shape.now) by.at_zero.up by.at_zero.down };

    ghost never_free = { λ _ columns pieces right j is. is };

    fn cut_of_row(&self, alloc: Global, columns: usize, row: Row) -> Result<SafeCut, Fault> {
        let Some(f) = part_of(row.right) else {
            return Ok(SafeCut::Integral);
        };
        if f == self.shape.f() {
            let cut = turned_back(alloc, columns, &row, self.shape, self.at_zero)?;
            Ok(SafeCut::Cut(cut))
        } else {
            Ok(SafeCut::OtherFraction)
        }
    }
}
