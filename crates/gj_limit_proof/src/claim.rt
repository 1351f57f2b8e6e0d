//! Claims about functions that jump, and those among them that have a proof text.

ghost use Rattle.std.specs.Prelude.{◌≡◌, ◌↔◌, IfSome, IsSome, IsTrue};
ghost use Rattle.gj_limit_proof.specs.LimitText.{HasText, AreLimitExtremeLines};

use crate::bounds::{are_limit_halves_in_bounds, are_limit_pivot_rows_below};
use gj_limit_system::LimitRow;
use gj_proof::{Numbers, are_cover_lines_below};
use gj_shape::{CoverLine, LimitHalves, List, Shape};
use std::marker::Model;

/// A row of the linear system of limits, the steps that change it, and its pivot.
#[derive(Debug, Drop)]
pub struct LimitPivotRow {
    /// The row with which the group begins.
    pub name: LimitRow,
    /// The columns at which it is reduced, in their order.
    pub reduce: List<u32>,
    /// The column of its pivot.
    pub pivot: u32,
}

/// A claim about a function that jumps.
#[derive(Drop)]
pub enum LimitClaim {
    /// The function is extreme: the lines tell why each interval is covered, and the rows, of these
    /// numbers, leave no other limits and values than 0.
    Extreme(Numbers, Shape, List<CoverLine>, List<LimitPivotRow>),
    /// The function is not extreme: it is the average of the halves.
    NotExtreme(Shape, LimitHalves),
}

impl LimitClaim {
    ghost use Rattle.gj_limit_proof.specs.LimitText.{claim_word, function_of};

    /// The word of the claim, as its proof text tells it. It takes no memory.
    pub fn word(&self) -> &'static str
        ensures { result.now ≡ claim_word self.now }
    {
        match self {
            LimitClaim::Extreme(_, _, _, _) => "extreme",
            LimitClaim::NotExtreme(_, _) => "not-extreme",
        }
    }

    /// The function that the claim is about. It takes no memory.
    pub fn shape(&self) -> &Shape
        ensures { result.now ≡ function_of self.now }
    {
        match self {
            LimitClaim::Extreme(_, shape, _, _) | LimitClaim::NotExtreme(shape, _) => shape,
        }
    }
}

/// A claim that has a proof text. Contracts see it as the claim.
#[derive(Drop)]
pub struct LimitProof {
    claim: LimitClaim,
}

impl Model for LimitProof {
    ghost use Rattle.gj_limit_proof.specs.declared.claim.LimitClaim.{LimitClaim};

    ghost Value = { LimitClaim };

    ghost view = { λ p. p.claim };

    ghost use Rattle.gj_limit_proof.specs.LimitText.{HasText};

    ghost invariant = { λ p. HasText p.claim };
}

impl LimitProof {
    ghost use Rattle.gj_limit_proof.specs.LimitText.{HasText};

    /// The proof of a claim. None exactly if the claim has no text: if a range or a count is not
    /// that of the form. It takes no memory.
    pub fn new(claim: LimitClaim) -> Option<LimitProof>
        ensures some { IsSome result ↔ HasText claim }
        ensures claim { IfSome result (λ p. p ≡ claim) }
    {
        if !has_text(&claim) {
            return None;
        }
        Some(LimitProof::of(claim))
    }

    /// The proof of a claim that is known to have a text. It takes no memory and tests nothing.
    pub fn of(claim: LimitClaim) -> LimitProof
        requires text { HasText claim }
        ensures claim { result ≡ claim }
    {
        LimitProof { claim }
    }

    /// The claim. It takes no memory.
    pub fn claim(&self) -> &LimitClaim
        ensures claim { result.now ≡ self.now }
        ensures has_text { HasText self.now }
    {
        &self.claim
    }
}

/// Whether the claim has a proof text.
fn has_text(claim: &LimitClaim) -> bool
    ensures { IsTrue result ↔ HasText claim.now }
{
    match claim {
        LimitClaim::Extreme(_, shape, lines, rows) => {
            are_extreme_lines(shape, lines.as_slice(), rows.as_slice())
        }
        LimitClaim::NotExtreme(_, halves) => are_limit_halves_in_bounds(halves),
    }
}

/// Whether each interval has a line, and the lines and the rows are within the ranges of the form.
fn are_extreme_lines(shape: &Shape, lines: &[CoverLine], rows: &[LimitPivotRow]) -> bool
    ensures { IsTrue result ↔ AreLimitExtremeLines shape.now lines.now rows.now }
{
    let order = shape.order();
    lines.len() == order as usize
        && are_cover_lines_below(order, lines)
        && are_limit_pivot_rows_below(order, rows)
}
