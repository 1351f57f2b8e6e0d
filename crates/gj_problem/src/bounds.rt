//! Columns turned to their bounds.
ghost use Rattle.std.specs.Prelude.{◌≡◌, ◌↔◌, true, false, [], None, Err, length};
ghost use Rattle.std.specs.Prelude.{IfOk, OnOk, IsTrue, MatchOption};
ghost use Rattle.gj_fields.specs.Rational.{rational, ◌-ℚ◌};
ghost use Rattle.gj_problem.specs.Aggregates.{pieces_at, held, IsLeftOut, IsTurned, IsFree};
ghost use Rattle.gj_problem.specs.Aggregates.{IsLowerBound, IsUpperBound, IsFromLower, IsFromUpper};
ghost use Rattle.gj_problem.specs.Steps.{IsMadeNext, AreTurnedOrFree, held_by};
ghost use Rattle.gj_problem.specs.WideRows.{IsWideTurn, AreWideTurns};

use crate::faults::Fault;
use crate::pieces::{Piece, one_entry};
use crate::problem::{Column, Inequality};
use crate::sums::with_multiple;
use gj_frac::Frac;
use std::alloc::{AllocError, Global};

/// The columns turned to their bounds, and the right side with the bounds put in.
#[derive(Drop)]
pub(crate) struct Bounds {
    /// The columns.
    pub(crate) pieces: Vec<Piece>,
    /// The right side.
    pub(crate) right: Frac,
}

/// The columns turned to their bounds, or the first that has none and cannot be left out.
#[derive(Drop)]
pub(crate) enum Turned {
    /// The columns.
    Bounds(Bounds),
    /// The first free column.
    Free(u32),
}

/// Turns each column of a sum, with these coefficients against this right side, unless it is left
/// out.
pub(crate) fn turned_columns(
    alloc: Global,
    columns: &[Column],
    coefficients: &[Frac],
    at_upper: &[bool],
    right: Frac,
) -> Result<Turned, Fault>
    requires coefficients { length coefficients.now ≡ length columns.now }
    requires at_upper { length at_upper.now ≡ length columns.now }
    ensures turned { IfOk result (AreTurnedOrFree
        (held 0 columns.now coefficients.now at_upper.now) right) }
    ensures wide { result ≡ Err Fault.Wide →
        AreWideTurns (held 0 columns.now coefficients.now at_upper.now) right }
    ensures narrow { OnOk result
        (¬ AreWideTurns (held 0 columns.now coefficients.now at_upper.now) right) }
{
    let mut bounds = Bounds {
        pieces: Vec::new(alloc),
        right,
    };
    for (j, column) in columns.iter().enumerate() {
        let Ok(index) = u32::try_from(j) else {
            return Err(Fault::Wide);
        };
        if !turn(
            alloc,
            index,
            column,
            coefficients[j],
            at_upper[j],
            &mut bounds,
        )? {
            return Ok(Turned::Free(index));
        }
    }
    Ok(Turned::Bounds(bounds))
}

/// Turns a column with this coefficient, unless it is left out; false if it is free.
#[inline(always)]
fn turn(
    alloc: Global,
    index: u32,
    column: &Column,
    coefficient: Frac,
    at_upper: bool,
    bounds: &mut Bounds,
) -> Result<bool, Fault>
    ensures right { IfOk result (λ done. IsTrue done →
        rational bounds.new.right -ℚ pieces_at [] bounds.new.pieces.items
        ≡ rational bounds.old.right -ℚ pieces_at [] bounds.old.pieces.items) }
    ensures next { IfOk result (λ done. IsTrue done → let h = held_by index column.now coefficient
        at_upper in IsMadeNext (IsLeftOut h) (IsTurned h)
        bounds.old.pieces.items bounds.new.pieces.items) }
    ensures free { IfOk result (λ done. done ≡ false →
        IsFree (held_by index column.now coefficient at_upper)) }
    ensures wide { result ≡ Err Fault.Wide →
        IsWideTurn (held_by index column.now coefficient at_upper) bounds.old.right }
    ensures narrow { OnOk result
        (¬ IsWideTurn (held_by index column.now coefficient at_upper) bounds.old.right) }
{
    if coefficient.num() == 0 {
        return Ok(true);
    }
    let held = Held {
        index,
        column: *column,
        coefficient,
        at_upper,
    };
    held.turn(alloc, bounds)
}

/// A column with its coefficient in a sum.
#[derive(Clone, Copy)]
pub(crate) struct Held {
    /// The index of the column.
    pub(crate) index: u32,
    /// The column.
    pub(crate) column: Column,
    /// Its coefficient.
    pub(crate) coefficient: Frac,
    /// Whether its upper bound is preferred.
    pub(crate) at_upper: bool,
}

impl Held {
    /// Turns the column, unless it is left out; false if it is free.
    fn turn(self, alloc: Global, bounds: &mut Bounds) -> Result<bool, Fault>
        ensures right { IfOk result (λ done. IsTrue done →
            rational bounds.new.right -ℚ pieces_at [] bounds.new.pieces.items
            ≡ rational bounds.old.right -ℚ pieces_at [] bounds.old.pieces.items) }
        ensures next { IfOk result (λ done. IsTrue done → IsMadeNext (IsLeftOut self)
            (IsTurned self) bounds.old.pieces.items bounds.new.pieces.items) }
        ensures free { IfOk result (λ done. done ≡ false → IsFree self) }
        ensures wide { result ≡ Err Fault.Wide → IsWideTurn self bounds.old.right }
        ensures narrow { OnOk result (¬ IsWideTurn self bounds.old.right) }
    {
        if self.is_left_out() {
            return Ok(true);
        }
        let Some(piece) = self.to_bound(alloc)? else {
            return Ok(false);
        };
        bounds.right = with_multiple(bounds.right, -piece.entry, piece.inequality.right)?;
        bounds.pieces.push(piece)?;
        Ok(true)
    }

    /// Whether the coefficient is 0, or a whole number in a whole column.
    fn is_left_out(self) -> bool
        ensures { IsTrue result ↔ IsLeftOut self }
    {
        let x = self.coefficient;
        x.num() == 0 || x.den() == 1 && self.column.is_whole
    }

    /// The column turned to its bound: the lower one, unless there is none or the upper one is
    /// preferred.
    fn to_bound(self, alloc: Global) -> Result<Option<Piece>, AllocError>
        ensures { IfOk result (λ made. MatchOption made
            ((self.column.lower ≡ None) × (self.column.upper ≡ None)) (IsTurned self)) }
    {
        match (self.column.lower, self.column.upper) {
            (None, None) => Ok(None),
            (Some(lower), None) => Ok(Some(self.above_lower(alloc, lower)?)),
            (None, Some(upper)) => Ok(Some(self.below_upper(alloc, upper)?)),
            (Some(lower), Some(upper)) => {
                if self.at_upper {
                    Ok(Some(self.below_upper(alloc, upper)?))
                } else {
                    Ok(Some(self.above_lower(alloc, lower)?))
                }
            }
        }
    }

    /// The column minus its lower bound.
    fn above_lower(self, alloc: Global, lower: Frac) -> Result<Piece, AllocError>
        ensures whole { IfOk result (λ s. s.is_whole ≡ self.column.is_whole) }
        ensures lower { IfOk result (IsFromLower self lower) }
    {
        let bound = lower_bound(self.column.is_whole, lower);
        let entries = one_entry(alloc, self.index, Frac::ratio(1, 1))?;
        Ok(Piece {
            entry: self.coefficient,
            inequality: Inequality {
                entries,
                right: bound,
            },
            is_whole: self.column.is_whole,
        })
    }

    /// The upper bound minus the column.
    fn below_upper(self, alloc: Global, upper: Frac) -> Result<Piece, AllocError>
        ensures whole { IfOk result (λ s. s.is_whole ≡ self.column.is_whole) }
        ensures upper { IfOk result (IsFromUpper self upper) }
    {
        let bound = upper_bound(self.column.is_whole, upper);
        let entries = one_entry(alloc, self.index, Frac::ratio(-1, 1))?;
        Ok(Piece {
            entry: -self.coefficient,
            inequality: Inequality {
                entries,
                right: -bound,
            },
            is_whole: self.column.is_whole,
        })
    }
}

/// The lower bound of a column; that of a whole one is rounded up.
pub fn lower_bound(is_whole: bool, lower: Frac) -> Frac
    ensures { IsLowerBound is_whole lower result }
{
    if is_whole {
        -rounded_down(-lower)
    } else {
        lower
    }
}

/// The upper bound of a column; that of a whole one is rounded down.
pub fn upper_bound(is_whole: bool, upper: Frac) -> Frac
    ensures { IsUpperBound is_whole upper result }
{
    if is_whole { rounded_down(upper) } else { upper }
}

/// The greatest whole number that is at most x, as a fraction.
pub fn rounded_down(x: Frac) -> Frac
    ensures { IsUpperBound true x result }
{
    let Some(whole) = Frac::new(x.floor(), 1) else {
        unreachable!();
    };
    whole
}
