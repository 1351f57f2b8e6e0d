//! Functions by their breakpoints, at any fractions.
ghost use Rattle.std.specs.Prelude.{◌≡◌, ◌≢◌, ◌<◌, ◌≤◌, ◌↔◌, ◌++◌, ◌∷◌, [], ℕ, pos, List, length};
ghost use Rattle.std.specs.Prelude.{IfSome, IfNone, IfOk, IfErr, OnOk, OnErr, IsTrue, unsigned_abs};
ghost use Rattle.std.specs.Prelude.{alloc_error};
ghost use Rattle.gj_lemmas.specs.Divisors.{IsLcm};
ghost use Rattle.gj_frac.specs.Fraction.{LessValue, fraction_of, denominator, IsInside};
ghost use Rattle.gj_shape.specs.declared.faults.FractionFault.{FractionFault};
ghost use Rattle.gj_shape.specs.Limits.{greatest_order};
ghost use Rattle.gj_shape.specs.Given.{IsOrder, IsPlace, AreWithinBounds, IsTooFineOf};
ghost use Rattle.gj_shape.specs.Points.{all_fractions};
ghost use Rattle.gj_shape.specs.Breaks.{points_at, AreAscending, AreOnGrid, HasBreaks};
ghost use Rattle.gj_shape.specs.Breaks.{IsGivenByBreaks, AreListsOfBreaks, no_breaks, IsNextBreak};
ghost use Rattle.gj_shape.specs.Breaks.{Follows, IsBreakFault, break_fault, IsOfBreaks};
ghost use Rattle.gj_shape.specs.BreakPlaces.{IsBehindOthers};
ghost use Rattle.gj_shape.specs.declared.breaks.Break.{Break};
ghost use Rattle.gj_shape.specs.declared.breaks.BreakFault.TheVariants.{Memory};

use crate::denominators::{small_denominator, with_point};
use crate::faults::{FractionFault, ShapeFault};
use crate::limits::GREATEST_ORDER;
use crate::numerators::numerator_over;
use crate::pieces::{place_of, push_line, with_points};
use crate::points::{Point, Points};
use crate::shape::Shape;
use gj_frac::{Frac, lcm};
use std::alloc::{AllocError, Global};
use std::marker::Model;
use thiserror::Error;

/// A breakpoint of a function: where it is, with the limits and the value there.
#[derive(Clone, Copy, Debug, PartialEq, Eq)]
pub struct Break {
    /// Where it is, from 0 up to, not including, 1.
    pub x: Frac,
    /// The limit from the left.
    pub left: Frac,
    /// The value.
    pub value: Frac,
    /// The limit from the right.
    pub right: Frac,
}

/// Why a breakpoint cannot follow others: the first test that fails, or want of memory.
#[derive(Debug, Drop, Error)]
pub enum BreakFault {
    /// The first is not at 0, or a further one is not behind the one before, or not below 1.
    #[error("the breakpoint is not in its place")]
    Break,
    /// The least common multiple of the denominators of f and of all breakpoints so far passes
    /// 1,000.
    #[error("the order passes 1000")]
    Pieces,
    /// A limit or the value is above 2^20 in absolute value.
    #[error("a value is above 2^20 in absolute value")]
    Large,
    /// The common denominator of the limits and values so far passes 2^31 - 1.
    #[error("the common denominator passes 2^31 - 1")]
    Fine,
    /// There was no memory.
    #[error("out of memory")]
    Memory(AllocError),
}

impl From<FractionFault> for BreakFault {
    ghost from_gives = { λ e f. f ≡ break_fault e };

    fn from(fault: FractionFault) -> BreakFault {
        match fault {
            FractionFault::Large => BreakFault::Large,
            FractionFault::Fine => BreakFault::Fine,
        }
    }
}

impl From<AllocError> for BreakFault {
    ghost from_gives = { λ e f. f ≡ Memory e };

    fn from(error: AllocError) -> BreakFault {
        BreakFault::Memory(error)
    }
}

/// Whether x is behind the other breakpoints or, if there are none, is `start`.
fn is_next(breaks: &[Break], x: Frac, start: Frac) -> bool
    ensures { IsTrue result ↔ IsBehindOthers breaks.now start x }
{
    match breaks.last() {
        None => x == start,
        Some(before) => is_behind(before.x, x),
    }
}

/// Whether x is greater than the place of the breakpoint before it.
fn is_behind(before: Frac, x: Frac) -> bool
    ensures { IsTrue result ↔ LessValue (fraction_of before) (fraction_of x) }
{
    before < x
}

/// The least common multiple of the order so far and the denominator of x, if it is at most 1,000.
fn order_with(order: u32, x: Frac) -> Option<u32>
    requires { 0 < order }
    ensures few { IfSome result (λ m. m ≤ greatest_order) }
    ensures least { IfSome result (λ m. IsLcm order (unsigned_abs (denominator x)) m) }
    ensures none { IfNone result ((m : ℕ) → m ≤ greatest_order →
        IsLcm order (unsigned_abs (denominator x)) m → ⊥) }
{
    let multiple = lcm(order, small_denominator(x)?);
    if multiple > u64::from(GREATEST_ORDER) {
        return None;
    }
    Some(multiple as u32)
}

/// f and breakpoints that pass all tests. Contracts see them as a `BreakList`: f, the breakpoints,
/// and the least common multiple of their denominators.
#[derive(Drop)]
pub struct Breaks {
    place: Frac,
    order: u32,
    breaks: Vec<Break>,
    /// The least common denominator of all limits and values.
    scale: u32,
}

impl Model for Breaks {
    ghost use Rattle.gj_shape.specs.Breaks.{BreakList};

    ghost Value = { BreakList };

    ghost use Rattle.gj_shape.specs.KeptBreaks.{breaks_of, AreKeptBreaks};

    ghost view = { breaks_of };

    ghost invariant = { AreKeptBreaks };
}

impl Breaks {
    /// No breakpoints, and f, which lies between 0 and 1, both excluded, and has a denominator of
    /// at most 1,000.
    pub fn new(alloc: Global, place: Frac) -> Breaks
        requires inside { IsInside place }
        requires few { unsigned_abs (denominator place) ≤ greatest_order }
        ensures { result ≡ no_breaks place }
    {
        Breaks {
            place,
            order: place.den() as u32,
            breaks: Vec::new(alloc),
            scale: 1,
        }
    }

    /// Adds a breakpoint behind the others.
    ///
    /// The tests come in this order, and the first that fails is the error: the first breakpoint is
    /// at 0, and each further one behind the one before and below 1 (`Break`); the least common
    /// multiple of the denominators of f and of all breakpoints is at most 1,000 (`Pieces`); the
    /// limit from the left, the value and the limit from the right are each at most 2^20 in
    /// absolute value (`Large`), and then have a common denominator of at most 2^31 - 1 with all
    /// before (`Fine`). After an error the breakpoints are as they were.
    pub fn push(&mut self, point: Break) -> Result<(), BreakFault>
        ensures ok { OnOk result (Follows self.old point self.new) }
        ensures err { OnErr result (self.new ≡ self.old) }
        ensures fault { IfErr result (IsBreakFault self.old point) }
    {
        if !is_next(self.breaks.as_slice(), point.x, Frac::ratio(0, 1)) {
            return Err(BreakFault::Break);
        }
        if point.x.num() >= point.x.den() {
            return Err(BreakFault::Break);
        }
        let Some(order) = order_with(self.order, point.x) else {
            return Err(BreakFault::Pieces);
        };
        let limits = Point {
            left: point.left,
            value: point.value,
            right: point.right,
        };
        let scale = with_point(self.scale, limits)?;
        self.breaks.reserve(1)?;
        self.breaks.push_reserved(point);
        self.order = order;
        self.scale = scale;
        Ok(())
    }

    /// Whether there is no breakpoint yet.
    pub fn is_empty(&self) -> bool
        ensures { IsTrue result ↔ (self.now.breaks ≡ []) }
    {
        self.breaks.is_empty()
    }

    /// The function that the breakpoints tell, of order the least common multiple of all
    /// denominators.
    ///
    /// The error is `TooFine` at the first multiple of 1/q, q the order, at which the limits and
    /// values there have no common denominator up to 2^31 - 1 with those before, or `Memory`.
    pub fn shape(&self, alloc: Global) -> Result<Shape, ShapeFault>
        requires some { self.now.breaks ≢ [] }
        ensures given { IfOk result (IsOfBreaks self.now) }
        ensures value { IfOk result (λ f. HasBreaks f self.now.breaks) }
        ensures fault { IfErr result (IsTooFineOf
            (AreListsOfBreaks self.now.order self.now.breaks)) }
    {
        let k = numerator_over(self.place, self.order) as u32;
        Shape::from_breaks(alloc, self.order, k, self.breaks.as_slice())
    }
}

impl Shape {
    /// The function of order `q` with f = `k/q` that has these breakpoints: affine between
    /// neighbouring ones, from the limit from the right of the one to the limit from the left of
    /// the next; behind the last one it goes to the limit from the left of the first, at 1.
    ///
    /// The first breakpoint is at 0; they ascend, lie below 1, and are multiples of 1/q. Their
    /// limits and values are at most 2^20 in absolute value, with a common denominator of at most
    /// 2^31 - 1.
    ///
    /// The error is `TooFine` as for [`Shape::new`] over the limits and values at all multiples of
    /// 1/q, or `Memory`.
    pub fn from_breaks(alloc: Global, q: u32, k: u32, points: &[Break]) -> Result<Shape, ShapeFault>
        requires order { IsOrder q }
        requires place { IsPlace q k }
        requires some { points.now ≢ [] }
        requires ascending { AreAscending points.now }
        requires on_grid { AreOnGrid q points.now }
        requires within { AreWithinBounds (all_fractions (points_at points.now)) }
        ensures given { IfOk result (IsGivenByBreaks q k points.now) }
        ensures value { IfOk result (λ f. HasBreaks f points.now) }
        ensures fault { IfErr result (IsTooFineOf (AreListsOfBreaks q points.now)) }
    {
        let first = points[0];
        let last = points.len() - 1;
        let mut grid = Vec::with_capacity(alloc, q as usize)?;
        for i in 0..last {
            let b = points[i];
            let next = points[i + 1];
            let steps = place_of(next.x, q) - place_of(b.x, q);
            grid.push(Point {
                left: b.left,
                value: b.value,
                right: b.right,
            })?;
            push_line(&mut grid, b.right, next.left, steps)?;
        }
        let end = points[last];
        let steps = q - place_of(end.x, q);
        grid.push(Point {
            left: end.left,
            value: end.value,
            right: end.right,
        })?;
        push_line(&mut grid, end.right, first.left, steps)?;
        with_points(alloc, q, k, grid.as_slice())
    }
}
