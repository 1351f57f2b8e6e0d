//! Slopes beside a closure that answers the weights by them.
ghost use Rattle.std.specs.Prelude.{◌≡◌};
ghost use Rattle.gj_shape.specs.Limits.{IsRowNumber};
ghost use Rattle.gj_mixed.specs.Slopes.{IsWeight, IsSlope, KeptSlopes, Weighs};

use gj_frac::Frac;
use gj_rule::Evaluator;
use std::marker::Model;

/// Two slopes, and an evaluator that answers the weight of a continuous column at each entry of the
/// range: of denominator at most 2^31 - 1 and at most 2^31 in absolute value.
///
/// The weight of c is `up` times c if c is at least 0, and `down` times -c if it is below. The
/// slopes are at least 0 with parts of at most 2^41.
///
/// # Example
///
/// ```
/// fn weight<G: Evaluator>(at_zero: SlopesAtZero, weigh: G, c: Frac) -> Frac {
///     Slopes::new(at_zero.up, at_zero.down, weigh).weight(c)
/// }
///
/// let at_zero = SlopesAtZero::of_gmic(Frac::new(2, 5).unwrap());
/// let c = Frac::new(-3, 2).unwrap();
/// assert_eq!(weight(at_zero, |c| at_zero.weight(c), c), Frac::new(5, 2).unwrap());
/// ```
#[derive(Drop)]
pub struct Slopes<G: Evaluator> {
    up: Frac,
    down: Frac,
    weigh: G,
}

impl<G: Evaluator> Model for Slopes<G> {
    ghost Value = { KeptSlopes G };

    ghost view = { λ s. record { up = s.up; down = s.down; weigh = s.weigh } };

    ghost invariant = { λ s. IsSlope s.up × IsSlope s.down ×
        Weighs G.can_answer G.answers s.up s.down s.weigh };
}

impl<G: Evaluator> Slopes<G> {
    /// These slopes with this evaluator.
    pub fn new(up: Frac, down: Frac, weigh: G) -> Slopes<G>
        requires up { IsSlope up }
        requires down { IsSlope down }
        requires weighs { Weighs G.can_answer G.answers up down weigh }
        ensures up { result.up ≡ up }
        ensures down { result.down ≡ down }
        ensures weigh { result.weigh ≡ weigh }
    {
        Slopes { up, down, weigh }
    }

    /// The slope for entries of at least 0.
    pub fn up(&self) -> Frac
        ensures value { result ≡ self.now.up }
        ensures limits { IsSlope self.now.up }
    {
        self.up
    }

    /// The slope for entries below 0.
    pub fn down(&self) -> Frac
        ensures value { result ≡ self.now.down }
        ensures limits { IsSlope self.now.down }
    {
        self.down
    }

    /// The weight of a continuous column with the entry c, as the evaluator answers it.
    pub fn weight(&self, c: Frac) -> Frac
        requires { IsRowNumber c }
        ensures value { IsWeight self.now.up self.now.down c result }
        ensures answered { G.answers self.now.weigh c result }
    {
        self.weigh.answer(c)
    }
}
