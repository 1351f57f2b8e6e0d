//! A kind beside a closure that evaluates it.
ghost use Rattle.std.specs.Prelude.{◌≡◌};
ghost use Rattle.gj_rule.specs.Kind.{IsKind, IsKindWithinBounds, IsKindValue, HasPlace};
ghost use Rattle.gj_shape.specs.Limits.{IsRowNumber};
ghost use Rattle.gj_rule.specs.Kept.{KeptRule, Evaluates};

use crate::evaluator::Evaluator;
use crate::kind::RuleKind;
use gj_frac::Frac;
use std::marker::Model;

/// A kind, and an evaluator that answers the kind's value at each fraction of the range: of
/// denominator at most 2^31 - 1 and at most 2^31 in absolute value.
///
/// A rule is made in a function that is generic over its evaluator, and the closure is passed to
/// that function.
///
/// # Example
///
/// ```
/// fn value<E: Evaluator>(f: Frac, eval: E, x: Frac) -> Frac {
///     Rule::new(RuleKind::Gmic(f), eval).at(x)
/// }
///
/// let f = Frac::new(123457, 1000003).unwrap();
/// let x = Frac::new(1, 1000003).unwrap();
/// assert_eq!(value(f, |x| gmic_value(f, x), x), Frac::new(1, 123457).unwrap());
/// ```
#[derive(Drop)]
pub struct Rule<E: Evaluator> {
    kind: RuleKind,
    eval: E,
}

impl<E: Evaluator> Model for Rule<E> {
    ghost Value = { KeptRule E };

    ghost view = { λ r. record { kind = r.kind; eval = r.eval } };

    ghost invariant = { λ r. IsKind r.kind × Evaluates E.can_answer E.answers r.kind r.eval };
}

impl<E: Evaluator> Rule<E> {
    /// The rule of this kind with this evaluator.
    pub fn new(kind: RuleKind, eval: E) -> Rule<E>
        requires kind { IsKind kind }
        requires evaluates { Evaluates E.can_answer E.answers kind eval }
        ensures kind { result.kind ≡ kind }
        ensures eval { result.eval ≡ eval }
    {
        Rule { kind, eval }
    }

    /// What the rule evaluates.
    pub fn kind(&self) -> &RuleKind
        ensures value { result.now ≡ self.now.kind }
        ensures valid { IsKind self.now.kind }
    {
        &self.kind
    }

    /// The place f, where the values are 1: the f of the mixed-integer cut, or k/q of a function.
    pub fn place(&self) -> Frac
        ensures place { HasPlace self.now.kind result }
        ensures limits { IsKindWithinBounds self.now.kind }
    {
        match &self.kind {
            RuleKind::Gmic(f) => *f,
            RuleKind::Table(shape) => shape.f(),
        }
    }

    /// The kind's value at x, as the evaluator answers it.
    pub fn at(&self, x: Frac) -> Frac
        requires { IsRowNumber x }
        ensures value { IsKindValue self.now.kind x result }
        ensures answered { E.answers self.now.eval x result }
    {
        self.eval.answer(x)
    }
}
