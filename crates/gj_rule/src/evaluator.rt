//! What evaluates a rule.
ghost use Rattle.gj_frac.specs.declared.Frac.{Frac};

use gj_frac::Frac;

/// What answers a fraction at a fraction. Each closure from fractions to fractions is one.
pub trait Evaluator: Drop {
    // It may be asked at the fraction.
    ghost can_answer: { Self → Frac → Type 0 };

    // At the first fraction it may answer the second.
    ghost answers: { Self → Frac → Frac → Type 0 };

    /// The answer at x.
    fn answer(&self, x: Frac) -> Frac
        requires { can_answer self.now x }
        ensures { answers self.now x result };
}

impl<F: Fn(Frac) -> Frac + Drop> Evaluator for F {
    ghost can_answer = { λ f x. F.pre f x };

    ghost answers = { λ f x y. F.post f x y };

    fn answer(&self, x: Frac) -> Frac {
        self(x)
    }
}
