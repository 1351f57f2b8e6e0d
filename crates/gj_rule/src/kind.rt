//! The kinds of rules.
ghost use Rattle.std.specs.Prelude.{◌↔◌, IsTrue};

use gj_frac::Frac;
use gj_shape::{GREATEST_DENOMINATOR, Shape};

/// What a rule evaluates.
#[derive(Drop)]
pub enum RuleKind {
    /// The mixed-integer cut of Gomory for this f, between 0 and 1.
    Gmic(Frac),
    /// A function.
    Table(Shape),
}

impl RuleKind {
    ghost use Rattle.gj_rule.specs.Kind.{IsKind};

    /// Whether a rule may have this kind: the f of a mixed-integer cut is between 0 and 1, both
    /// excluded, and has a denominator of at most 2^31 - 1.
    pub fn is_valid(&self) -> bool
        ensures { IsTrue result ↔ IsKind self.now }
    {
        match self {
            RuleKind::Gmic(f) => {
                0 < f.num() && f.num() < f.den() && f.den() <= i128::from(GREATEST_DENOMINATOR)
            }
            RuleKind::Table(_) => true,
        }
    }
}
