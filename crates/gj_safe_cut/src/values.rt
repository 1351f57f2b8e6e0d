//! Values of functions at fractions of any size, if they fit.
ghost use Rattle.std.specs.Prelude.{◌≡◌, ◌↔◌, ◌<ℤ◌, pos, IfOk, OnErr, OnOk, IsTrue};
ghost use Rattle.gj_frac.specs.declared.Frac.{Frac};
ghost use Rattle.gj_frac.specs.Fraction.{SameValue, LessValue, fraction_of, quotient_of, IsInside};
ghost use Rattle.gj_frac.specs.Fraction.{numerator};
ghost use Rattle.gj_theory.specs.Cuts.{IsGmicValue};
ghost use Rattle.gj_rule.specs.Kind.{IsKindValue};
ghost use Rattle.gj_rule.specs.declared.kind.RuleKind.TheVariants.{Table};
ghost use Rattle.gj_mixed.specs.Slopes.{IsWeight, AreGmicSlopes};
ghost use Rattle.gj_safe_cut.specs.SafeCuts.{HasNoValue, IsTooFine};

use gj_frac::{Frac, Wide};
use gj_mixed::SlopesAtZero;
use gj_problem::divided;
use gj_rule::{is_in_range, table_value};
use gj_shape::Shape;
use std::cmp::Ordering;

/// What has a value at each fraction, if it fits.
pub(crate) trait Values {
    // The second fraction is the value at the first.
    ghost has_value: { Self → Frac → Frac → Type 0 };
    // There is no value to be had.
    ghost is_out: { Self → Frac → Type 0 };

    /// The value at x.
    fn value(&self, x: Frac) -> Result<Frac, Wide>
        ensures value { IfOk result (has_value self.now x) }
        ensures wide { OnErr result (is_out self.now x) }
        ensures narrow { OnOk result (¬ is_out self.now x) };
}

/// The values of a function at fractions with denominators below 2^31: those at their fractional
/// parts.
impl Values for Shape {
    ghost has_value = { λ f. IsKindValue (Table f) };

    ghost is_out = { λ _. IsTooFine };

    fn value(&self, x: Frac) -> Result<Frac, Wide> {
        let rest = x.fract();
        if is_in_range(rest) {
            Ok(table_value(self, rest))
        } else {
            Err(Wide)
        }
    }
}

/// The f of a mixed-integer cut, between 0 and 1.
#[derive(Clone, Copy)]
pub(crate) struct Place {
    f: Frac,
    ghost inside: { IsInside f },
}

impl Values for Place {
    ghost has_value = { λ place. IsGmicValue place.f };

    ghost is_out = { λ place. HasNoValue (IsGmicValue place.f) };

    fn value(&self, x: Frac) -> Result<Frac, Wide> {
        let rest = x.fract();
        if is_below(self.f, rest) {
            divided(rest.complement(), self.f.complement())
        } else {
            divided(rest, self.f)
        }
    }
}

impl Place {
    /// That for this f.
    pub(crate) fn of(f: Frac) -> Place
        requires { IsInside f }
        ensures { result.f ≡ f }
    {
        Place { f }
    }

    /// The slopes of the mixed-integer cut at 0.
    pub(crate) fn slopes(&self) -> SlopesAtZero
        ensures { AreGmicSlopes self.now.f result.up result.down }
    {
        SlopesAtZero {
            up: inverse(self.f),
            down: inverse(self.f.complement()),
        }
    }
}

/// Whether x is less than y.
fn is_below(x: Frac, y: Frac) -> bool
    ensures { IsTrue result ↔ LessValue (fraction_of x) (fraction_of y) }
{
    match x.cmp(&y) {
        Ordering::Less => true,
        Ordering::Equal | Ordering::Greater => false,
    }
}

/// 1 divided by x, which is above 0.
fn inverse(x: Frac) -> Frac
    requires { pos 0 <ℤ numerator x }
    ensures { SameValue (fraction_of result) (quotient_of
        (record { top = pos 1; bottom = pos 1 }) (fraction_of x)) }
{
    let Some(y) = Frac::new(x.den(), x.num()) else {
        unreachable!();
    };
    y
}

/// The weight of a continuous column with the entry c.
pub(crate) fn weight(slopes: SlopesAtZero, c: Frac) -> Result<Frac, Wide>
    ensures weight { IfOk result (IsWeight slopes.up slopes.down c) }
    ensures wide { OnErr result (HasNoValue (IsWeight slopes.up slopes.down) c) }
{
    if c.num() < 0 {
        slopes.down.checked_mul(-c)
    } else {
        slopes.up.checked_mul(c)
    }
}
