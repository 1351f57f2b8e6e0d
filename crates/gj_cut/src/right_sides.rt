//! The right side of a row, as a rule finds it.
ghost use Rattle.std.specs.Prelude.{◌≡◌, IfNone, IfSome};
ghost use Rattle.gj_frac.specs.Fraction.{IsInside, IsWhole, HasDenominatorBelow};
ghost use Rattle.gj_row.specs.TableauLimits.{AreWithinLimits, numbers_of};
ghost use Rattle.gj_rule.specs.Kind.{IsKind, IsKindWithinBounds};
ghost use Rattle.gj_rule.specs.declared.kind.RuleKind.TheVariants.{Gmic};
ghost use Rattle.gj_shape.specs.Limits.{denominator_bound};
ghost use Rattle.gj_cut.specs.RowCuts.{IsRightSide};
ghost use Rattle.gj_cut.specs.declared.right_sides.RightSide.TheVariants.{AtPlace};

use gj_frac::Frac;
use gj_row::Row;
use gj_rule::{Evaluator, Rule};

/// What the right side of a row is to a rule.
#[derive(Clone, Copy, Debug, PartialEq, Eq)]
pub enum RightSide {
    /// It is whole.
    Whole,
    /// It is not whole, and its fractional part is the rule's f.
    AtPlace,
    /// It is not whole, and its fractional part is not the rule's f.
    OtherFraction,
}

/// The fractional part of a right side, of any size. It is None exactly if the right side is whole.
pub fn part_of(right: Frac) -> Option<Frac>
    ensures whole { IfNone result (IsWhole right) }
    ensures side { IfSome result (λ f. IsRightSide (Gmic f) right AtPlace) }
    ensures inside { IfSome result IsInside }
    ensures kind { HasDenominatorBelow denominator_bound right →
        IfSome result (λ f. IsKind (Gmic f)) }
{
    if right.den() == 1 {
        None
    } else {
        Some(right.fract())
    }
}

/// The f of the mixed-integer cut of a row. It is None exactly if the right side is whole.
pub fn gmic_place(row: &Row) -> Option<Frac>
    requires { AreWithinLimits (numbers_of row.now) }
    ensures whole { IfNone result (IsWhole row.now.rhs) }
    ensures side { IfSome result (λ f. IsRightSide (Gmic f) row.now.rhs AtPlace) }
    ensures kind { IfSome result (λ f. IsKind (Gmic f)) }
{
    part_of(row.rhs)
}

/// What the right side is to the rule.
pub fn right_side<E: Evaluator>(rule: &Rule<E>, right: Frac) -> RightSide
    ensures side { IsRightSide rule.now.kind right result }
    ensures bounds { result ≡ AtPlace → IsKindWithinBounds rule.now.kind }
{
    let Some(f) = part_of(right) else {
        return RightSide::Whole;
    };
    if f == rule.place() {
        RightSide::AtPlace
    } else {
        RightSide::OtherFraction
    }
}
