//! The cut of a row with continuous columns by a rule and slopes.
ghost use Rattle.std.specs.Prelude.{◌≡◌, ◌<◌, IfOk, All, length, true, false};
ghost use Rattle.std.specs.List.{AllZip};
ghost use Rattle.gj_row.specs.TableauLimits.{AreWithinLimits, numbers_of};
ghost use Rattle.gj_rule.specs.Kind.{IsKind, IsKindWithinBounds, IsMinimalKind};
ghost use Rattle.gj_rule.specs.declared.kind.RuleKind.TheVariants.{Gmic};
ghost use Rattle.gj_shape.specs.Limits.{IsRowNumber};
ghost use Rattle.gj_rule.specs.Kept.{Evaluates};
ghost use Rattle.gj_cut.specs.RowCuts.{IsRightSide, IsTermOf};
ghost use Rattle.gj_cut.specs.declared.right_sides.RightSide.TheVariants.{AtPlace};
ghost use Rattle.gj_mixed.specs.MixedCuts.{IsWeightTermOf, IsMixedCutOf, IsGmicMixedCutOf};
ghost use Rattle.gj_mixed.specs.MixedCuts.{MixedHoldsFor};
ghost use Rattle.gj_mixed.specs.MixedCuts.{whole_entries, continuous_entries};
ghost use Rattle.gj_mixed.specs.Slopes.{AreGmicSlopes, AreSlopesOfKind, IsSlope, Weighs};

use crate::cut::MixedCut;
use crate::slopes::SlopesAtZero;
use crate::weights::Slopes;
use gj_cut::{RightSide, Term, gmic_place, right_side, term};
use gj_frac::Frac;
use gj_row::{Entry, Row};
use gj_rule::{Evaluator, Rule, RuleKind, gmic_value};
use gj_shape::List;
use std::alloc::{AllocError, Global};

/// The cut of the row by the rule and the slopes: for each entry the column, the entry, and the
/// rule's value at it or, in a continuous column, its weight by the slopes.
///
/// It is `Integral` exactly if the right side is whole, and `OtherFraction` exactly if it is not
/// and its fractional part is not the rule's f. The right side and the entries are at most 2^31 in
/// absolute value and have a common denominator of at most 2^31 - 1; `continuous` says of each
/// column whether it is continuous. The slopes are those of the rule at 0, and a function is
/// continuous. The only error is want of memory.
pub fn cut_mixed<E: Evaluator, G: Evaluator>(
    alloc: Global,
    rule: &Rule<E>,
    slopes: &Slopes<G>,
    row: &Row,
    continuous: &[bool],
) -> Result<MixedCut, AllocError>
    requires limits { AreWithinLimits (numbers_of row.now) }
    requires columns { All (λ entry. entry.column < length continuous.now) row.now.entries }
    requires slopes { AreSlopesOfKind rule.now.kind slopes.now.up slopes.now.down }
    ensures cut { IfOk result
        (IsMixedCutOf E.answers G.answers rule.now slopes.now continuous.now row.now) }
    ensures holds { IfOk result (λ cut. IsMinimalKind rule.now.kind → MixedHoldsFor row.now cut) }
{
    match right_side(rule, row.rhs) {
        RightSide::Whole => Ok(MixedCut::Integral),
        RightSide::AtPlace => cut_at_place(alloc, rule, slopes, row, continuous),
        RightSide::OtherFraction => Ok(MixedCut::OtherFraction),
    }
}

/// The mixed-integer cut of the row, for f the fractional part of its right side.
///
/// It is `Integral` exactly if the right side is whole, and never `OtherFraction`. The limits are
/// those of [`cut_mixed`], and the only error is want of memory.
pub fn gmic_cut_mixed(alloc: Global, row: &Row, continuous: &[bool]) -> Result<MixedCut, AllocError>
    requires limits { AreWithinLimits (numbers_of row.now) }
    requires columns { All (λ entry. entry.column < length continuous.now) row.now.entries }
    ensures cut { IfOk result (IsGmicMixedCutOf continuous.now row.now) }
    ensures holds { IfOk result (MixedHoldsFor row.now) }
{
    let Some(f) = gmic_place(row) else {
        return Ok(MixedCut::Integral);
    };
    let at_zero = SlopesAtZero::of_gmic(f);
    gmic_cut_by(
        alloc,
        f,
        |x| gmic_value(f, x),
        at_zero,
        |c| at_zero.weight(c),
        row,
        continuous,
    )
}

/// The mixed-integer cut of a row whose right side has the fractional part f, by this evaluator,
/// and by these slopes with this one.
fn gmic_cut_by<E: Evaluator, G: Evaluator>(
    alloc: Global,
    f: Frac,
    eval: E,
    at_zero: SlopesAtZero,
    weigh: G,
    row: &Row,
    continuous: &[bool],
) -> Result<MixedCut, AllocError>
    requires kind { IsKind (Gmic f) }
    requires evaluates { Evaluates E.can_answer E.answers (Gmic f) eval }
    requires up { IsSlope at_zero.up }
    requires down { IsSlope at_zero.down }
    requires weighs { Weighs G.can_answer G.answers at_zero.up at_zero.down weigh }
    requires slopes { AreGmicSlopes f at_zero.up at_zero.down }
    requires side { IsRightSide (Gmic f) row.now.rhs AtPlace }
    requires limits { AreWithinLimits (numbers_of row.now) }
    requires columns { All (λ entry. entry.column < length continuous.now) row.now.entries }
    ensures cut { IfOk result (IsGmicMixedCutOf continuous.now row.now) }
    ensures holds { IfOk result (MixedHoldsFor row.now) }
{
    let rule = Rule::new(RuleKind::Gmic(f), eval);
    let slopes = Slopes::new(at_zero.up, at_zero.down, weigh);
    cut_at_place(alloc, &rule, &slopes, row, continuous)
}

/// The cut of a row whose right side has the rule's f for its fractional part.
fn cut_at_place<E: Evaluator, G: Evaluator>(
    alloc: Global,
    rule: &Rule<E>,
    slopes: &Slopes<G>,
    row: &Row,
    continuous: &[bool],
) -> Result<MixedCut, AllocError>
    requires bounds { IsKindWithinBounds rule.now.kind }
    requires side { IsRightSide rule.now.kind row.now.rhs AtPlace }
    requires limits { AreWithinLimits (numbers_of row.now) }
    requires columns { All (λ entry. entry.column < length continuous.now) row.now.entries }
    requires slopes { AreSlopesOfKind rule.now.kind slopes.now.up slopes.now.down }
    ensures cut { IfOk result
        (IsMixedCutOf E.answers G.answers rule.now slopes.now continuous.now row.now) }
    ensures holds { IfOk result (λ cut. IsMinimalKind rule.now.kind → MixedHoldsFor row.now cut) }
{
    let Terms { terms, weights } = terms_of(
        alloc,
        rule,
        slopes,
        row.entries.as_slice(),
        continuous,
    )?;
    Ok(MixedCut::Cut(List::of(terms), List::of(weights)))
}

/// The terms of whole columns, and those of continuous ones.
struct Terms {
    terms: Vec<Term>,
    weights: Vec<Term>,
}

/// The terms of the entries, by whether their columns are continuous.
// Its loop needs all registers: it stays a function of its own.
#[inline(never)]
fn terms_of<E: Evaluator, G: Evaluator>(
    alloc: Global,
    rule: &Rule<E>,
    slopes: &Slopes<G>,
    entries: &[Entry],
    continuous: &[bool],
) -> Result<Terms, AllocError>
    requires range { All (λ entry. IsRowNumber entry.value) entries.now }
    requires columns { All (λ entry. entry.column < length continuous.now) entries.now }
    ensures terms { IfOk result (λ made. AllZip (IsTermOf E.answers rule.now)
        (whole_entries continuous.now entries.now) made.terms.items) }
    ensures weights { IfOk result (λ made.
        AllZip (IsWeightTermOf G.answers slopes.now)
        (continuous_entries continuous.now entries.now) made.weights.items) }
{
    let mut terms = Vec::with_capacity(alloc, entries.len())?;
    let mut weights = Vec::new(alloc);
    for entry in entries {
        let flag = continuous[entry.column as usize];
        let made = mixed_term(rule, slopes, *entry, flag);
        if flag {
            weights.push(made)?;
        } else {
            terms.push_reserved(made);
        }
    }
    Ok(Terms { terms, weights })
}

/// The term of an entry: by the rule or, in a continuous column, by the slopes, with the weight for
/// a coefficient.
///
/// The entry is at most 2^31 in absolute value and has a denominator of at most 2^31 - 1.
pub fn mixed_term<E: Evaluator, G: Evaluator>(
    rule: &Rule<E>,
    slopes: &Slopes<G>,
    entry: Entry,
    continuous: bool,
) -> Term
    requires { IsRowNumber entry.value }
    ensures whole { continuous ≡ false → IsTermOf E.answers rule.now entry result }
    ensures continuous { continuous ≡ true → IsWeightTermOf G.answers slopes.now entry result }
{
    if continuous {
        weight_term(slopes, entry)
    } else {
        term(rule, entry)
    }
}

/// The term of an entry in a continuous column: its coefficient is the weight.
fn weight_term<G: Evaluator>(slopes: &Slopes<G>, entry: Entry) -> Term
    requires { IsRowNumber entry.value }
    ensures { IsWeightTermOf G.answers slopes.now entry result }
{
    Term {
        column: entry.column,
        entry: entry.value,
        cut: slopes.weight(entry.value),
    }
}
