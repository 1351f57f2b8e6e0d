//! The cut of a row by a rule.
ghost use Rattle.std.specs.Prelude.{IfOk, All};
ghost use Rattle.std.specs.List.{AllZip};
ghost use Rattle.gj_row.specs.TableauLimits.{AreWithinLimits, numbers_of};
ghost use Rattle.gj_rule.specs.Kind.{IsKind, IsKindWithinBounds, IsMinimalKind};
ghost use Rattle.gj_shape.specs.Limits.{IsRowNumber};
ghost use Rattle.gj_rule.specs.Kept.{Evaluates};
ghost use Rattle.gj_rule.specs.declared.kind.RuleKind.TheVariants.{Gmic};
ghost use Rattle.gj_cut.specs.RowCuts.{IsRightSide, IsTermOf, IsCutOf, IsGmicCutOf, HoldsFor};
ghost use Rattle.gj_cut.specs.declared.right_sides.RightSide.TheVariants.{AtPlace};

use crate::cut::{RowCut, Term};
use crate::right_sides::{RightSide, gmic_place, right_side};
use gj_frac::Frac;
use gj_row::{Entry, Row};
use gj_rule::{Evaluator, Rule, RuleKind, gmic_value};
use gj_shape::List;
use std::alloc::{AllocError, Global};

/// The cut of the row by the rule: for each entry the column, the entry and the rule's value at it.
///
/// It is `Integral` exactly if the right side is whole, and `OtherFraction` exactly if it is not
/// and its fractional part is not the rule's f. The right side and the entries are at most 2^31 in
/// absolute value and have a common denominator of at most 2^31 - 1. The only error is want of
/// memory.
///
/// ```text
/// let rule = Rule::new(RuleKind::Table(shape), |x| table_value(&function, x));
/// let cut = cut_row(alloc, &rule, &row)?; // RowCut::Cut(terms), Integral or OtherFraction
/// ```
pub fn cut_row<E: Evaluator>(alloc: Global, rule: &Rule<E>, row: &Row) -> Result<RowCut, AllocError>
    requires { AreWithinLimits (numbers_of row.now) }
    ensures cut { IfOk result (IsCutOf E.answers rule.now row.now) }
    ensures holds { IfOk result (λ cut. IsMinimalKind rule.now.kind → HoldsFor row.now cut) }
{
    match right_side(rule, row.rhs) {
        RightSide::Whole => Ok(RowCut::Integral),
        RightSide::AtPlace => cut_at_place(alloc, rule, row),
        RightSide::OtherFraction => Ok(RowCut::OtherFraction),
    }
}

/// The mixed-integer cut of the row, for f the fractional part of its right side.
///
/// It is `Integral` exactly if the right side is whole, and never `OtherFraction`. The limits are
/// those of [`cut_row`], and the only error is want of memory.
///
/// ```text
/// let tableau = Tableau::read(alloc, b"basic,rhs,x1,x2\nx0,8/5,7/5,-1/5\n")?;
/// let cut = gmic_cut_row(alloc, &tableau.rows.as_slice()[0])?;
/// // f is 3/5; the terms are those of the columns 0 and 1, with the coefficients 2/3 and 1/2:
/// // 2/3 x1 + 1/2 x2 >= 1
/// ```
pub fn gmic_cut_row(alloc: Global, row: &Row) -> Result<RowCut, AllocError>
    requires { AreWithinLimits (numbers_of row.now) }
    ensures cut { IfOk result (IsGmicCutOf row.now) }
    ensures holds { IfOk result (HoldsFor row.now) }
{
    let Some(f) = gmic_place(row) else {
        return Ok(RowCut::Integral);
    };
    gmic_cut_by(alloc, f, |x| gmic_value(f, x), row)
}

/// The mixed-integer cut of a row whose right side has the fractional part f, by this evaluator.
fn gmic_cut_by<E: Evaluator>(
    alloc: Global,
    f: Frac,
    eval: E,
    row: &Row,
) -> Result<RowCut, AllocError>
    requires kind { IsKind (Gmic f) }
    requires evaluates { Evaluates E.can_answer E.answers (Gmic f) eval }
    requires side { IsRightSide (Gmic f) row.now.rhs AtPlace }
    requires limits { AreWithinLimits (numbers_of row.now) }
    ensures cut { IfOk result (IsGmicCutOf row.now) }
    ensures holds { IfOk result (HoldsFor row.now) }
{
    let rule = Rule::new(RuleKind::Gmic(f), eval);
    cut_at_place(alloc, &rule, row)
}

/// The cut of a row whose right side has the rule's f for its fractional part.
fn cut_at_place<E: Evaluator>(
    alloc: Global,
    rule: &Rule<E>,
    row: &Row,
) -> Result<RowCut, AllocError>
    requires bounds { IsKindWithinBounds rule.now.kind }
    requires side { IsRightSide rule.now.kind row.now.rhs AtPlace }
    requires limits { AreWithinLimits (numbers_of row.now) }
    ensures cut { IfOk result (IsCutOf E.answers rule.now row.now) }
    ensures holds { IfOk result (λ cut. IsMinimalKind rule.now.kind → HoldsFor row.now cut) }
{
    let terms = terms(alloc, rule, row.entries.as_slice())?;
    Ok(RowCut::Cut(List::of(terms)))
}

/// The terms of the entries.
// Its loop needs all registers: it stays a function of its own.
#[inline(never)]
fn terms<E: Evaluator>(
    alloc: Global,
    rule: &Rule<E>,
    entries: &[Entry],
) -> Result<Vec<Term>, AllocError>
    requires { All (λ entry. IsRowNumber entry.value) entries.now }
    ensures { IfOk result (λ terms. AllZip (IsTermOf E.answers rule.now) entries.now terms.items) }
{
    let mut terms = Vec::with_capacity(alloc, entries.len())?;
    for entry in entries {
        terms.push_reserved(term(rule, *entry));
    }
    Ok(terms)
}

/// The term of an entry: its coefficient is the rule's value there.
// The loops over the entries of a row call it for each.
#[inline(always)]
pub fn term<E: Evaluator>(rule: &Rule<E>, entry: Entry) -> Term
    requires { IsRowNumber entry.value }
    ensures { IsTermOf E.answers rule.now entry result }
{
    Term {
        column: entry.column,
        entry: entry.value,
        cut: rule.at(entry.value),
    }
}
