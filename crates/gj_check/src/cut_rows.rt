//! The rules on the rows of a claim about cuts, in the order of its lines.
ghost use Rattle.std.specs.Prelude.{[], ◌∷◌, IfOk};
ghost use Rattle.gj_shape.specs.FirstViolation.{PassesAll};
ghost use Rattle.gj_proof.specs.ProofText.{IfFunction, subject_of_rule};
ghost use Rattle.gj_proof.specs.Rules.{IfCut, MeetsLimit};
ghost use Rattle.gj_check.specs.RowLimits.{IsRowDenominator};
ghost use Rattle.gj_check.specs.CutRows.{GivesCut, HaveDifferentNames, IsTermsOutcome, IsRowOutcome};

use crate::cut_values::{has_value, meets_fraction};
use crate::names::first_repeated;
use crate::row_denominators::extended;
use crate::rules::CheckRule;
use gj_frac::Frac;
use gj_lex::Name;
use gj_proof::{CutLine, CutRule, CutTerm, lines_with_terms};
use std::alloc::{AllocError, Global};

/// The first rule that fails in a row.
#[derive(Clone, Copy)]
pub(crate) struct RowFailure {
    /// How many lines below that of the row it fails.
    pub(crate) below: u64,
    pub(crate) rule: CheckRule,
}

/// The first rule that fails in a row, on its line or on those of its terms; none if all hold. The
/// names of `known`, the terms of another row, differ.
pub(crate) fn failure_in_row(
    alloc: Global,
    rule: &CutRule,
    known: &[CutTerm],
    row: &CutLine,
) -> Result<Option<RowFailure>, AllocError>
    requires minimal { IfFunction (subject_of_rule rule.now) PassesAll }
    requires known { HaveDifferentNames known.now }
    ensures { IfOk result (IsRowOutcome rule.now row.now) }
{
    if !meets_fraction(rule, row) {
        return Ok(Some(RowFailure {
            below: 0,
            rule: CheckRule::Fraction,
        }));
    }
    let CutLine::Cut(basic, right, terms) = row else {
        return Ok(None);
    };
    match extended(1, *right) {
        Some(common) => {
            failure_in_terms(alloc, rule, known, basic, *right, common, terms.as_slice())
        }
        None => Ok(Some(RowFailure {
            below: 0,
            rule: CheckRule::Limit,
        })),
    }
}

/// Terms whose names differ: those of the row if it has a cut, else those known before it.
pub(crate) fn known_behind<'a>(known: &'a [CutTerm], row: &'a CutLine) -> &'a [CutTerm]
    requires known { HaveDifferentNames known.now }
    requires row { IfCut row.now (λ basic right terms. HaveDifferentNames terms) }
    ensures { HaveDifferentNames result.now }
{
    match row {
        CutLine::Cut(_, _, terms) => terms.as_slice(),
        CutLine::Skip(_, _, _) => known,
    }
}

/// The first rule that fails on the lines of the terms of a row, if its right side meets its rules
/// and has the denominator `common`; none if all hold. The names of `known` differ.
fn failure_in_terms(
    alloc: Global,
    rule: &CutRule,
    known: &[CutTerm],
    basic: &Name,
    right: Frac,
    common: u64,
    terms: &[CutTerm],
) -> Result<Option<RowFailure>, AllocError>
    requires minimal { IfFunction (subject_of_rule rule.now) PassesAll }
    requires gives { GivesCut rule.now right }
    requires limit { MeetsLimit [] right }
    requires common { IsRowDenominator (right ∷ []) common }
    requires known { HaveDifferentNames known.now }
    ensures { IfOk result (IsTermsOutcome rule.now basic.now right terms.now) }
{
    let repeated = first_repeated(alloc, known, basic, terms)?;
    let mut denominator = common;
    for (index, term) in terms.iter().enumerate() {
        let below = lines_with_terms(&terms[..index]);
        let Some(multiple) = extended(denominator, term.entry) else {
            return Ok(Some(RowFailure {
                below,
                rule: CheckRule::Limit,
            }));
        };
        if index == repeated {
            return Ok(Some(RowFailure {
                below,
                rule: CheckRule::Name,
            }));
        }
        if !has_value(rule, right, term) {
            return Ok(Some(RowFailure {
                below,
                rule: CheckRule::Value,
            }));
        }
        denominator = multiple;
    }
    Ok(None)
}
