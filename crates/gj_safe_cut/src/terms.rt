//! Terms of a cut, added up in the columns of a problem.
ghost use Rattle.std.specs.Prelude.{◌≡◌, IfOk, OnErr, OnOk, Err, length, ◌++◌};
ghost use Rattle.gj_safe_cut.specs.SafeCuts.{IsCoefficient, HasNoCoefficient, IsCutOfPieces};
ghost use Rattle.gj_safe_cut.specs.SafeCuts.{IsWideCut};
ghost use Rattle.gj_safe_cut.specs.AddedTerms.{HasOneValue, AreAdded, AddsTerms};
ghost use Rattle.gj_safe_cut.specs.AddedTerms.{IsWideAdding, surplus_of_sum};

use crate::values::{Values, weight};
use gj_frac::{Frac, Wide};
use gj_mixed::SlopesAtZero;
use gj_problem::{Combination, Fault, Inequality, Piece, Row, Sum};
use std::alloc::Global;

/// The cut over the pieces of a row, by these values and slopes, in the columns of the problem.
pub(crate) fn turned_back<V: Values>(
    alloc: Global,
    columns: usize,
    row: &Row,
    values: &V,
    slopes: SlopesAtZero,
) -> Result<Inequality, Fault>
    ensures cut { IfOk result (IsCutOfPieces (V.has_value values.now) slopes.up slopes.down columns
        (row.now.slacks.items ++ row.now.bounds.items)) }
    ensures wide { result ≡ Err Fault.Wide →
        IsWideCut (V.has_value values.now) (V.is_out values.now) slopes.up slopes.down columns
        (row.now.slacks.items ++ row.now.bounds.items) }
    ensures narrow { OnOk result (HasOneValue (V.has_value values.now) →
        ¬ IsWideCut (V.has_value values.now) (V.is_out values.now) slopes.up slopes.down columns
        (row.now.slacks.items ++ row.now.bounds.items)) }
{
    match turned_over_one(alloc, columns, row, values, slopes) {
        Ok(cut) => Ok(cut),
        Err(Fault::Wide) => turned_one_by_one(alloc, columns, row, values, slopes),
        Err(Fault::Memory(error)) => Err(Fault::Memory(error)),
    }
}

/// The same over one denominator. Where it is `Wide`, it may still fit in lowest terms.
fn turned_over_one<V: Values>(
    alloc: Global,
    columns: usize,
    row: &Row,
    values: &V,
    slopes: SlopesAtZero,
) -> Result<Inequality, Fault>
    ensures cut { IfOk result (IsCutOfPieces (V.has_value values.now) slopes.up slopes.down columns
        (row.now.slacks.items ++ row.now.bounds.items)) }
    ensures narrow { OnOk result (HasOneValue (V.has_value values.now) →
        ¬ IsWideCut (V.has_value values.now) (V.is_out values.now) slopes.up slopes.down columns
        (row.now.slacks.items ++ row.now.bounds.items)) }
{
    let mut sum = Combination::of_none(alloc, columns, 1, &[slopes.up, slopes.down])?;
    add_over_one(&mut sum, row.slacks.as_slice(), values, slopes)?;
    add_over_one(&mut sum, row.bounds.as_slice(), values, slopes)?;
    let cut = sum.inequality(alloc)?;
    Ok(cut)
}

/// Adds the inequalities of the pieces, each times its coefficient, over one denominator.
fn add_over_one<V: Values>(
    sum: &mut Combination,
    pieces: &[Piece],
    values: &V,
    slopes: SlopesAtZero,
) -> Result<(), Wide>
    ensures { IfOk result (λ _. AddsTerms (V.has_value values.now) (V.is_out values.now)
        slopes.up slopes.down pieces.now sum.old sum.new) }
{
    for piece in pieces {
        let coefficient = coefficient_of(piece, values, slopes)?;
        let inequality = &piece.inequality;
        sum.add(coefficient, inequality.entries.as_slice(), inequality.right)?;
    }
    Ok(())
}

/// The same one by one, in lowest terms.
fn turned_one_by_one<V: Values>(
    alloc: Global,
    columns: usize,
    row: &Row,
    values: &V,
    slopes: SlopesAtZero,
) -> Result<Inequality, Fault>
    ensures cut { IfOk result (IsCutOfPieces (V.has_value values.now) slopes.up slopes.down columns
        (row.now.slacks.items ++ row.now.bounds.items)) }
    ensures wide { result ≡ Err Fault.Wide →
        IsWideCut (V.has_value values.now) (V.is_out values.now) slopes.up slopes.down columns
        (row.now.slacks.items ++ row.now.bounds.items) }
    ensures narrow { OnOk result (HasOneValue (V.has_value values.now) →
        ¬ IsWideCut (V.has_value values.now) (V.is_out values.now) slopes.up slopes.down columns
        (row.now.slacks.items ++ row.now.bounds.items)) }
{
    let mut sum = Sum::of_none(alloc, columns, Frac::ratio(1, 1))?;
    add_terms(&mut sum, row.slacks.as_slice(), values, slopes)?;
    add_terms(&mut sum, row.bounds.as_slice(), values, slopes)?;
    match sum.inequality(alloc)? {
        Some(cut) => Ok(cut),
        None => Err(Fault::Wide),
    }
}

/// Adds the inequalities of the pieces, each times its coefficient.
fn add_terms<V: Values>(
    sum: &mut Sum,
    pieces: &[Piece],
    values: &V,
    slopes: SlopesAtZero,
) -> Result<(), Wide>
    ensures count { IfOk result (λ _. length sum.new.coefficients.items
        ≡ length sum.old.coefficients.items) }
    ensures added { IfOk result (λ _. AreAdded (IsCoefficient
        (V.has_value values.now) slopes.up slopes.down) pieces.now
        (surplus_of_sum sum.old) (surplus_of_sum sum.new)) }
    ensures wide { OnErr result (IsWideAdding (V.has_value values.now) (V.is_out values.now)
        slopes.up slopes.down pieces.now
        (length sum.old.coefficients.items) (surplus_of_sum sum.old)) }
    ensures narrow { OnOk result (HasOneValue (V.has_value values.now) →
        ¬ IsWideAdding (V.has_value values.now) (V.is_out values.now) slopes.up slopes.down
        pieces.now (length sum.old.coefficients.items) (surplus_of_sum sum.old)) }
{
    for piece in pieces {
        let coefficient = coefficient_of(piece, values, slopes)?;
        let inequality = &piece.inequality;
        sum.add(coefficient, inequality.entries.as_slice(), inequality.right)?;
    }
    Ok(())
}

/// The coefficient of a piece.
fn coefficient_of<V: Values>(piece: &Piece, values: &V, slopes: SlopesAtZero) -> Result<Frac, Wide>
    ensures coefficient { IfOk result
        (IsCoefficient (V.has_value values.now) slopes.up slopes.down piece.now) }
    ensures wide { OnErr result
        (HasNoCoefficient (V.is_out values.now) slopes.up slopes.down piece.now) }
    ensures narrow { OnOk result
        (¬ HasNoCoefficient (V.is_out values.now) slopes.up slopes.down piece.now) }
{
    if piece.is_whole {
        values.value(piece.entry)
    } else {
        weight(slopes, piece.entry)
    }
}
