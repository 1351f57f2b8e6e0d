//! Coefficients moved by the bounds of their columns.
ghost use Rattle.std.specs.Prelude.{◌≡◌, ◌⊎◌, ◌↔◌, pos, ◌<ℤ◌, true, false, None, length};
ghost use Rattle.std.specs.Prelude.{IfOk, IsTrue, MatchOption, OnErr, OnOk};
ghost use Rattle.gj_fields.specs.Rational.{rational, ◌*ℚ◌, ◌≤ℚ◌};
ghost use Rattle.gj_frac.specs.Fraction.{IsWhole, numerator};
ghost use Rattle.gj_derivation.specs.Derivations.{IsWholeTerm, IsRoundedUp};
ghost use Rattle.gj_problem.specs.Moves.{HasLower, HasUpper, IsMovedBy};
ghost use Rattle.gj_derivation.specs.Checks.{IsUnmovable, IsMovedRight, line_of_sum, claimed_at};
ghost use Rattle.gj_derivation.specs.Checks.{IsWideTimesBound, IsWideShift, IsWideMoving};

use gj_frac::{Frac, Wide};
use gj_problem::{Column, Sum, lower_bound, rounded_down, upper_bound};
use std::cmp::Ordering;

/// The right side that a sum shows, or the first column that lacks the bound that it would need.
#[derive(Clone, Copy)]
pub(crate) enum Moved {
    /// The right side.
    Right(Frac),
    /// The column.
    Bound(u32),
}

/// The right side that the sum, times the factor, shows for the claimed coefficients.
///
/// A column that has neither costs a look at it.
pub(crate) fn moved_right(
    columns: &[Column],
    factor: Frac,
    sum: &Sum,
    claimed: &[Frac],
) -> Result<Moved, Wide>
    requires sum { length sum.now.coefficients.items ≡ length columns.now }
    requires claimed { length claimed.now ≡ length columns.now }
    ensures is { IfOk result (IsMovedRight columns.now factor (line_of_sum sum.now)
        (claimed_at claimed.now)) }
    ensures wide { OnErr result (IsWideMoving columns.now factor (line_of_sum sum.now)
        (claimed_at claimed.now)) }
    ensures narrow { OnOk result (¬ IsWideMoving columns.now factor (line_of_sum sum.now)
        (claimed_at claimed.now)) }
{
    let mut right = factor.checked_mul(sum.right)?;
    let mut is_whole = true;
    for (j, column) in columns.iter().enumerate() {
        let y = claimed[j];
        let coefficient = sum.coefficients[j];
        if is_zero(coefficient) && is_zero(y) {
            continue;
        }
        let x = factor.checked_mul(coefficient)?;
        let Some(shift) = shift(*column, x, y)? else {
            let Ok(index) = u32::try_from(j) else {
                return Err(Wide);
            };
            return Ok(Moved::Bound(index));
        };
        right = right.checked_add(shift)?;
        is_whole = stays_whole(is_whole, column.is_whole, y);
    }
    Ok(Moved::Right(rounded_if(is_whole, right)))
}

/// What the right side changes by if the coefficient x of a column becomes y; none if the column
/// lacks the bound for it.
fn shift(column: Column, x: Frac, y: Frac) -> Result<Option<Frac>, Wide>
    ensures is { IfOk result (λ made. MatchOption made
        (IsUnmovable column (rational x) (rational y))
        (λ s. IsMovedBy (HasLower column) (HasUpper column)
        (rational x) (rational y) (rational s))) }
    ensures wide { OnErr result (IsWideShift column x y) }
    ensures narrow { OnOk result (¬ IsWideShift column x y) }
{
    let change = y.checked_add(-x)?;
    if is_zero(change) {
        return Ok(Some(Frac::ratio(0, 1)));
    }
    if is_positive(change) {
        return times_lower(column, change);
    }
    times_upper(column, change)
}

/// The change times the lower bound of the column.
fn times_lower(column: Column, change: Frac) -> Result<Option<Frac>, Wide>
    ensures is { IfOk result (λ made. MatchOption made (column.lower ≡ None)
        (λ s. (b : Frac) × HasLower column b × (rational s ≡ rational change *ℚ rational b))) }
    ensures wide { OnErr result (IsWideTimesBound (HasLower column) change) }
    ensures narrow { OnOk result (¬ IsWideTimesBound (HasLower column) change) }
{
    let Some(lower) = column.lower else {
        return Ok(None);
    };
    let bound = lower_bound(column.is_whole, lower);
    let shift = change.checked_mul(bound)?;
    Ok(Some(shift))
}

/// The change times the upper bound of the column.
fn times_upper(column: Column, change: Frac) -> Result<Option<Frac>, Wide>
    ensures is { IfOk result (λ made. MatchOption made (column.upper ≡ None)
        (λ s. (b : Frac) × HasUpper column b × (rational s ≡ rational change *ℚ rational b))) }
    ensures wide { OnErr result (IsWideTimesBound (HasUpper column) change) }
    ensures narrow { OnOk result (¬ IsWideTimesBound (HasUpper column) change) }
{
    let Some(upper) = column.upper else {
        return Ok(None);
    };
    let bound = upper_bound(column.is_whole, upper);
    let shift = change.checked_mul(bound)?;
    Ok(Some(shift))
}

/// Whether all terms are whole, one more counted.
fn stays_whole(before: bool, is_whole: bool, y: Frac) -> bool
    ensures { IsTrue result ↔ (IsTrue before × IsWholeTerm is_whole (rational y)) }
{
    before && is_whole_term(is_whole, y)
}

/// Whether the coefficient is a whole number in a whole column, or 0 in a continuous one.
fn is_whole_term(is_whole: bool, y: Frac) -> bool
    ensures { IsTrue result ↔ IsWholeTerm is_whole (rational y) }
{
    if is_whole {
        is_whole_number(y)
    } else {
        is_zero(y)
    }
}

/// x, rounded up to a whole number if all terms are whole.
fn rounded_if(is_whole: bool, x: Frac) -> Frac
    ensures { (IsTrue is_whole × IsRoundedUp (rational x) (rational result)) ⊎
        ((is_whole ≡ false) × (rational result ≡ rational x)) }
{
    if !is_whole {
        return x;
    }
    let down = rounded_down(-x);
    -down
}

/// Whether x is 0.
pub(crate) fn is_zero(x: Frac) -> bool
    ensures { IsTrue result ↔ (numerator x ≡ pos 0) }
{
    x.num() == 0
}

/// Whether x is above 0.
fn is_positive(x: Frac) -> bool
    ensures { IsTrue result ↔ (pos 0 <ℤ numerator x) }
{
    x.num() > 0
}

/// Whether x is a whole number.
fn is_whole_number(x: Frac) -> bool
    ensures { IsTrue result ↔ IsWhole x }
{
    x.den() == 1
}

/// Whether x is at most y.
pub(crate) fn is_at_most(x: Frac, y: Frac) -> bool
    ensures { IsTrue result ↔ (rational x ≤ℚ rational y) }
{
    match x.cmp(&y) {
        Ordering::Less => true,
        Ordering::Equal => true,
        Ordering::Greater => false,
    }
}
