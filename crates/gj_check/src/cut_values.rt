//! The rules `fraction` and `value`: fractional parts, and the values of cuts.
ghost use Rattle.std.specs.Prelude.{ℤ, ◌≡◌, ◌-◌, ◌*◌, ◌+ℤ◌, ◌-ℤ◌, ◌*ℤ◌, ◌<◌, ◌^◌, ◌↔◌, pos, IsTrue};
ghost use Rattle.std.specs.Prelude.{unsigned_abs};
ghost use Rattle.gj_frac.specs.Floor.{IsFloor, HasFractionalPart};
ghost use Rattle.gj_frac.specs.Fraction.{IsRatio, numerator, denominator, IsWhole};
ghost use Rattle.gj_shape.specs.Limits.{IsRowNumber};
ghost use Rattle.gj_shape.specs.FirstViolation.{PassesAll};
ghost use Rattle.gj_shape.specs.Values.{IsValueAt};
ghost use Rattle.gj_proof.specs.ProofText.{IfFunction, subject_of_rule};
ghost use Rattle.gj_proof.specs.Rules.{IsGmicCoefficient, MeetsFraction, MeetsValue};
ghost use Rattle.gj_check.specs.CutRows.{GivesCut, GivesNoCut};
ghost use Rattle.gj_check_minimal.specs.Pieces.{HasNumbersBelow};

use crate::row_denominators::denominator_of;
use gj_check_minimal::Piece;
use gj_frac::Frac;
use gj_proof::{CutLine, CutRule, CutTerm, SkipReason};
use gj_shape::Shape;

/// Whether the right side of a row has the fractional part that its line asks for.
pub(crate) fn meets_fraction(rule: &CutRule, row: &CutLine) -> bool
    ensures { IsTrue result ↔ MeetsFraction rule.now row.now }
{
    match row {
        CutLine::Cut(_, right, _) => gives_cut(rule, *right),
        CutLine::Skip(_, right, SkipReason::Integral) => is_whole(*right),
        CutLine::Skip(_, right, SkipReason::Other) => gives_no_cut(rule, *right),
    }
}

/// Whether the rule gives a cut for a row with this right side.
fn gives_cut(rule: &CutRule, right: Frac) -> bool
    ensures { IsTrue result ↔ GivesCut rule.now right }
{
    match rule {
        CutRule::Gmic => !is_whole(right),
        CutRule::Table(shape) => has_place(shape, right),
    }
}

/// Whether the right side is not whole, and has another fractional part than the function's f.
fn gives_no_cut(rule: &CutRule, right: Frac) -> bool
    ensures { IsTrue result ↔ GivesNoCut rule.now right }
{
    match rule {
        CutRule::Gmic => false,
        CutRule::Table(shape) => !is_whole(right) && !has_place(shape, right),
    }
}

/// Whether the number is whole.
fn is_whole(x: Frac) -> bool
    ensures { IsTrue result ↔ IsWhole x }
{
    x.den() == 1
}

/// Whether the fractional part of the number is the function's f.
fn has_place(shape: &Shape, x: Frac) -> bool
    ensures { IsTrue result ↔ HasFractionalPart x (pos shape.now.place) (pos shape.now.order) }
{
    is_ratio(x.fract(), shape.place().into(), shape.order().into())
}

/// Whether the coefficient of the term is the value of the rule at its entry.
pub(crate) fn has_value(rule: &CutRule, right: Frac, term: &CutTerm) -> bool
    requires minimal { IfFunction (subject_of_rule rule.now) PassesAll }
    requires gives { GivesCut rule.now right }
    requires right { IsRowNumber right }
    requires entry { IsRowNumber term.now.entry }
    ensures { IsTrue result ↔ MeetsValue rule.now right term.now }
{
    match rule {
        CutRule::Gmic => is_gmic_coefficient(term.cut, right, term.entry),
        CutRule::Table(shape) => is_value_at(term.cut, shape, term.entry),
    }
}

/// Whether the number is the coefficient of the mixed-integer cut at the entry: with f the
/// fractional part of the right side and r that of the entry it is r/f if r is at most f, and else
/// (1 - r)/(1 - f).
fn is_gmic_coefficient(x: Frac, right: Frac, entry: Frac) -> bool
    requires gives { IsWhole right → ⊥ }
    requires right { IsRowNumber right }
    requires entry { IsRowNumber entry }
    ensures { IsTrue result ↔ IsGmicCoefficient right entry x }
{
    let right_den = denominator_of(right);
    let entry_den = denominator_of(entry);
    let place = part_of(right) * entry_den;
    let index = part_of(entry) * right_den;
    if index <= place {
        return is_ratio(x, index, place);
    }
    let period = right_den * entry_den;
    is_ratio(x, period - index, period - place)
}

/// Whether the number is the value of a minimal function at the entry.
fn is_value_at(x: Frac, shape: &Shape, entry: Frac) -> bool
    requires minimal { PassesAll shape.now }
    requires entry { IsRowNumber entry }
    ensures { IsTrue result ↔
        IsValueAt shape.now (numerator entry *ℤ pos shape.now.order)
        (unsigned_abs (denominator entry)) x }
{
    let steps = denominator_of(entry);
    let place = part_of(entry) * u64::from(shape.order());
    let piece = Piece::at(shape, (place / steps) as usize);
    let value = value_in(piece, place % steps, steps);
    is_ratio(x, value, shape.common_denominator() as u64 * steps)
}

/// The value behind so many of the equal steps through a piece, times the number of all steps.
fn value_in(piece: Piece, taken: u64, steps: u64) -> u64
    requires numbers { HasNumbersBelow (2 ^ 31) piece }
    requires within { taken < steps }
    requires few { steps < 2 ^ 31 }
    ensures at { taken ≡ 0 → pos result ≡ pos steps *ℤ piece.value }
    ensures between { 0 < taken →
        pos result ≡ pos (steps - taken) *ℤ piece.right +ℤ pos taken *ℤ piece.left }
{
    if taken == 0 {
        return steps * piece.value as u64;
    }
    (steps - taken) * piece.right as u64 + taken * piece.left as u64
}

/// The numerator of the fractional part of a number, over the number's denominator.
fn part_of(x: Frac) -> u64
    requires { IsRowNumber x }
    ensures value { (w : ℤ) → IsFloor x w → pos result ≡ numerator x -ℤ w *ℤ denominator x }
    ensures below { result < unsigned_abs (denominator x) }
    ensures high { result < 2 ^ 31 }
{
    (x.num() as i64).rem_euclid(x.den() as i64) as u64
}

/// Whether the number is n/d.
fn is_ratio(x: Frac, n: u64, d: u64) -> bool
    requires { 0 < d }
    ensures { IsTrue result ↔ IsRatio x (pos n) (pos d) }
{
    // In lowest terms no part is greater.
    if x.num() < 0 || x.num() > i128::from(n) || x.den() > i128::from(d) {
        return false;
    }
    product(x.num() as u64, d) == product(n, x.den() as u64)
}

/// The product of two numbers.
fn product(n: u64, m: u64) -> u128
    ensures { result ≡ n * m }
{
    u128::from(n) * u128::from(m)
}
