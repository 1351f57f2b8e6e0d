//! Coordinates with a common denominator of at most 2^62.
ghost use Rattle.std.specs.Prelude.{◌≡◌, ◌<◌, ◌↔◌, [], ◌∷◌, IsTrue, unsigned_abs};
ghost use Rattle.gj_frac.specs.Fraction.{denominator};
ghost use Rattle.gj_proof.specs.Rules.{IsCoordinate, HasFineDenominator};
ghost use Rattle.gj_check.specs.Coordinates.{AreCoordinates, HasFineMultiple};

use gj_frac::{Frac, gcd};

/// The greatest common denominator that the points of a violation may have.
const FINEST: u128 = 1 << 62;

/// Whether the fraction is a coordinate of a point with a denominator of at most 2^62.
pub(crate) fn is_coordinate(x: Frac) -> bool
    ensures { IsTrue result ↔ AreCoordinates (x ∷ []) }
{
    is_within_period(x) && has_fine_multiple(positive_denominator(x), 1)
}

/// Whether the fractions are coordinates of points with a common denominator of at most 2^62.
pub(crate) fn are_coordinates(x: Frac, y: Frac) -> bool
    ensures { IsTrue result ↔ AreCoordinates (x ∷ y ∷ []) }
{
    is_within_period(x)
        && is_within_period(y)
        && has_fine_multiple(positive_denominator(x), positive_denominator(y))
}

/// Whether the fraction is at least 0 and below 1.
fn is_within_period(x: Frac) -> bool
    ensures { IsTrue result ↔ IsCoordinate x }
{
    0 <= x.num() && x.num() < x.den()
}

/// The denominator of a fraction, which is above 0.
fn positive_denominator(x: Frac) -> u128
    ensures value { result ≡ unsigned_abs (denominator x) }
    ensures some { 0 < result }
{
    x.den().unsigned_abs()
}

/// Whether two numbers have a common multiple from 1 to 2^62.
fn has_fine_multiple(a: u128, b: u128) -> bool
    requires first { 0 < a }
    requires second { 0 < b }
    ensures { IsTrue result ↔ HasFineMultiple a b }
{
    match (a / gcd(a, b)).checked_mul(b) {
        Some(multiple) => multiple <= FINEST,
        None => false,
    }
}
