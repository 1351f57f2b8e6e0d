//! The place of a function.
ghost use Rattle.std.specs.Prelude.{◌≡◌, ◌<◌, ◌^◌, ℕ, pos, Some, IfSome, IfNone, IsTrue, ◌↔◌};
ghost use Rattle.gj_frac.specs.Fraction.{IsRatio};
ghost use Rattle.gj_shape.specs.Given.{IsOrder, IsPlace};
ghost use Rattle.gj_function_lines.specs.PlaceFraction.{IsPlaceFraction};

use gj_frac::Frac;

/// The number k from 1 to the order less 1 for which the fraction is k/order, if there is one.
pub fn place_of(fraction: Frac, order: u32) -> Option<u32>
    requires { IsOrder order }
    ensures found { IfSome result (λ k. IsPlace order k × IsRatio fraction (pos k) (pos order)) }
    ensures none { IfNone result (IsPlaceFraction order fraction → ⊥) }
{
    let numerator = count_of(fraction.num())?;
    let denominator = count_of(fraction.den())?;
    if order % denominator != 0 {
        return None;
    }
    let place = numerator.checked_mul(order / denominator)?;
    if !is_place(place, order) {
        return None;
    }
    Some(place)
}

/// The whole number as a count, if it is one below 2^32.
fn count_of(n: i128) -> Option<u32>
    ensures found { IfSome result (λ k. n ≡ pos k) }
    ensures only { (k : ℕ) → k < 2 ^ 32 → n ≡ pos k → result ≡ Some k }
{
    u32::try_from(n).ok()
}

/// Whether the place is from 1 to the order less 1.
fn is_place(place: u32, order: u32) -> bool
    ensures { IsTrue result ↔ IsPlace order place }
{
    (1..order).contains(&place)
}
