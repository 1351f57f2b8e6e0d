//! Perturbations as tables: the zigzag of a class of intervals, and the sums of slopes.
ghost use Rattle.std.specs.Prelude.{ℕ, ℤ, pos, ◌≡◌, ◌-ℤ◌, ◌+ℤ◌, ◌*◌, ◌<◌, ◌≤◌, ◌==◌, length, map};
ghost use Rattle.std.specs.Prelude.{All, Any, IfOk, IsErrOf, if◌then◌else◌};
ghost use Rattle.std.specs.List.{range_with_len, list_any};
ghost use Rattle.std.specs.Result.{OkIff};
ghost use Rattle.gj_frac.specs.Fraction.{Fits};
ghost use Rattle.gj_shape.specs.Additive.{IsTight};
ghost use Rattle.gj_shape.specs.FunctionData.{FunctionData, IsWithinBounds, IsContinuous, at};
ghost use Rattle.gj_shape.specs.Limits.{greatest_order};
ghost use Rattle.gj_shape.specs.Perturbation.{zigzag as zigzag_at};
ghost use Rattle.gj_shape.specs.Table.{table, IsMinimal};
ghost use Rattle.gj_theory.specs.Halves.{IsPerturbation};
ghost use Rattle.gj_theory.specs.Uncovered.{AreUncoveredClasses};
ghost use Rattle.gj_perturb.specs.SlopeSums.{slope_sum, IsWideSum};

use crate::faults::SplitFault;
use gj_shape::List;
use std::alloc::{AllocError, Global};

/// A table of whole numbers on a grid of order a multiple of a function's order q, over one period.
#[derive(Debug, Drop)]
pub struct Perturbation {
    /// The order of the grid is so many times q.
    pub times: u32,
    /// The entries at 0, 1/(q `times`), 2/(q `times`), ..
    pub values: List<i128>,
}

/// The zigzag of a class of intervals on the grid of order 4 `q`: 1 at the first quarter point of
/// each interval of the class, -1 at the third, and 0 elsewhere. It is 0 at the multiples of 1/`q`.
/// If no interval of the class is covered for a minimal continuous function of order `q`, and each
/// that is joined to one of them is in it, it is a perturbation of that function's table of order 4
/// `q`.
pub fn zigzag(alloc: Global, q: u32, class: &[u32]) -> Result<Perturbation, AllocError>
    requires low { 2 ≤ q }
    requires high { q ≤ greatest_order }
    requires within { All (λ a. a < q) class.now }
    ensures times { IfOk result (λ p. p.times ≡ 4) }
    ensures values { IfOk result (λ p. p.values ≡ map (zigzag_at q class.now)
        (range_with_len 0 (q * 4))) }

    ensures perturbation { (f : FunctionData) → f.order ≡ q → IsWithinBounds f →
        IsContinuous f → IsMinimal f →
        AreUncoveredClasses q (IsTight f) class.now →
        IfOk result (λ p. IsPerturbation (table f 4) (q * 4) (f.place * 4) (at p.values)) }
    ensures zero { IfOk result (λ p. (a : ℕ) → at p.values (a * 4) ≡ pos 0) }
{
    let chosen = chosen_intervals(alloc, q, class)?;
    let count = q as usize * 4;
    let mut values = Vec::with_capacity(alloc, count)?;
    for i in 0..count {
        values.push(zigzag_value(chosen[i / 4], i % 4))?;
    }
    Ok(Perturbation {
        times: 4,
        values: List::of(values),
    })
}

/// Whether each interval is in the class.
fn chosen_intervals(alloc: Global, q: u32, class: &[u32]) -> Result<Vec<bool>, AllocError>
    requires { All (λ a. a < q) class.now }
    ensures { IfOk result (λ v. v.items ≡ map (λ i. list_any (λ a. a == i) class.now)
        (range_with_len 0 q)) }
{
    let mut chosen = vec![in alloc; false; q as usize]?;
    for a in class {
        chosen[*a as usize] = true;
    }
    Ok(chosen)
}

/// The zigzag at the quarter point `r` of an interval.
fn zigzag_value(chosen: bool, r: usize) -> i128
    ensures { result ≡ (if chosen
        then (if r == 1 then pos 1 else if r == 3 then pos 0 -ℤ pos 1 else pos 0) else pos 0) }
{
    if chosen {
        if r == 1 {
            return 1;
        }
        if r == 3 {
            return -1;
        }
    }
    0
}

/// The perturbation at 0, 1/q, .., (q - 1)/q, with the slope of its component on each of the q
/// intervals: the sums of the slopes of the intervals before. No intervals give no values. `Wide`
/// exactly if one of these sums passes 2^127 - 1 in absolute value.
pub fn from_slopes(
    alloc: Global,
    component: &[u32],
    slopes: &[i128],
) -> Result<Perturbation, SplitFault>
    requires components { All (λ c. c < length slopes.now) component.now }

    ensures times { IfOk result (λ p. p.times ≡ 1) }
    ensures values { IfOk result (λ p.
        p.values ≡ map (slope_sum component.now slopes.now) (range_with_len 0
        (length component.now))) }

    ensures narrow { IfOk result (λ p. All Fits p.values) }
    ensures wide { IsErrOf result SplitFault.Wide → IsWideSum component.now slopes.now }
{
    let mut values = Vec::with_capacity(alloc, component.len())?;
    if let Some((_, before_last)) = component.split_last() {
        let mut value = 0;
        values.push(value)?;
        for c in before_last {
            value = sum(value, slopes[*c as usize])?;
            values.push(value)?;
        }
    }
    Ok(Perturbation {
        times: 1,
        values: List::of(values),
    })
}

/// The sum of two numbers; `Wide` exactly if it passes 2^127 - 1 in absolute value.
#[inline]
pub fn sum(n: i128, m: i128) -> Result<i128, SplitFault>
    ensures { OkIff result (Fits (n +ℤ m)) (n +ℤ m) }
{
    match n.checked_add(m) {
        Some(total) if total != i128::MIN => Ok(total),
        _ => Err(SplitFault::Wide),
    }
}
