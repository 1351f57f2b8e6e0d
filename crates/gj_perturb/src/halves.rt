//! The two functions that a perturbation gives.
ghost use Rattle.std.specs.Prelude.{ℕ, ℤ, pos, ◌≡◌, ◌+◌, ◌*◌, ◌+ℤ◌, ◌*ℤ◌, ◌<◌, ◌≤◌, ◌^◌, length};
ghost use Rattle.std.specs.Prelude.{map, get_or, All, IfOk, OnOk, IsErrOf, MatchOption};
ghost use Rattle.std.specs.Prelude.{unsigned_abs};
ghost use Rattle.std.specs.List.{range_with_len};
ghost use Rattle.gj_shape.specs.FunctionData.{IsWithinBounds, IsContinuous, at};
ghost use Rattle.gj_shape.specs.Limits.{greatest_halves_scale};
ghost use Rattle.gj_shape.specs.Perturbation.{IsGreatestSize, AreHalvesOf, AreHalvesInBounds};
ghost use Rattle.gj_shape.specs.Table.{table, IsMinimal};
ghost use Rattle.gj_theory.specs.Halves.{AreDifferentHalves};
ghost use Rattle.gj_perturb.specs.Moves.{moved_at, IsSmallMove};
ghost use Rattle.gj_perturb.specs.Split.{CanSplit, IsWide};

use crate::faults::SplitFault;
use crate::grid::table_on_grid;
use crate::slacks::least_slack;
use crate::tables::Perturbation;
use gj_shape::{GREATEST_HALVES_SCALE, Halves, List, Shape};
use std::alloc::{AllocError, Global};

/// The halves of a perturbation of a minimal continuous function: with the least positive slack u
/// of the function's table on the perturbation's grid and the greatest absolute value P of the
/// perturbation, the table plus and minus u/(3 P) times the perturbation. `Wide` exactly if the
/// scale 3 P D `times` passes 2^124, D being the common denominator of the function.
pub fn split(alloc: Global, shape: &Shape, p: &Perturbation) -> Result<Halves, SplitFault>
    requires minimal { IsMinimal shape.now }
    requires continuous { IsContinuous shape.now }
    requires perturbation { CanSplit shape.now p.now }

    ensures halves { IfOk result (AreHalvesOf shape.now p.now.times (at p.now.values)) }
    ensures different { IfOk result (λ h. (size : ℕ) → IsGreatestSize (at p.now.values) size →
        AreDifferentHalves (table shape.now p.now.times) (shape.now.order * p.now.times)
        (shape.now.place * p.now.times) (shape.now.scale * p.now.times) (3 * size) (at h.first)
        (at h.second)) }
    ensures limits { IfOk result AreHalvesInBounds }

    ensures narrow { OnOk result (¬ IsWide shape.now p.now) }
    ensures wide { IsErrOf result SplitFault.Wide → IsWide shape.now p.now }
{
    let order = shape.order() * p.times;
    let values = p.values.as_slice();
    let size = greatest_size(values);
    let Some(scale) = scale_of_halves(shape, p.times, size) else {
        return Err(SplitFault::Wide);
    };
    let least = least_slack(alloc, shape, p.times)?;
    let step = i128::from(least);
    let entries = table_on_grid(alloc, shape, p.times)?;
    let table = entries.as_slice();
    let factor = 3 * size as i128;
    let first = moved(alloc, table, factor, values, step)?;
    let second = moved(alloc, table, factor, values, -step)?;
    Ok(Halves {
        order,
        scale,
        first: List::of(first),
        second: List::of(second),
    })
}

/// The greatest absolute value of the entries.
#[inline]
pub fn greatest_size(values: &[i128]) -> u128
    requires { 0 < length values.now }
    ensures { IsGreatestSize (at values.now) result }
{
    let mut size = 0u128;
    for value in values {
        size = size.max(value.unsigned_abs());
    }
    size
}

/// The scale 3 P D `times` of halves, P being the greatest absolute value of a perturbation and D
/// the common denominator of the function; `None` exactly if it passes 2^124.
#[inline]
pub fn scale_of_halves(shape: &Shape, times: u32, size: u128) -> Option<i128>
    requires { times ≤ 4 }
    ensures { MatchOption result (greatest_halves_scale < 3 * size * (shape.now.scale * times))
        (λ s. (s ≡ pos (3 * size * (shape.now.scale * times))) ×
        (3 * size * (shape.now.scale * times) ≤ greatest_halves_scale)) }
{
    let unit = 3 * (shape.common_denominator() as u128 * u128::from(times));
    match size.checked_mul(unit) {
        Some(scale) if scale <= GREATEST_HALVES_SCALE as u128 => Some(scale as i128),
        _ => None,
    }
}

/// The entries of a table times a factor, each moved by so many times the entry of the
/// perturbation.
fn moved(
    alloc: Global,
    table: &[i64],
    factor: i128,
    values: &[i128],
    step: i128,
) -> Result<Vec<i128>, AllocError>
    requires length { length values.now ≤ length table.now }
    requires small { (i : ℕ) → i < length values.now →
        IsSmallMove table.now factor values.now step i }
    ensures { IfOk result (λ v. v.items ≡
        map (moved_at table.now factor values.now step) (range_with_len 0 (length values.now))) }
{
    let mut items = Vec::with_capacity(alloc, values.len())?;
    for i in 0..values.len() {
        items.push(moved_entry(i128::from(table[i]), factor, values[i], step))?;
    }
    Ok(items)
}

/// An entry times the factor, moved by so many times the entry of the perturbation.
#[inline]
pub fn moved_entry(entry: i128, factor: i128, value: i128, step: i128) -> i128
    requires entry { unsigned_abs (factor *ℤ entry) < 2 ^ 126 }
    requires moves { unsigned_abs (step *ℤ value) < 2 ^ 126 }
    ensures { result ≡ factor *ℤ entry +ℤ step *ℤ value }
{
    let scaled = factor * entry;
    let offset = step * value;
    scaled + offset
}
