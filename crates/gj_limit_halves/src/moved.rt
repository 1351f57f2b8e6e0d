//! A function moved along a perturbation, on the perturbation's grid.
ghost use Rattle.std.specs.Prelude.{ℕ, pos, ◌≡◌, ◌+◌, ◌*◌, ◌<◌, ◌≤◌, length};
ghost use Rattle.std.specs.Prelude.{map, All, IfOk};
ghost use Rattle.std.specs.List.{range_with_len};
ghost use Rattle.gj_shape.specs.Limits.{IsNumerator};
ghost use Rattle.gj_shape.specs.Refinement.{refined};
ghost use Rattle.gj_limit_halves.specs.Moves.{moved_at, AreSmallMoves, AreSmallSides, moved_by};

use gj_perturb::moved_entry;
use gj_shape::{List, Shape, SideNumbers};
use std::alloc::{AllocError, Global};

/// The limits and values of the function on the grid of order `times` q, each times the factor, and
/// moved by so many times the number of the perturbation.
pub(crate) fn moved_sides(
    alloc: Global,
    shape: &Shape,
    times: u32,
    factor: i128,
    step: i128,
    perturbation: &SideNumbers,
) -> Result<SideNumbers, AllocError>
    requires low { 1 ≤ times }
    requires high { times ≤ 4 }
    requires small { AreSmallSides shape.now times factor step perturbation.now }
    ensures { IfOk result (λ s. s ≡ moved_by shape.now times factor step perturbation.now) }
{
    let left = perturbation.left.as_slice();
    let value = perturbation.value.as_slice();
    let right = perturbation.right.as_slice();
    Ok(SideNumbers {
        left: moved(
            alloc,
            shape,
            shape.left_numerators(),
            times,
            factor,
            step,
            left,
        )?,
        value: moved(
            alloc,
            shape,
            shape.value_numerators(),
            times,
            factor,
            step,
            value,
        )?,
        right: moved(
            alloc,
            shape,
            shape.right_numerators(),
            times,
            factor,
            step,
            right,
        )?,
    })
}

/// The same of one list of limits or values.
fn moved(
    alloc: Global,
    shape: &Shape,
    entries: &[i64],
    times: u32,
    factor: i128,
    step: i128,
    numbers: &[i128],
) -> Result<List<i128>, AllocError>
    requires low { 1 ≤ times }
    requires high { times ≤ 4 }
    requires order { length entries.now ≡ shape.now.order }
    requires entries { All IsNumerator entries.now }
    requires small { AreSmallMoves shape.now entries.now times factor step numbers.now }
    ensures { IfOk result (λ l. l ≡
        map (moved_at shape.now entries.now times factor step numbers.now)
        (range_with_len 0 (shape.now.order * times))) }
{
    let count = shape.order() * times;
    let mut items = Vec::with_capacity(alloc, count as usize)?;
    for i in 0..count {
        let entry = refined_entry(shape, entries, times, i);
        items.push(moved_entry(i128::from(entry), factor, numbers[i as usize], step))?;
    }
    Ok(List::of(items))
}

/// What a list of limits or values is at an index of the grid, times the common denominator and
/// `times`.
fn refined_entry(shape: &Shape, entries: &[i64], times: u32, i: u32) -> i64
    requires low { 1 ≤ times }
    requires high { times ≤ 4 }
    requires order { length entries.now ≡ shape.now.order }
    requires entries { All IsNumerator entries.now }
    requires within { i < shape.now.order * times }
    ensures { result ≡ refined shape.now entries.now times i }
{
    let start = i / times;
    let rest = i % times;
    if rest == 0 {
        return i64::from(times) * entries[start as usize];
    }
    i64::from(times - rest) * shape.right_numerator(start)
        + i64::from(rest) * shape.left_numerator(start + 1)
}
