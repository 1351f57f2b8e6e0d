//! Continuous functions with two slopes.
ghost use Rattle.std.specs.Prelude.{◌≡◌, ◌≤◌, ◌*◌, ◌-ℤ◌, pos, IfOk, IfErr, OnOk, length};
ghost use Rattle.std.specs.Prelude.{unsigned_abs};
ghost use Rattle.gj_shape.specs.Limits.{greatest_order};
ghost use Rattle.gj_shape.specs.FunctionData.{IsWithinBounds};
ghost use Rattle.gj_family.specs.Families.{IsTwoSlope};
ghost use Rattle.gj_family.specs.Faults.{HasTwoSlopeFault, HasNoTwoSlopeFault};
ghost use Rattle.gj_shape.specs.Entries.{HasEntries};
ghost use Rattle.gj_family.specs.Signs.{rises, falls, sum_of_steps};

use crate::faults::FamilyFault;
use crate::numerators::shape_over;
use gj_shape::{GREATEST_ORDER, Shape};
use std::alloc::{AllocError, Global};

/// The continuous function that is 0 at 0, rises on the intervals whose sign is true and falls on
/// the others, each rise by the same and each fall by the same, with value 1 at f = k/q. Its order
/// q is the number of signs.
///
/// With r rises and t falls in all, and r' rises and t' falls among the first `k` intervals, each
/// rise is t/(r' t - t' r) and each fall is r/(r' t - t' r).
///
/// The error is that of the first test that fails: `TooManyPieces` if there are more than 1,000
/// signs, `BadSigns` if there are fewer than two, `BadF` if `k` is not from 1 to q - 1, and
/// `NoSlopes` if r = 0, t = 0 or r' t - t' r is not above 0.
pub fn two_slope(alloc: Global, k: u32, signs: &[bool]) -> Result<Shape, FamilyFault>
    ensures closed_form { IfOk result (IsTwoSlope k signs.now) }
    ensures within_bounds { IfOk result IsWithinBounds }
    ensures ok { OnOk result (HasNoTwoSlopeFault k signs.now) }
    ensures fault { IfErr result (HasTwoSlopeFault k signs.now) }
{
    if signs.len() > GREATEST_ORDER as usize {
        return Err(FamilyFault::TooManyPieces);
    }
    if signs.len() < 2 {
        return Err(FamilyFault::BadSigns);
    }
    if k == 0 || k as usize >= signs.len() {
        return Err(FamilyFault::BadF);
    }
    let up = count_falls(signs);
    let down = count_rises(signs);
    let height = last_sum(&signs[..k as usize], up, down);
    if up == 0 || down == 0 || height <= 0 {
        return Err(FamilyFault::NoSlopes);
    }
    let entries = sums_of_steps(alloc, signs, up, down)?;
    let values = entries.as_slice();
    Ok(shape_over(alloc, k, height as u32, values, values)?)
}

/// How many of the signs are rises.
fn count_rises(signs: &[bool]) -> u32
    requires { length signs.now ≤ greatest_order }
    ensures { result ≡ rises signs.now }
{
    signs.iter().filter(|sign| **sign).count() as u32
}

/// How many of the signs are falls.
fn count_falls(signs: &[bool]) -> u32
    requires { length signs.now ≤ greatest_order }
    ensures { result ≡ falls signs.now }
{
    signs.iter().filter(|sign| !**sign).count() as u32
}

/// The sum of all steps, if a rise goes up by `up` and a fall down by `down`.
fn last_sum(signs: &[bool], up: u32, down: u32) -> i64
    requires few { length signs.now ≤ greatest_order }
    requires up_small { up ≤ greatest_order }
    requires down_small { down ≤ greatest_order }
    ensures sum { result ≡ pos (rises signs.now * up) -ℤ pos (falls signs.now * down) }
    ensures small { unsigned_abs result ≤ 1000000 }
{
    i64::from(count_rises(signs) * up) - i64::from(count_falls(signs) * down)
}

/// The sums of the first 0, 1, .., q - 1 steps, if a rise goes up by `up`, a fall goes down by
/// `down`, and q is the number of signs.
fn sums_of_steps(alloc: Global, signs: &[bool], up: u32, down: u32) -> Result<Vec<i64>, AllocError>
    requires few { length signs.now ≤ greatest_order }
    requires up_small { up ≤ greatest_order }
    requires down_small { down ≤ greatest_order }
    ensures { IfOk result (λ v. HasEntries (sum_of_steps up down signs.now)
        (length signs.now) v.items) }
{
    let mut sums = Vec::with_capacity(alloc, signs.len())?;
    let mut sum = 0;
    for sign in signs {
        sums.push(sum)?;
        let step = if *sign {
            i64::from(up)
        } else {
            -i64::from(down)
        };
        sum += step;
    }
    Ok(sums)
}
