//! Lists that are made of the entries of another.
ghost use Rattle.std.specs.Prelude.{pos, ◌<◌, ◌*◌, ◌^◌, IfOk, length, int_div};
ghost use Rattle.gj_shape.specs.Entries.{HasEntries};
ghost use Rattle.gj_shape.specs.FunctionData.{at};
ghost use Rattle.gj_transform.specs.GreatestDivisor.{IsGreatestDivisor};

use gj_frac::gcd;
use std::alloc::{AllocError, Global};

/// The entries at 0, `factor`, 2 `factor`, .., each index modulo the length: `count` of them.
pub(crate) fn entries_at_multiples(
    alloc: Global,
    entries: &[i64],
    count: u32,
    factor: u32,
) -> Result<Vec<i64>, AllocError>
    requires some { 0 < length entries.now }
    requires few { count * factor < 2 ^ 32 }
    ensures { IfOk result (λ v. HasEntries (λ i. at entries.now (i * factor)) count v.items) }
{
    let mut items = Vec::with_capacity(alloc, count as usize)?;
    for i in 0..count {
        items.push(entries[(i * factor) as usize % entries.len()])?;
    }
    Ok(items)
}

/// The greatest common divisor of a number and all entries.
pub(crate) fn greatest_divisor(number: u32, entries: &[i64]) -> u32
    requires { 0 < number }
    ensures divisor { IsGreatestDivisor number entries.now result }
    ensures some { 0 < result }
{
    let mut divisor = number;
    for n in entries {
        divisor = gcd(u128::from(divisor), u128::from(n.unsigned_abs())) as u32;
    }
    divisor
}

/// The entries divided by a number, each rounded towards 0.
pub(crate) fn quotients(
    alloc: Global,
    entries: &[i64],
    divisor: u32,
) -> Result<Vec<i64>, AllocError>
    requires { 0 < divisor }
    ensures { IfOk result (λ v. HasEntries (λ i. int_div (at entries.now i) (pos divisor))
        (length entries.now) v.items) }
{
    let mut items = Vec::with_capacity(alloc, entries.len())?;
    for n in entries {
        items.push(*n / i64::from(divisor))?;
    }
    Ok(items)
}
