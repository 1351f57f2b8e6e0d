//! Counts packed into one number, by which the sums of counts are compared at once.
ghost use Rattle.std.specs.Prelude.{◌≡◌, ◌+◌, ◌*◌, ◌++◌, ◌<◌, ◌≤◌, ◌^◌, get_or, length, All, IfOk};
ghost use Rattle.gj_shape.specs.SlopeRows.{component_in};
ghost use Rattle.gj_system.specs.Codes.{codes_before, codes_twice, ArePackable};

use std::alloc::{AllocError, Global};

/// The bits of a digit.
const DIGIT_BITS: u32 = 16;

/// What a digit stays below.
const BASE: u64 = 1 << DIGIT_BITS;

/// The most digits of a code.
const MOST_COLUMNS: u32 = u64::BITS / DIGIT_BITS;

/// The greatest order of which three counts have a sum below the base.
const GREATEST_CODED_ORDER: usize = (BASE as usize - 1) / 3;

/// What a one in the digit is worth.
fn worth(digit: u32) -> u64
    requires { digit < 4 }
    ensures { result ≡ 2 ^ (16 * digit) }
{
    1 << (DIGIT_BITS * digit)
}

/// Pushes the code of the counts before each grid point below 1.
fn push_codes(codes: &mut Vec<u64>, component: &[u32], columns: u32) -> Result<(), AllocError>
    requires components { All (λ c. c < columns) component.now }
    requires packable { ArePackable columns (length component.now) }
    ensures { IfOk result (λ _. codes.new.items ≡ codes.old.items ++ codes_before
        (component_in component.now) columns (length component.now)) }
{
    let mut code = 0;
    for c in component {
        codes.push(code)?;
        code += worth(*c);
    }
    Ok(())
}

/// The codes of the counts before each grid point below 1, twice over, so that the code of a sum of
/// two points stands at the sum; none if there are too many columns, or if the order is too great.
pub(crate) fn codes_of(
    alloc: Global,
    component: &[u32],
    columns: u32,
) -> Result<Vec<u64>, AllocError>
    requires components { All (λ c. c < columns) component.now }
    ensures packable { IfOk result (λ codes. 0 < length codes.items →
        ArePackable columns (length component.now)) }
    ensures codes { IfOk result (λ codes. 0 < length codes.items →
        codes.items ≡ codes_twice (component_in component.now) columns (length component.now)) }
{
    if columns > MOST_COLUMNS || component.len() > GREATEST_CODED_ORDER {
        return Ok(Vec::new(alloc));
    }
    let mut codes = Vec::with_capacity(alloc, 2 * component.len())?;
    push_codes(&mut codes, component, columns)?;
    codes.extend_from_within(0..component.len())?;
    Ok(codes)
}

/// The sum of three codes.
pub(crate) fn sum_of_codes(codes: &[u64], i: usize, j: usize, k: usize) -> u64
    requires first { i < length codes.now }
    requires second { j < length codes.now }
    requires third { k < length codes.now }
    requires small { get_or codes.now i 0 + get_or codes.now j 0 + get_or codes.now k 0 < 2 ^ 64 }
    ensures { result ≡ get_or codes.now i 0 + get_or codes.now j 0 + get_or codes.now k 0 }
{
    codes[i] + codes[j] + codes[k]
}
