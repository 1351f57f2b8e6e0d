//! Function texts by breakpoints, printed.
ghost use Rattle.std.specs.Prelude.{◌≡◌, ◌++◌, IfOk, OnOk, flat_map, map};
ghost use Rattle.gj_function_lines.specs.BreakLines.{break_line};
ghost use Rattle.gj_function_text.specs.FunctionText.{canonical_breaks_text, even_break};

use gj_frac::Frac;
use gj_function_lines::{push_break_line, push_fraction_line};
use gj_shape::Break;
use std::alloc::{AllocError, Global};

/// The canonical text of a continuous function by its breakpoints, with this f: a line `point X V`
/// for each pair of a place X and the value V there. It is that of [`write_breaks_with_limits`].
pub fn write_breaks(alloc: Global, f: Frac, points: &[(Frac, Frac)]) -> Result<Vec<u8>, AllocError>
    ensures { IfOk result (λ text. text.items ≡ canonical_breaks_text f
        (map even_break points.now)) }
{
    let mut breaks = Vec::with_capacity(alloc, points.len())?;
    for pair in points {
        let (x, value) = *pair;
        breaks.push(Break {
            x,
            left: value,
            value,
            right: value,
        })?;
    }
    write_breaks_with_limits(alloc, f, breaks.as_slice())
}

/// The canonical text of a function by its breakpoints, with this f: a line `point X V` for each
/// breakpoint, or `point X L V R` if the function jumps there.
///
/// It is read again as the function of the breakpoints if there is one: if f is between 0 and 1,
/// the first breakpoint is at 0, they ascend and lie below 1, the common denominator of f and of
/// all places is at most 1,000, and the limits and values are at most 2^20 in absolute value, with
/// a common denominator of at most 2^31 - 1 with those between the breakpoints
/// (`breaks_are_read_again`).
pub fn write_breaks_with_limits(
    alloc: Global,
    f: Frac,
    points: &[Break],
) -> Result<Vec<u8>, AllocError>
    ensures { IfOk result (λ text. text.items ≡ canonical_breaks_text f points.now) }
{
    let mut text = Vec::new(alloc);
    text.extend_from_slice(b"gj-function 2\n")?;
    push_fraction_line(alloc, &mut text, b"f ", f)?;
    push_break_lines(alloc, &mut text, points)?;
    text.extend_from_slice(b"end\n")?;
    Ok(text)
}

/// Appends the lines of breakpoints.
fn push_break_lines(alloc: Global, out: &mut Vec<u8>, points: &[Break]) -> Result<(), AllocError>
    ensures { OnOk result (out.new.items ≡ out.old.items ++ flat_map break_line points.now) }
{
    for point in points {
        push_break_line(alloc, out, *point)?;
    }
    Ok(())
}
