//! The line of a point in the form in which it is printed, read in one pass.
ghost use Rattle.std.specs.Prelude.{◌≡◌, ◌++◌, codes, IfSome};
ghost use Rattle.gj_lex.specs.NumberText.{fraction_text};
ghost use Rattle.gj_function_lines.specs.FunctionLines.{point_line};
ghost use Rattle.gj_function_lines.specs.Reading.{point_of_printed};

use crate::print::has_no_jump;
use gj_forms::behind_text;
use gj_frac::Frac;
use gj_lex::{behind_byte, printed_fraction};
use gj_shape::Point;

/// A point whose printed line was read.
#[derive(Clone, Copy)]
pub(crate) enum PrintedPoint {
    /// One without a jump, which has this value.
    Value(Frac),
    /// One with a jump.
    Jump(Point),
}

/// The point with whose printed line the text begins, and what follows the line.
///
/// None if the text begins with no such line, or if a number in it has more than 18 digits.
pub(crate) fn printed_point(text: &[u8]) -> Option<(PrintedPoint, &[u8])>
    ensures { IfSome result (λ r. text.now ≡ point_line (point_of_printed r.0) ++ r.1.now) }
{
    let (first, rest) = printed_fraction::<false>(behind_text(text, b"point ")?)?;
    match behind_byte(rest, b'\n') {
        Some(rest) => Some((PrintedPoint::Value(first), rest)),
        None => printed_jump(first, rest),
    }
}

/// The point with this limit from the left whose value and limit from the right follow in the text,
/// if the three are not the same, and what follows its line.
fn printed_jump(left: Frac, text: &[u8]) -> Option<(PrintedPoint, &[u8])>
    ensures { IfSome result (λ r. codes "point " ++ (fraction_text left ++ text.now)
        ≡ point_line (point_of_printed r.0) ++ r.1.now) }
{
    let (value, rest) = printed_fraction::<false>(behind_byte(text, b' ')?)?;
    let (right, rest) = printed_fraction::<false>(behind_byte(rest, b' ')?)?;
    let rest = behind_byte(rest, b'\n')?;
    let point = Point { left, value, right };
    if has_no_jump(point) {
        return None;
    }
    Some((PrintedPoint::Jump(point), rest))
}
