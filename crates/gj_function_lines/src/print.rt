//! The lines of a function, printed.
ghost use Rattle.std.specs.Prelude.{◌≡◌, ◌<◌, [], ◌∷◌, ◌++◌, ℕ, List, codes, flat_map, IsTrue};
ghost use Rattle.std.specs.Prelude.{OnOk};
ghost use Rattle.gj_lex.specs.NumberText.{fraction_text};
ghost use Rattle.gj_forms.specs.LineForms.{bytes_of};
ghost use Rattle.gj_shape.specs.FunctionData.{at};
ghost use Rattle.gj_shape.specs.Points.{ArePointsOf, IsPointAt};
ghost use Rattle.gj_shape.specs.Breaks.{point_at};
ghost use Rattle.gj_function_lines.specs.BreakLines.{break_line};
ghost use Rattle.gj_function_lines.specs.FunctionLines.{fraction_line, order_line, place_line};
ghost use Rattle.gj_function_lines.specs.FunctionLines.{number_fields, has_no_jump, numbers_of};
ghost use Rattle.gj_function_lines.specs.FunctionLines.{point_line, AreFunctionLines};
ghost use Rattle.gj_shape.specs.declared.points.Point.{Point};

use gj_forms::print_pair;
use gj_frac::Frac;
use gj_lex::{print_frac, push_count_line};
use gj_shape::{Break, Point, Shape};
use std::alloc::{AllocError, Global};

/// Appends the line of a word and a fraction. An error says that memory ran out; `out` may then
/// have a part of it.
pub fn push_fraction_line(
    alloc: Global,
    out: &mut Vec<u8>,
    word: &[u8],
    x: Frac,
) -> Result<(), AllocError>
    ensures { OnOk result (out.new.items ≡ out.old.items ++ fraction_line word.now x) }
{
    out.extend_from_slice(word)?;
    print_frac(alloc, out, x)?;
    out.push(b'\n')?;
    Ok(())
}

/// Appends the lines of a function: `order Q`, `f F`, and a line `point V` or `point L V R` for
/// each multiple of 1/q.
///
/// An error says that memory ran out; `out` may then have a part of the lines.
pub fn push_function_lines(
    alloc: Global,
    out: &mut Vec<u8>,
    shape: &Shape,
) -> Result<(), AllocError>
    ensures { OnOk result ((lines : List ℕ) × AreFunctionLines shape.now lines
        × (out.new.items ≡ out.old.items ++ lines)) }
{
    push_head(alloc, out, shape.order(), shape.f())?;
    push_point_lines(alloc, out, shape)
}

/// Appends the lines of an order and a place.
fn push_head(alloc: Global, out: &mut Vec<u8>, order: u32, place: Frac) -> Result<(), AllocError>
    ensures { OnOk result (out.new.items ≡ out.old.items ++
        (order_line order ++ place_line place)) }
{
    push_order_line(out, order)?;
    push_fraction_line(alloc, out, b"f ", place)
}

/// Appends the line `order Q` of an order. An error says that memory ran out; `out` may then have a
/// part of it.
pub fn push_order_line(out: &mut Vec<u8>, order: u32) -> Result<(), AllocError>
    ensures { OnOk result (out.new.items ≡ out.old.items ++ order_line order) }
{
    push_count_line(out, b"order ", order)
}

/// Appends a point line for each multiple of 1/q.
fn push_point_lines(alloc: Global, out: &mut Vec<u8>, shape: &Shape) -> Result<(), AllocError>
    ensures { OnOk result ((points : List Point) × ArePointsOf shape.now points
        × (out.new.items ≡ out.old.items ++ flat_map point_line points)) }
{
    for i in 0..shape.order() {
        push_line_at(alloc, out, shape, i)?;
    }
    Ok(())
}

/// Appends the line of the point at i/q.
fn push_line_at(alloc: Global, out: &mut Vec<u8>, shape: &Shape, i: u32) -> Result<(), AllocError>
    requires { i < shape.now.order }
    ensures { OnOk result ((p : Point) × IsPointAt shape.now i p
        × (out.new.items ≡ out.old.items ++ point_line p)) }
{
    out.extend_from_slice(b"point ")?;
    push_point_at(alloc, out, shape, i)?;
    out.push(b'\n')?;
    Ok(())
}

/// Appends the one fraction of the point at i/q, or the three if they are not equal: the rest of
/// its line but for the line feed. One fraction is made if the limits are the value.
fn push_point_at(alloc: Global, out: &mut Vec<u8>, shape: &Shape, i: u32) -> Result<(), AllocError>
    requires { i < shape.now.order }
    ensures { OnOk result ((p : Point) × IsPointAt shape.now i p
        × (out.new.items ++ 10 ∷ [] ≡ out.old.items ++ bytes_of (number_fields (numbers_of p)))) }
{
    if is_even_at(shape, i) {
        return print_frac(alloc, out, shape.value(i));
    }
    push_point(alloc, out, point_at(shape, i))
}

/// Whether the limits at i/q are the value.
fn is_even_at(shape: &Shape, i: u32) -> bool
    requires { i < shape.now.order }
    ensures { IsTrue result → (at shape.now.left i ≡ at shape.now.value i) ×
        (at shape.now.right i ≡ at shape.now.value i) }
{
    let value = shape.value_num(i);
    shape.left_num(i) == value && shape.right_num(i) == value
}

/// The limits and the value at i/q.
fn point_at(shape: &Shape, i: u32) -> Point
    requires { i < shape.now.order }
    ensures { IsPointAt shape.now i result }
{
    Point {
        left: shape.left(i),
        value: shape.value(i),
        right: shape.right(i),
    }
}

/// Appends the line of a breakpoint, `point X V`, or `point X L V R` if the limits are not the
/// value.
///
/// An error says that memory ran out; `out` may then have a part of it.
pub fn push_break_line(alloc: Global, out: &mut Vec<u8>, point: Break) -> Result<(), AllocError>
    ensures { OnOk result (out.new.items ≡ out.old.items ++ break_line point) }
{
    if has_no_jump(limits_of(point)) {
        out.extend_from_slice(b"point")?;
        return print_pair(out, point.x, point.value);
    }
    push_break_by_parts(alloc, out, point)
}

/// The same, whether the limits are the value or not.
fn push_break_by_parts(alloc: Global, out: &mut Vec<u8>, point: Break) -> Result<(), AllocError>
    ensures { OnOk result (out.new.items ≡ out.old.items ++ break_line point) }
{
    out.extend_from_slice(b"point ")?;
    print_frac(alloc, out, point.x)?;
    out.extend_from_slice(b" ")?;
    push_point(alloc, out, limits_of(point))?;
    out.push(b'\n')?;
    Ok(())
}

/// The limits and the value at a breakpoint.
fn limits_of(point: Break) -> Point
    ensures { result ≡ point_at point }
{
    Point {
        left: point.left,
        value: point.value,
        right: point.right,
    }
}

/// Appends the one fraction of a point, or the three if they are not equal: the rest of its line
/// but for the line feed.
fn push_point(alloc: Global, out: &mut Vec<u8>, point: Point) -> Result<(), AllocError>
    ensures { OnOk result (out.new.items ++ 10 ∷ [] ≡ out.old.items ++ bytes_of
        (number_fields (numbers_of point))) }
{
    if has_no_jump(point) {
        return print_frac(alloc, out, point.value);
    }
    push_three(alloc, out, point)
}

/// Appends the three fractions of a point, parted by blanks.
fn push_three(alloc: Global, out: &mut Vec<u8>, point: Point) -> Result<(), AllocError>
    ensures { OnOk result (out.new.items ≡ out.old.items ++ (fraction_text point.left ++ codes " "
        ++ fraction_text point.value ++ codes " " ++ fraction_text point.right)) }
{
    print_frac(alloc, out, point.left)?;
    out.extend_from_slice(b" ")?;
    print_frac(alloc, out, point.value)?;
    out.extend_from_slice(b" ")?;
    print_frac(alloc, out, point.right)
}

/// Whether the limits are the value.
pub(crate) fn has_no_jump(point: Point) -> bool
    ensures { result ≡ has_no_jump point }
{
    point.left == point.value && point.value == point.right
}
