//! JSON functions, printed.
ghost use Rattle.std.specs.Prelude.{◌≡◌, ◌<◌, ◌≤◌, List, false, codes, IfOk};
ghost use Rattle.gj_frac.specs.declared.Frac.{Frac};
ghost use Rattle.gj_lex.specs.NumberText.{fraction_text};
ghost use Rattle.gj_shape.specs.FunctionData.{IsWithinBounds};
ghost use Rattle.serde_json.specs.Data.{depth as nesting, unsigned, number, string, array, object};
ghost use Rattle.serde_json.specs.Data.{no_members, member};
ghost use Rattle.serde_json.specs.Read.{max_depth};
ghost use Rattle.serde_json.specs.View.{view};
ghost use Rattle.serde_json.specs.Written.{has_float};
ghost use Rattle.gj_json.specs.JsonFunction.{HasValue, IsJsonFunction};
ghost use Rattle.gj_json.specs.JsonText.{json_line, fraction_strings, AreRatios, IsJsonOf};
ghost use Rattle.gj_json.specs.JsonText.{IsJsonText};

use gj_frac::Frac;
use gj_lex::print_frac;
use gj_shape::Shape;
use serde_json::{Value, json};
use std::alloc::{AllocError, Global};

/// The function in JSON, with a line feed at the end: the keys `f`, `left`, `order`, `right` and
/// `value` in this order and no blanks, each fraction as a string in canonical form and the order
/// as a number.
///
/// ```text
/// {"f":"1/2","left":["0","1"],"order":2,"right":["0","1"],"value":["0","1"]}
/// ```
pub fn show_json(alloc: Global, shape: &Shape) -> Result<Vec<u8>, AllocError>
    ensures text { IfOk result (λ text. IsJsonText text.items shape.now) }
    // It is read as this function.
    ensures reads_back { IfOk result (λ text. IsJsonFunction text.items shape.now) }
{
    let value = function_value(alloc, shape)?;
    line_of(alloc, &value)
}

/// The value of the function.
fn function_value(alloc: Global, shape: &Shape) -> Result<Value, AllocError>
    ensures value { IfOk result (λ value. IsJsonOf shape.now (view value)) }
    ensures within { IsWithinBounds shape.now }
{
    let order = shape.order();
    let scale = shape.common_denominator() as u32;
    let place = fraction_value(alloc, shape.f())?;
    let left = fraction_values(alloc, shape.left_numerators(), scale)?;
    let value = fraction_values(alloc, shape.value_numerators(), scale)?;
    let right = fraction_values(alloc, shape.right_numerators(), scale)?;
    object_of(alloc, order, place, left, value, right)
}

/// The object of a function.
fn object_of(
    alloc: Global,
    order: u32,
    place: Value,
    left: Value,
    value: Value,
    right: Value,
) -> Result<Value, AllocError>
    ensures { IfOk result (λ v. view v ≡ object (member (codes "f") (view place)
        (member (codes "left") (view left)
        (member (codes "order") (number (unsigned order)) (member (codes "right") (view right)
        (member (codes "value") (view value) no_members)))))) }
{
    json!(in alloc; {"f": place, "left": left, "order": order, "right": right, "value": value})
}

/// The list of these whole numbers over the scale.
fn fraction_values(alloc: Global, numerators: &[i64], scale: u32) -> Result<Value, AllocError>
    requires { 0 < scale }
    ensures { IfOk result (λ v. (xs : List Frac) × AreRatios scale xs numerators.now
        × (view v ≡ array (fraction_strings xs))) }
{
    let mut values = Vec::new(alloc);
    for numerator in numerators {
        values.push(fraction_value(alloc, Frac::ratio(*numerator, scale))?)?;
    }
    Ok(Value::Array(values))
}

/// The fraction as a string in canonical form.
fn fraction_value(alloc: Global, x: Frac) -> Result<Value, AllocError>
    ensures { IfOk result (λ v. view v ≡ string (fraction_text x)) }
{
    let mut text = Vec::new(alloc);
    print_frac(alloc, &mut text, x)?;
    Ok(Value::String(String::from_utf8(text).unwrap()))
}

/// The value with no blanks, and a line feed.
pub(crate) fn line_of(alloc: Global, value: &Value) -> Result<Vec<u8>, AllocError>
    requires { has_float (view value.now) ≡ false }
    ensures text { IfOk result (λ text. text.items ≡ json_line (view value.now)) }
    ensures reads_back { IfOk result (λ text. nesting (view value.now) ≤ max_depth →
        HasValue text.items (view value.now)) }
{
    let mut text = value.to_vec(alloc)?;
    text.push(b'\n')?;
    Ok(text)
}
