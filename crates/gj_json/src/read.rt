//! JSON functions, read.
ghost use Rattle.std.specs.Prelude.{◌≡◌, length, map, IfOk, IfErr, MatchResult};
ghost use Rattle.gj_frac.specs.declared.Frac.{Frac};
ghost use Rattle.gj_shape.specs.FunctionData.{FunctionData};
ghost use Rattle.serde_json.specs.Data.{Data};
ghost use Rattle.serde_json.specs.View.{view};
ghost use Rattle.gj_json.specs.JsonFunction.{SpellsForm, GivesFunction, SaysFunction, HasValue};
ghost use Rattle.gj_json.specs.JsonFunction.{IsJsonFunction};
ghost use Rattle.gj_json.specs.FirstReason.{RefusesFractions, RefusesValue, HasFirstReason};
ghost use Rattle.gj_json.specs.FirstReason.{IsMemoryFault, NamesJsonReason};
ghost use Rattle.gj_json.specs.Reading.{SpellsNoForm, fault_of_text};
ghost use Rattle.gj_json.specs.declared.faults.JsonReason.TheVariants.{Syntax};

use crate::entries::{fraction, fractions};
use crate::faults::{JsonFault, JsonReason};
use crate::form::{Form, form_of};
use gj_frac::Frac;
use gj_function_lines::place_of;
use gj_shape::{GREATEST_ORDER, Shape, ShapeFault};
use serde_json::Value;
use std::alloc::{AllocError, Global};

/// The function that the JSON text spells: an object with `order`, a whole number; `f`, a number
/// word in a string or a whole number; `value`, a list of such; and both or neither of `left` and
/// `right`, lists of such. Lists of limits that are absent equal `value`. Each list has as many
/// entries as `order` says, and there is no other key.
///
/// A number word is in lenient form, as `1/2`, `+0.5` or `-3`, with no blanks. A whole number is
/// one of 64 bits: `2.0` and `-0` are none. If a key stands twice, its value is the one that
/// `serde_json` keeps.
///
/// A refusal names the first test that fails: `syntax`, the bytes are no JSON in UTF-8; `form`, the
/// value is not of the form; `number`, a string is not in lenient form; `order`, the order is not
/// from 2 to 1,000; `place`, f is not k/order for a k from 1 to the order less 1; then for each
/// index the limit from the left, the value and the limit from the right: `large`, it is above 2^20
/// in absolute value; `fine`, with it the common denominator of all so far passes 2^31 - 1.
///
/// ```text
/// let shape = read_json(alloc, b"{\"order\": 2, \"f\": \"0.5\", \"value\": [0, \"1\"]}")?;
/// // shape is the function of order 2 with f = 1/2 that is 0 at 0 and 1 at 1/2
/// let fault = read_json(alloc, b"{\"order\": 2, \"f\": \"0.5\", \"value\": [0, \"one\"]}");
/// // fault is Err(JsonFault::Refused(JsonReason::Number))
/// ```
pub fn read_json(alloc: Global, bytes: &[u8]) -> Result<Shape, JsonFault>
    // What is read is spelled so.
    ensures found { IfOk result (IsJsonFunction bytes.now) }
    // What is spelled so is read, unless there is no memory.
    ensures only { (f : FunctionData) → IsJsonFunction bytes.now f →
        MatchResult result (λ shape. shape ≡ f) IsMemoryFault }
    // A refusal names the first reason.
    ensures refused { IfErr result (NamesJsonReason (HasFirstReason bytes.now)) }
{
    function_of(alloc, bytes)
}

/// The function that the text spells, or why it spells none.
fn function_of(alloc: Global, bytes: &[u8]) -> Result<Shape, JsonFault>
    ensures found { IfOk result (IsJsonFunction bytes.now) }
    ensures refused { IfErr result (NamesJsonReason (HasFirstReason bytes.now)) }
{
    let value = value_of(alloc, bytes)?;
    shape_of(alloc, &value)
}

/// The value of the JSON text.
fn value_of(alloc: Global, bytes: &[u8]) -> Result<Value, JsonFault>
    ensures found { IfOk result (λ value. HasValue bytes.now (view value)) }
    ensures refused { IfErr result (NamesJsonReason (λ e. (e ≡ Syntax) ×
        ((d : Data) → HasValue bytes.now d → ⊥))) }
{
    Value::from_slice(alloc, bytes).map_err(|error| fault_of(error.is_memory()))
}

/// Why a text has no value.
fn fault_of(is_memory: bool) -> JsonFault
    ensures { result ≡ fault_of_text is_memory }
{
    if is_memory {
        JsonFault::Memory(AllocError)
    } else {
        JsonFault::Refused(JsonReason::Syntax)
    }
}

/// The function that the value says.
fn shape_of(alloc: Global, value: &Value) -> Result<Shape, JsonFault>
    ensures found { IfOk result (SaysFunction (view value.now)) }
    ensures refused { IfErr result (NamesJsonReason (RefusesValue (view value.now))) }
{
    let Some(form) = form_of(value) else {
        return Err(JsonFault::Refused(JsonReason::Form));
    };
    let given = fractions_of(alloc, form)?;
    shape_given(
        alloc,
        given.place,
        given.left.as_slice(),
        given.value.as_slice(),
        given.right.as_slice(),
    )
}

/// The fractions of a function.
#[derive(Drop)]
struct Given {
    place: Frac,
    left: Vec<Frac>,
    value: Vec<Frac>,
    right: Vec<Frac>,
}

/// The fractions that the entries of the form spell.
fn fractions_of(alloc: Global, form: Form<'_>) -> Result<Given, JsonFault>
    ensures found { IfOk result (λ g. SpellsForm (view form.entry.place.now)
        (map view form.entry.left.now)
        (map view form.entry.value.now) (map view form.entry.right.now) g.place g.left.items
        g.value.items g.right.items) }
    ensures refused { IfErr result (NamesJsonReason (SpellsNoForm (view form.entry.place.now)
        (map view form.entry.left.now)
        (map view form.entry.value.now) (map view form.entry.right.now))) }
{
    let Some(place) = fraction(form.place) else {
        return Err(JsonFault::Refused(JsonReason::Number));
    };
    let left = fractions(alloc, form.left)?;
    let value = fractions(alloc, form.value)?;
    let right = fractions(alloc, form.right)?;
    Ok(Given {
        place,
        left,
        value,
        right,
    })
}

/// The function with these fractions, whose order is the number of values.
fn shape_given(
    alloc: Global,
    place: Frac,
    left: &[Frac],
    value: &[Frac],
    right: &[Frac],
) -> Result<Shape, JsonFault>
    requires left_length { length left.now ≡ length value.now }
    requires right_length { length right.now ≡ length value.now }
    ensures found { IfOk result (GivesFunction place left.now value.now right.now) }
    ensures refused { IfErr result (NamesJsonReason
        (RefusesFractions place left.now value.now right.now)) }
{
    if !(2..=GREATEST_ORDER as usize).contains(&value.len()) {
        return Err(JsonFault::Refused(JsonReason::Order));
    }
    let order = value.len() as u32;
    let Some(k) = place_of(place, order) else {
        return Err(JsonFault::Refused(JsonReason::Place));
    };
    match Shape::new(alloc, order, k, left, value, right) {
        Ok(shape) => Ok(shape),
        Err(ShapeFault::TooLarge(_)) => Err(JsonFault::Refused(JsonReason::Large)),
        Err(ShapeFault::TooFine(_)) => Err(JsonFault::Refused(JsonReason::Fine)),
        Err(ShapeFault::Memory(error)) => Err(JsonFault::Memory(error)),
        Err(_) => unreachable!(),
    }
}
