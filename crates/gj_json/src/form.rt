//! The form of a function in JSON.
ghost use Rattle.std.specs.Prelude.{◌≡◌, ◌↔◌, List, pos, map, Some, IsTrue, IfSome, IfNone};
ghost use Rattle.std.specs.Prelude.{option_map, option_and_then, codes};
ghost use Rattle.serde_json.specs.Data.{Data};
ghost use Rattle.serde_json.specs.Find.{get, as_array};
ghost use Rattle.serde_json.specs.View.{view};
ghost use Rattle.gj_json.specs.JsonFunction.{integer, list_of, list_at, HasOnlyKeys, HasSideLimits};
ghost use Rattle.gj_json.specs.JsonFunction.{HasForm};

use crate::entries::{are_entries, integer, is_entry};
use serde_json::Value;

/// What stands in a value of the form of a function.
#[derive(Clone, Copy)]
pub(crate) struct Form<'a> {
    /// f.
    pub(crate) place: &'a Value,
    /// The limits from the left.
    pub(crate) left: &'a [Value],
    /// The values.
    pub(crate) value: &'a [Value],
    /// The limits from the right.
    pub(crate) right: &'a [Value],
}

/// What stands in the value, if it is of the form.
pub(crate) fn form_of(value: &Value) -> Option<Form<'_>>
    ensures found { IfSome result (λ form. HasForm (view value.now) (view form.place.now)
        (map view form.left.now) (map view form.value.now) (map view form.right.now)) }
    ensures none { IfNone result ((p : Data) (ls vs rs : List Data) →
        HasForm (view value.now) p ls vs rs → ⊥) }
{
    let place = value.get("f")?;
    let values = list_at(value, "value")?;
    let (left, right) = limits_of(value, values)?;
    let count = values.len();
    if has_only_keys(value)
        && has_order(value, count)
        && is_entry(place)
        && are_entries(count, left)
        && are_entries(count, values)
        && are_entries(count, right)
    {
        return Some(Form {
            place,
            left,
            value: values,
            right,
        });
    }
    None
}

/// Both lists of limits, or the values if it has neither.
fn limits_of<'a>(value: &'a Value, values: &'a [Value]) -> Option<(&'a [Value], &'a [Value])>
    ensures found { IfSome result (λ r. HasSideLimits (view value.now) (map view r.0.now)
        (map view values.now) (map view r.1.now)) }
    ensures none { IfNone result ((ls rs : List Data) → HasSideLimits (view value.now) ls
        (map view values.now) rs → ⊥) }
{
    match (value.get("left"), value.get("right")) {
        (None, None) => Some((values, values)),
        (Some(left), Some(right)) => Some((list(left)?, list(right)?)),
        _ => None,
    }
}

/// The list at the key.
fn list_at<'a>(value: &'a Value, key: &str) -> Option<&'a [Value]>
    ensures { option_map (λ v. map view v.now) result ≡ list_at key.now (view value.now) }
{
    list(value.get(key)?)
}

/// The list that the value is.
fn list(value: &Value) -> Option<&[Value]>
    ensures { option_map (λ v. map view v.now) result ≡ option_map list_of
        (as_array (view value.now)) }
{
    Some(value.as_array()?.as_slice())
}

/// Whether the order is this count.
fn has_order(value: &Value, count: usize) -> bool
    ensures { IsTrue result ↔
        (option_and_then integer (get (codes "order") (view value.now)) ≡ Some (pos count)) }
{
    match value.get("order") {
        Some(order) => integer(order) == Some(count as i128),
        None => false,
    }
}

/// Whether the value is an object with no key that a function does not have.
fn has_only_keys(value: &Value) -> bool
    ensures { IsTrue result ↔ HasOnlyKeys (view value.now) }
{
    match value.as_object() {
        Some(members) => members.keys().all(|key| {
            let key = key.as_str();
            key == "f" || key == "left" || key == "order" || key == "right" || key == "value"
        }),
        None => false,
    }
}
