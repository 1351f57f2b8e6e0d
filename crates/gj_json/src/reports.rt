//! Reports in JSON.
ghost use Rattle.std.specs.Prelude.{◌≡◌, List, ℕ, All, codes, IfOk};
ghost use Rattle.serde_json.specs.Data.{string, array, object, no_members, member};
ghost use Rattle.serde_json.specs.View.{view, items_view};
ghost use Rattle.gj_json.specs.JsonText.{strings, IsPrintable, IsProofByte, IsEnded, HasJsonLines};
ghost use Rattle.gj_json.specs.JsonText.{IsReport};

use crate::show::line_of;
use serde_json::{Value, json};
use std::alloc::{AllocError, Global};

/// A verdict and the lines of a proof text in JSON, with a line feed at the end: the keys `proof`,
/// the lines as strings without their line feeds, and `verdict`.
///
/// ```text
/// {"proof":["gj-proof 1","claim minimal", .. ,"end"],"verdict":"minimal"}
/// ```
pub fn report(alloc: Global, verdict: &str, proof: &[u8]) -> Result<Vec<u8>, AllocError>
    requires bytes { All IsProofByte proof.now }
    requires ended { IsEnded proof.now }
    ensures { IfOk result (λ text. IsReport verdict.now proof.now text.items) }
{
    let lines = line_values(alloc, proof)?;
    let verdict = Value::try_from_str(alloc, verdict)?;
    let value = object_of(alloc, lines, verdict)?;
    line_of(alloc, &value)
}

/// The object of a report.
fn object_of(alloc: Global, lines: Value, verdict: Value) -> Result<Value, AllocError>
    ensures { IfOk result (λ v. view v ≡ object (member (codes "proof") (view lines)
        (member (codes "verdict") (view verdict) no_members))) }
{
    json!(in alloc; {"proof": lines, "verdict": verdict})
}

/// The list of the lines as strings.
fn line_values(alloc: Global, text: &[u8]) -> Result<Value, AllocError>
    requires bytes { All IsProofByte text.now }
    requires ended { IsEnded text.now }
    ensures { IfOk result (λ v. (lines : List (List ℕ)) × HasJsonLines text.now lines ×
        (view v ≡ array (strings lines))) }
{
    let mut values = Vec::new(alloc);
    let mut line = Vec::new(alloc);
    for byte in text {
        if *byte == b'\n' {
            values.push(text_value(alloc, line.as_slice())?)?;
            line.clear();
        } else {
            line.push(*byte)?;
        }
    }
    Ok(Value::Array(values))
}

/// The bytes as a string.
fn text_value(alloc: Global, bytes: &[u8]) -> Result<Value, AllocError>
    requires { All IsPrintable bytes.now }
    ensures { IfOk result (λ v. view v ≡ string bytes.now) }
{
    Value::try_from_str(alloc, str::from_utf8(bytes).unwrap())
}
