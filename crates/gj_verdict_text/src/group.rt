//! The text of a verdict on a table.
ghost use Rattle.std.specs.Prelude.{◌≡◌, ◌++◌, IfOk, OnOk};
ghost use Rattle.gj_shape.specs.FunctionData.{FunctionData};
ghost use Rattle.gj_group.specs.Decision.{IsFound};
ghost use Rattle.gj_verdict_text.specs.GroupText.{IsGroupText, verdict_lines};

use gj_function_lines::{push_fraction_line, push_order_line};
use gj_group::GroupAnswer;
use gj_proof::{push_halves, push_violation_line};
use gj_shape::Shape;
use std::alloc::{AllocError, Global};

/// The text of the answer that `decide_group` gives to a function.
pub fn group_text(alloc: Global, shape: &Shape, answer: &GroupAnswer) -> Result<Vec<u8>, AllocError>
    requires found { IsFound shape.now answer.now }
    ensures text { IfOk result (λ text. IsGroupText shape.now answer.now text.items) }
{
    let mut text = Vec::from_slice(alloc, b"gj-group 1\n")?;
    push_order_line(&mut text, shape.order())?;
    push_fraction_line(alloc, &mut text, b"f ", shape.f())?;
    push_verdict(alloc, &mut text, answer)?;
    text.extend_from_slice(b"end\n")?;
    Ok(text)
}

/// Appends the line of a verdict, and those that show it.
fn push_verdict(alloc: Global, out: &mut Vec<u8>, answer: &GroupAnswer) -> Result<(), AllocError>
    requires found { (f : FunctionData) × IsFound f answer.now }
    ensures lines { OnOk result (out.new.items ≡ out.old.items ++ verdict_lines answer.now) }
{
    match answer {
        GroupAnswer::NotMinimal(violation) => {
            out.extend_from_slice(b"verdict not-minimal\n")?;
            push_violation_line(alloc, out, *violation)
        }
        GroupAnswer::Extreme => out.extend_from_slice(b"verdict extreme\n"),
        GroupAnswer::NotExtreme(halves) => {
            out.extend_from_slice(b"verdict not-extreme\n")?;
            push_halves(out, halves)
        }
    }
}
