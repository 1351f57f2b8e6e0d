//! What a check answers, printed.
ghost use Rattle.std.specs.Prelude.{◌≡◌, ◌≢◌, ◌++◌, ◌∷◌, [], OnOk, codes};
ghost use Rattle.gj_forms.specs.LineForms.{bytes_of};
ghost use Rattle.gj_forms.specs.LineForms.Field.{word};
ghost use Rattle.gj_line.specs.FieldForms.{tail_of};
ghost use Rattle.gj_derivation.specs.declared.step.Verdict.TheVariants.{Accepted};
ghost use Rattle.gj_derivation_text.specs.VerdictLines.{cause_fields, rejected_line};
ghost use Rattle.gj_derivation_text.specs.VerdictLines.{accepted_line, left_out_line};

use crate::print::name_at;
use gj_derivation::Verdict;
use gj_lex::Name;
use gj_line::{Field, Fraction, NameWord};
use itoa::Buffer;
use std::alloc::AllocError;

/// Appends the line `accepted derivation`. An error says that memory ran out.
pub fn push_accepted(out: &mut Vec<u8>) -> Result<(), AllocError>
    ensures { OnOk result (out.new.items ≡ out.old.items ++ accepted_line) }
{
    out.extend_from_slice(b"accepted derivation\n")
}

/// Appends the line `rejected line N CAUSE ..` of a verdict on the step that begins in line N. The
/// names are those of the columns and of the lines.
///
/// An error says that memory ran out; `out` may then have a part of the line.
pub fn push_rejected(
    out: &mut Vec<u8>,
    columns: &[Name],
    lines: &[Name],
    at_line: u64,
    verdict: Verdict,
) -> Result<(), AllocError>
    ensures { OnOk result (out.new.items ≡ out.old.items
        ++ rejected_line columns.now lines.now at_line verdict) }
{
    let mut buffer = Buffer::new();
    out.extend_from_slice(b"rejected line")?;
    NameWord.push(out, buffer.format(at_line).as_bytes())?;
    push_cause(out, columns, lines, verdict)?;
    Ok(())
}

/// Appends the line `# NAME CAUSE ..` of a step that is left out for the verdict.
pub(crate) fn push_left_out(
    out: &mut Vec<u8>,
    columns: &[Name],
    lines: &[Name],
    name: &[u8],
    verdict: Verdict,
) -> Result<(), AllocError>
    ensures { OnOk result (out.new.items ≡ out.old.items
        ++ left_out_line columns.now lines.now name.now verdict) }
{
    out.push(b'#')?;
    NameWord.push(out, name)?;
    push_cause(out, columns, lines, verdict)?;
    Ok(())
}

/// Appends the end of a line that says what stands against a step.
fn push_cause(
    out: &mut Vec<u8>,
    columns: &[Name],
    lines: &[Name],
    verdict: Verdict,
) -> Result<(), AllocError>
    ensures { OnOk result (out.new.items ≡ out.old.items
        ++ tail_of (cause_fields columns.now lines.now verdict)) }
{
    match verdict {
        Verdict::Accepted => out.extend_from_slice(b"\n"),
        Verdict::Sign(line) => push_named(out, b" sign", name_at(lines, line)),
        Verdict::Free(column) => push_named(out, b" free", name_at(columns, column as usize)),
        Verdict::Integral => out.extend_from_slice(b" integral\n"),
        Verdict::Other => out.extend_from_slice(b" other\n"),
        Verdict::Bound(column) => push_named(out, b" bound", name_at(columns, column as usize)),
        Verdict::Right(shown) => {
            out.extend_from_slice(b" right")?;
            Fraction.push(out, shown)?;
            out.push(b'\n')?;
            Ok(())
        }
        Verdict::Wide => out.extend_from_slice(b" wide\n"),
    }
}

/// Appends the front, a space, the name and a line feed.
fn push_named(out: &mut Vec<u8>, front: &[u8], name: &[u8]) -> Result<(), AllocError>
    ensures { OnOk result (out.new.items ≡ out.old.items ++ front.now ++ 32 ∷ name.now
        ++ 10 ∷ []) }
{
    out.extend_from_slice(front)?;
    NameWord.push(out, name)?;
    out.push(b'\n')?;
    Ok(())
}
