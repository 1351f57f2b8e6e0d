//! Lines of a known first word and of fields, written.
ghost use Rattle.std.specs.Prelude.{◌≡◌, ◌++◌, OnOk};
ghost use Rattle.gj_forms.specs.LineForms.{line_of};
ghost use Rattle.gj_line.specs.FieldForms.{named_form};

use crate::fields::Fields;
use crate::word::{KnownWord, Named};
use std::alloc::AllocError;

/// Appends the line of these values. An error says that memory ran out; `out` may then have a part
/// of it.
pub fn push_line<'a, W: KnownWord, F: Fields<'a>>(
    line: &Named<W, F>,
    out: &mut Vec<u8>,
    values: F::Values,
) -> Result<(), AllocError>
    requires { F.are_fields line.now.fields }
    ensures { OnOk result (out.new.items ≡ out.old.items
        ++ line_of (named_form W.spelled (F.form line.now.fields)) (F.told values)) }
{
    out.extend_from_slice(line.word.text())?;
    line.fields.push(out, values)?;
    Ok(())
}
