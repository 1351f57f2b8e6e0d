//! Which columns are continuous.
ghost use Rattle.std.specs.Prelude.{◌≡◌, IfOk, map, true};
ghost use Rattle.gj_cut_text.specs.Columns.{continuous_columns};

use gj_lex::Name;
use std::alloc::{AllocError, Global};

/// What the name of a continuous column begins with.
const CONTINUOUS: &[u8] = b"c:";

/// Of each column, whether it is continuous: its name begins with `c:`. If not `mixed`, every column
/// is taken for whole, and there is nothing to say.
pub(crate) fn continuous_columns(
    alloc: Global,
    columns: &[Name],
    mixed: bool,
) -> Result<Vec<bool>, AllocError>
    ensures { IfOk result (λ flags. mixed ≡ true → flags.items ≡ continuous_columns columns.now) }
{
    if !mixed {
        return Ok(Vec::new(alloc));
    }
    let mut flags = Vec::with_capacity(alloc, columns.len())?;
    for column in columns {
        flags.push(column.bytes().starts_with(CONTINUOUS))?;
    }
    Ok(flags)
}
