//! The lines of halves, printed.
ghost use Rattle.std.specs.Prelude.{◌≡◌, ◌++◌, ◌∷◌, ◌&&◌, OnOk};
ghost use Rattle.std.specs.Fmt.{signed_decimal};
ghost use Rattle.gj_forms.specs.LineForms.{bytes_of};
ghost use Rattle.gj_limit_proof.specs.LimitText.{is_one, values_fields, triples_fields};
ghost use Rattle.gj_limit_proof.specs.LimitText.{pair_line, halves_text};
ghost use Rattle.gj_limit_proof.specs.LimitText.{AreLimitHalvesInBounds};

use crate::triple::{Triple, triple_at};
use gj_proof::{push_halves_head, push_whole};
use gj_shape::LimitHalves;
use std::alloc::AllocError;

/// Appends the lines of halves: `halves N S`, and a line `pair ..` for the numbers of both at each
/// index.
pub(crate) fn push_limit_halves(out: &mut Vec<u8>, halves: &LimitHalves) -> Result<(), AllocError>
    requires { AreLimitHalvesInBounds halves.now }
    ensures { OnOk result (out.new.items ≡ out.old.items ++ halves_text halves.now) }
{
    push_halves_head(out, halves.order, halves.scale)?;
    for index in 0..halves.order {
        let first = triple_at(halves.order, &halves.first, index);
        let second = triple_at(halves.order, &halves.second, index);
        push_pair(out, first, second)?;
    }
    Ok(())
}

/// Appends the line of the numbers of both halves at an index.
fn push_pair(out: &mut Vec<u8>, first: Triple, second: Triple) -> Result<(), AllocError>
    ensures { OnOk result (out.new.items ≡ out.old.items ++ pair_line (first, second)) }
{
    if are_one(first, second) {
        return push_values(out, first.value, second.value);
    }
    push_triples(out, first, second)
}

/// Whether neither half jumps.
fn are_one(first: Triple, second: Triple) -> bool
    ensures { result ≡ (is_one first && is_one second) }
{
    first.is_one() && second.is_one()
}

/// Appends the line of two values.
fn push_values(out: &mut Vec<u8>, first: i128, second: i128) -> Result<(), AllocError>
    ensures { OnOk result (out.new.items ≡ out.old.items ++ bytes_of (values_fields first second)) }
{
    out.extend_from_slice(b"pair")?;
    push_number(out, first)?;
    push_number(out, second)?;
    out.push(b'\n')?;
    Ok(())
}

/// Appends the line of twice three numbers.
fn push_triples(out: &mut Vec<u8>, first: Triple, second: Triple) -> Result<(), AllocError>
    ensures { OnOk result (out.new.items ≡ out.old.items ++ bytes_of
        (triples_fields first second)) }
{
    out.extend_from_slice(b"pair")?;
    push_triple(out, first)?;
    push_triple(out, second)?;
    out.push(b'\n')?;
    Ok(())
}

/// Appends three numbers, each behind a space.
fn push_triple(out: &mut Vec<u8>, triple: Triple) -> Result<(), AllocError>
    ensures { OnOk result (out.new.items ≡ out.old.items ++ 32 ∷ signed_decimal triple.left
        ++ 32 ∷ signed_decimal triple.value ++ 32 ∷ signed_decimal triple.right) }
{
    push_number(out, triple.left)?;
    push_number(out, triple.value)?;
    push_number(out, triple.right)
}

/// Appends a space and a whole number.
fn push_number(out: &mut Vec<u8>, n: i128) -> Result<(), AllocError>
    ensures { OnOk result (out.new.items ≡ out.old.items ++ 32 ∷ signed_decimal n) }
{
    out.push(b' ')?;
    push_whole(out, n)
}
