//! Fields that are numbers, and names.
ghost use Rattle.std.specs.Prelude.{◌≡◌, ◌↔◌, ◌≤◌, ◌++◌, ◌∷◌, [], ℕ, List, pos, ◌<ℤ◌, IsTrue};
ghost use Rattle.std.specs.Prelude.{length, drop, OnOk};
ghost use Rattle.gj_frac.specs.Fraction.{numerator};
ghost use Rattle.gj_frac.specs.declared.Frac.{Frac};
ghost use Rattle.gj_lex.specs.Name.{IsName};
ghost use Rattle.gj_lex.specs.NumberText.{fraction_text};
ghost use Rattle.gj_line.specs.FieldForms.{any_fraction, positive_fraction, name_word};
ghost use Rattle.gj_line.specs.FieldLaws.{fraction_is_clear, positive_is_clear, name_is_clear};

use crate::field::Field;
use gj_frac::Frac;
use gj_lex::{Reason, Spelling, fraction_of, write_spaced};
use std::alloc::AllocError;

/// A fraction.
#[derive(Clone, Copy)]
pub struct Fraction;

impl<'a> Field<'a> for Fraction {
    type Value = Frac;

    ghost Told = { Frac };

    ghost told = { λ v. v };

    ghost is_field = { λ f. Unit {0} };

    ghost form = { λ f. any_fraction };

    fn of_word(&self, spelling: Spelling, word: &'a [u8]) -> Result<Frac, Reason> {
        match fraction_of(spelling, word) {
            Some(x) => Ok(x),
            None => Err(Reason::Number),
        }
    }

    fn push(&self, out: &mut Vec<u8>, value: Frac) -> Result<(), AllocError> {
        push_spaced(out, value)
    }

    ghost is_clear = { λ f h. fraction_is_clear };
}

/// A fraction above 0.
#[derive(Clone, Copy)]
pub struct PositiveFraction;

impl<'a> Field<'a> for PositiveFraction {
    type Value = Frac;

    ghost Told = { Frac };

    ghost told = { λ v. v };

    ghost is_field = { λ f. Unit {0} };

    ghost form = { λ f. positive_fraction };

    fn of_word(&self, spelling: Spelling, word: &'a [u8]) -> Result<Frac, Reason> {
        let Some(x) = fraction_of(spelling, word) else {
            return Err(Reason::Number);
        };
        if !is_positive(x) {
            return Err(Reason::Number);
        }
        Ok(x)
    }

    fn push(&self, out: &mut Vec<u8>, value: Frac) -> Result<(), AllocError> {
        push_spaced(out, value)
    }

    ghost is_clear = { λ f h. positive_is_clear };
}

/// Whether x is above 0.
fn is_positive(x: Frac) -> bool
    ensures { IsTrue result ↔ (pos 0 <ℤ numerator x) }
{
    x.num() > 0
}

/// The length of the longest text of a fraction with a space before it.
const SPACE: usize = 81;

/// Appends a space and a fraction in canonical form, at once.
fn push_spaced(out: &mut Vec<u8>, x: Frac) -> Result<(), AllocError>
    ensures { OnOk result (out.new.items ≡ out.old.items ++ 32 ∷ fraction_text x) }
{
    let mut text = [0; SPACE];
    let start = filled_with(&mut text, x);
    out.extend_from_slice(&text[start..])
}

/// Writes a space and a fraction so that they end where the text does, and says where they begin.
#[inline(always)]
fn filled_with(text: &mut [u8], x: Frac) -> usize
    requires { length text.old ≡ 81 }
    ensures written { drop result text.new ≡ 32 ∷ fraction_text x }
    ensures begins { result ≤ length text.new }
{
    write_spaced(text, SPACE, x)
}

/// A name.
#[derive(Clone, Copy)]
pub struct NameWord;

impl<'a> Field<'a> for NameWord {
    type Value = &'a [u8];

    ghost Told = { List ℕ };

    ghost told = { λ v. v.now };

    ghost is_field = { λ f. Unit {0} };

    ghost form = { λ f. name_word };

    fn of_word(&self, _spelling: Spelling, word: &'a [u8]) -> Result<&'a [u8], Reason> {
        if !is_name(word) {
            return Err(Reason::Form);
        }
        Ok(word)
    }

    fn push(&self, out: &mut Vec<u8>, value: &'a [u8]) -> Result<(), AllocError> {
        out.push(b' ')?;
        out.extend_from_slice(value)
    }

    ghost is_clear = { λ f h. name_is_clear };
}

/// The greatest length of a name.
const LONGEST: usize = 255;

/// Whether the bytes are a name.
fn is_name(bytes: &[u8]) -> bool
    ensures { IsTrue result ↔ IsName bytes.now }
{
    !bytes.is_empty()
        && bytes.len() <= LONGEST
        && bytes
            .iter()
            .all(|byte| byte.is_ascii_graphic() && *byte != b'"')
}
