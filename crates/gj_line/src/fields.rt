//! Fields of a line, one behind another.
ghost use Rattle.std.specs.Prelude.{◌≡◌, ◌++◌, ◌∷◌, [], ℕ, List, IfOk, IfErr, OnOk};
ghost use Rattle.gj_lex.specs.Words.{word_texts};
ghost use Rattle.gj_lex.specs.declared.reason.Reason.TheVariants.{Form};
ghost use Rattle.gj_forms.specs.LineForms.{LineForm, word_of};
ghost use Rattle.gj_forms.specs.SpelledForms.{IsWordOf, Spell, rule_in};
ghost use Rattle.gj_line.specs.FieldForms.{no_form, then_form, tail_of, WordBreaks, AreClearFields};
ghost use Rattle.gj_line.specs.FieldLaws.{no_form_is_clear, then_is_clear};

use crate::field::Field;
use gj_forms::{has_no_word, split_word};
use gj_lex::{Reason, Spelling};
use std::alloc::AllocError;

/// How the fields of a line behind its first word are read and written.
pub trait Fields<'a> {
    /// What they tell.
    type Values: Copy;

    // What contracts see of it.
    ghost Told: { Type 0 };

    ghost told: { Self.Values → Told };

    // The readers are such.
    ghost are_fields: { Self → Type 0 };

    ghost form: { Self → LineForm Told };

    ghost are_clear: { (f : Self) → are_fields f → AreClearFields (form f) };

    /// The values that the words of the line spell, or which rule they break.
    fn of_words(&self, spelling: Spelling, line: &'a [u8]) -> Result<Self::Values, Reason>
        requires { are_fields self.now }
        ensures found { IfOk result
            (λ v. Spell spelling (form self.now) (word_texts line.now) (told v)) }
        ensures fault { IfErr result
            ((rule_in spelling (form self.now)).Breaks (word_texts line.now)) };

    /// Appends the words of the values, a space before each, and a line feed.
    fn push(&self, out: &mut Vec<u8>, values: Self::Values) -> Result<(), AllocError>
        requires { are_fields self.now }
        ensures { OnOk result
            (out.new.items ≡ out.old.items ++ tail_of ((form self.now).fields (told values))) };
}

impl<'a> Fields<'a> for () {
    type Values = ();

    ghost Told = { Unit {0} };

    ghost told = { λ v. v };

    ghost are_fields = { λ f. Unit {0} };

    ghost form = { λ f. no_form };

    fn of_words(&self, _spelling: Spelling, line: &'a [u8]) -> Result<(), Reason> {
        if !has_no_word(line) {
            return Err(Reason::Form);
        }
        Ok(())
    }

    fn push(&self, out: &mut Vec<u8>, _values: ()) -> Result<(), AllocError> {
        out.push(b'\n')?;
        Ok(())
    }

    ghost are_clear = { λ f h. no_form_is_clear };
}

impl<'a, H: Field<'a>, T: Fields<'a>> Fields<'a> for (H, T) {
    type Values = (H::Value, T::Values);

    ghost Told = { H.Told × T.Told };

    ghost told = { λ v. (H.told v.0, T.told v.1) };

    ghost are_fields = { λ f. H.is_field f.0 × T.are_fields f.1 };

    ghost form = { λ f. then_form (H.form f.0) (T.form f.1) };

    fn of_words(
        &self,
        spelling: Spelling,
        line: &'a [u8],
    ) -> Result<(H::Value, T::Values), Reason> {
        let Some((word, rest)) = split_word(line) else {
            return Err(Reason::Form);
        };
        match (
            self.0.of_word(spelling, word),
            self.1.of_words(spelling, rest),
        ) {
            (Ok(value), Ok(values)) => Ok((value, values)),
            (Err(reason), Ok(_)) => Err(reason),
            (Ok(_), Err(reason)) => Err(reason),
            (Err(reason), Err(behind)) => Err(first_of(reason, behind)),
        }
    }

    fn push(&self, out: &mut Vec<u8>, values: (H::Value, T::Values)) -> Result<(), AllocError> {
        self.0.push(out, values.0)?;
        self.1.push(out, values.1)
    }

    ghost are_clear = { λ f h. then_is_clear (H.form f.0) (T.form f.1) (H.is_clear f.0 h.0) (T.are_clear f.1 h.1) };
}

/// The one that is told of a line with both: that it has not the form, if either says so.
fn first_of(reason: Reason, behind: Reason) -> Reason
    ensures form { reason ≡ Form → result ≡ Form }
    ensures other { (reason ≡ Form → ⊥) → result ≡ behind }
{
    match reason {
        Reason::Form => Reason::Form,
        _ => behind,
    }
}
