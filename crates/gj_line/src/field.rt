//! A field of a line.
ghost use Rattle.std.specs.Prelude.{◌≡◌, ◌++◌, ◌∷◌, [], IfOk, IfErr, OnOk};
ghost use Rattle.gj_forms.specs.LineForms.{word_of};
ghost use Rattle.gj_forms.specs.SpelledForms.{IsWordOf};
ghost use Rattle.gj_line.specs.FieldForms.{FieldForm, WordBreaks, IsClearField};

use gj_lex::{Reason, Spelling};
use std::alloc::AllocError;

/// How a field of a line is read and written.
pub trait Field<'a> {
    /// What it tells.
    type Value: Copy;

    // What contracts see of it.
    ghost Told: { Type 0 };

    ghost told: { Self.Value → Told };

    // The reader is one.
    ghost is_field: { Self → Type 0 };

    ghost form: { Self → FieldForm Told };

    ghost is_clear: { (f : Self) → is_field f → IsClearField (form f) };

    /// The value that the word spells, or which rule it breaks.
    fn of_word(&self, spelling: Spelling, word: &'a [u8]) -> Result<Self::Value, Reason>
        requires { is_field self.now }
        ensures found { IfOk result (λ v.
            IsWordOf spelling ((form self.now).field (told v)) word.now ×
            (form self.now).HasWord (told v)) }
        ensures fault { IfErr result (WordBreaks spelling (form self.now) word.now) };

    /// Appends a space and the word of the value.
    fn push(&self, out: &mut Vec<u8>, value: Self::Value) -> Result<(), AllocError>
        requires { is_field self.now }
        ensures { OnOk result (out.new.items ≡
            out.old.items ++ 32 ∷ word_of ((form self.now).field (told value))) };
}
