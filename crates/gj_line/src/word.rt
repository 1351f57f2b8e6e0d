//! A known word, and a line that begins with one.
ghost use Rattle.std.specs.Prelude.{◌≡◌, ℕ, List};

/// A known word.
pub trait KnownWord: Copy {
    ghost spelled: { List ℕ };

    /// Its bytes.
    fn text(&self) -> &'static [u8]
        ensures { result.now ≡ spelled };
}

/// The lines that begin with a word and go on with fields.
#[derive(Clone, Copy)]
pub struct Named<W, F> {
    /// The word.
    pub word: W,
    /// The fields behind it.
    pub fields: F,
}
