//! Lines by their first words.
ghost use Rattle.std.specs.Prelude.{◌≡◌, ◌↔◌, ◌⊎◌, ◌∷◌, [], IsTrue, IfOk, IfErr, codes};
ghost use Rattle.gj_lex.specs.Words.{word_texts};
ghost use Rattle.gj_lex.specs.declared.spelling.Spelling.TheVariants.{Lenient};
ghost use Rattle.gj_forms.specs.Parts.{IsNoLine};
ghost use Rattle.gj_forms.specs.TextLines.{HasLine};

use gj_forms::{PartFault, line_at, split_word};
use gj_lex::Spelling;

/// A line of a text, with its first word.
#[derive(Clone, Copy)]
pub(crate) struct WordLine<'a> {
    /// The text from the line on.
    pub start: &'a [u8],
    /// The bytes of the line.
    pub bytes: &'a [u8],
    /// Its first word.
    pub word: &'a [u8],
    /// What stands behind that word in the line.
    pub behind: &'a [u8],
    /// What follows the line.
    pub rest: &'a [u8],
}

/// The next line of the text, in lenient spelling. The fault is that there is none.
pub(crate) fn word_line_at(text: &[u8]) -> Result<WordLine<'_>, PartFault>
    ensures found { IfOk result (λ l. HasLine Lenient text.now l.start.now
        (l.word.now ∷ word_texts l.behind.now) l.rest.now) }
    ensures words { IfOk result (λ l. word_texts l.bytes.now
        ≡ l.word.now ∷ word_texts l.behind.now) }
    ensures fault { IfErr result (IsNoLine Lenient text.now) }
{
    let line = line_at(Spelling::Lenient, text)?;
    let Some((word, behind)) = split_word(line.bytes) else {
        unreachable!();
    };
    Ok(WordLine {
        start: line.start,
        bytes: line.bytes,
        word,
        behind,
        rest: line.rest,
    })
}

/// Whether the word is one with which a step, or the end, begins.
pub(crate) fn goes_on(word: &[u8]) -> bool
    ensures { IsTrue result ↔ ((word.now ≡ codes "step") ⊎ (word.now ≡ codes "end")) }
{
    word == b"step".as_slice() || word == b"end".as_slice()
}
