//! Ends of lines, written from their last byte to their first.

ghost use Rattle.std.specs.Prelude.{◌≡◌, ◌≤◌, ◌+◌, ◌++◌, ◌∷◌, [], length, drop, OnOk, OnErr};
ghost use Rattle.gj_lex.specs.NumberText.{fraction_text};

use gj_frac::Frac;
use gj_lex::write_spaced;
use std::alloc::AllocError;

/// The length of the longest text of two fractions, with a space before each and a line feed.
const PAIR_SPACE: usize = 163;

/// Appends the end of a line of two fractions in canonical form: a space before each, and a line
/// feed behind them.
///
/// An error says that memory ran out; `out` is then as it was.
pub fn print_pair(out: &mut Vec<u8>, x: Frac, y: Frac) -> Result<(), AllocError>
    ensures ok { OnOk result (out.new.items ≡
        out.old.items ++ 32 ∷ fraction_text x ++ 32 ∷ fraction_text y ++ 10 ∷ []) }
    ensures err { OnErr result (out.new.items ≡ out.old.items) }
{
    let mut text = [0; PAIR_SPACE];
    let start = fill_with_pair(&mut text, x, y);
    out.extend_from_slice(&text[start..])
}

/// Writes the end of a line of two fractions in canonical form into the text, so that it ends
/// before `end`, and says where it begins: a space before each, and a line feed behind them.
///
/// So a line can be written from its end to its front, before it is appended at once.
#[inline(always)]
pub fn write_pair(text: &mut [u8], end: usize, x: Frac, y: Frac) -> usize
    requires room { 163 ≤ end }
    requires within { end ≤ length text.old }
    ensures written { drop result text.new
        ≡ 32 ∷ fraction_text x ++ 32 ∷ fraction_text y ++ 10 ∷ drop end text.old }
    ensures begins { result ≤ end }
    ensures room { end ≤ result + 163 }
{
    text[end - 1] = b'\n';
    let second = write_spaced(text, end - 1, y);
    write_spaced(text, second, x)
}

/// Writes two fractions as `write_pair` does, so that they end where the text does.
#[inline(always)]
fn fill_with_pair(text: &mut [u8], x: Frac, y: Frac) -> usize
    requires { length text.old ≡ 163 }
    ensures written { drop result text.new
        ≡ 32 ∷ fraction_text x ++ 32 ∷ fraction_text y ++ 10 ∷ [] }
    ensures begins { result ≤ length text.new }
{
    write_pair(text, PAIR_SPACE, x, y)
}

/// Writes a word into the text so that it ends before `end`, and says where it begins.
#[inline(always)]
pub fn write_word(text: &mut [u8], end: usize, word: &[u8]) -> usize
    requires room { length word.now ≤ end }
    requires within { end ≤ length text.old }
    ensures written { drop result text.new ≡ word.now ++ drop end text.old }
    ensures begins { result + length word.now ≡ end }
{
    let start = end - word.len();
    text[start..end].copy_from_slice(word);
    start
}
