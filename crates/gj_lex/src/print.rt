//! Numbers printed in their one spelling.

ghost use Rattle.std.specs.Prelude.{◌≡◌, ◌≤◌, ◌+◌, ◌++◌, ◌∷◌, [], length, drop, decimal, OnOk};
ghost use Rattle.std.specs.Prelude.{OnErr};
ghost use Rattle.std.specs.Fmt.{signed_decimal};
ghost use Rattle.gj_lex.specs.NumberText.{count_line, fraction_text, denominator_text};

use crate::digits::write_digits;
use gj_frac::Frac;
use std::alloc::{AllocError, Global};

/// The length of the longest text: a sign, a `/`, and twice the 39 digits of a number of 128 bits.
const SPACE: usize = 80;

/// Room for two counts, with a space before each and a byte behind them.
const COUNTS_SPACE: usize = 81;

/// Appends a count in canonical form: its digits, without a leading zero.
///
/// An error says that memory ran out; `out` is then as it was.
pub fn print_count(out: &mut Vec<u8>, n: u32) -> Result<(), AllocError>
    ensures ok { OnOk result (out.new.items ≡ out.old.items ++ decimal n) }
    ensures err { OnErr result (out.new.items ≡ out.old.items) }
{
    let mut text = [0; SPACE];
    let start = write_digits(&mut text, SPACE, u128::from(n));
    out.extend_from_slice(&text[start..])
}

/// Appends a line of a word and a count: the word, the digits of the count without a leading zero,
/// and a line feed.
///
/// An error says that memory ran out; `out` may then have a part of the line.
pub fn push_count_line(out: &mut Vec<u8>, word: &[u8], n: u32) -> Result<(), AllocError>
    ensures { OnOk result (out.new.items ≡ out.old.items ++ count_line word.now n) }
{
    out.extend_from_slice(word)?;
    print_count(out, n)?;
    out.push(b'\n')?;
    Ok(())
}

/// Appends a fraction in canonical form, as `-1/2` or `3`.
///
/// The allocator is not used, since `out` grows by its own. An error says that memory ran out; `out`
/// is then as it was.
pub fn print_frac(_alloc: Global, out: &mut Vec<u8>, x: Frac) -> Result<(), AllocError>
    ensures ok { OnOk result (out.new.items ≡ out.old.items ++ fraction_text x) }
    ensures err { OnErr result (out.new.items ≡ out.old.items) }
{
    let mut text = [0; SPACE];
    let start = write_fraction(&mut text, SPACE, x);
    out.extend_from_slice(&text[start..])
}

/// Appends two counts in canonical form, a space before each, and a byte behind them.
///
/// An error says that memory ran out; `out` is then as it was.
pub fn print_counts(out: &mut Vec<u8>, m: u32, n: u32, behind: u8) -> Result<(), AllocError>
    ensures ok { OnOk result (out.new.items ≡
        out.old.items ++ 32 ∷ decimal m ++ 32 ∷ decimal n ++ behind ∷ []) }
    ensures err { OnErr result (out.new.items ≡ out.old.items) }
{
    let mut text = [0; COUNTS_SPACE];
    text[COUNTS_SPACE - 1] = behind;
    let second = write_spaced_count(&mut text, COUNTS_SPACE - 1, n);
    let first = write_spaced_count(&mut text, second, m);
    out.extend_from_slice(&text[first..])
}

/// Writes a space and a count into the text so that they end before `end`, and says where they
/// begin.
fn write_spaced_count(text: &mut [u8], end: usize, n: u32) -> usize
    requires room { 40 ≤ end }
    requires within { end ≤ length text.old }
    ensures written { drop result text.new ≡ 32 ∷ decimal n ++ drop end text.old }
    ensures begins { result ≤ end }
    ensures room { end ≤ result + 40 }
{
    let start = write_digits(text, end, u128::from(n));
    text[start - 1] = b' ';
    start - 1
}

/// Writes a space and a fraction in canonical form into the text so that they end before `end`, and
/// says where they begin.
pub fn write_spaced(text: &mut [u8], end: usize, x: Frac) -> usize
    requires room { 81 ≤ end }
    requires within { end ≤ length text.old }
    ensures written { drop result text.new ≡ 32 ∷ fraction_text x ++ drop end text.old }
    ensures begins { result ≤ end }
    ensures room { end ≤ result + 81 }
{
    let start = write_fraction(text, end, x);
    text[start - 1] = b' ';
    start - 1
}

/// Writes a fraction into the text so that it ends before `end`, and says where it begins.
fn write_fraction(text: &mut [u8], end: usize, x: Frac) -> usize
    requires room { 80 ≤ end }
    requires within { end ≤ length text.old }
    ensures written { drop result text.new ≡ fraction_text x ++ drop end text.old }
    ensures begins { result ≤ end }
    ensures room { end ≤ result + 80 }
{
    let middle = write_denominator(text, end, x.den() as u128);
    write_signed(text, middle, x.num())
}

/// Writes a denominator into the text so that it ends before `end`, and says where it begins.
fn write_denominator(text: &mut [u8], end: usize, den: u128) -> usize
    requires room { 40 ≤ end }
    requires within { end ≤ length text.old }
    ensures written { drop result text.new ≡ denominator_text den ++ drop end text.old }
    ensures begins { result ≤ end }
    ensures room { end ≤ result + 40 }
{
    if den < 2 {
        return end;
    }
    let start = write_digits(text, end, den) - 1;
    text[start] = b'/';
    start
}

/// Writes a whole number into the text so that it ends before `end`, and says where it begins.
fn write_signed(text: &mut [u8], end: usize, n: i128) -> usize
    requires room { 40 ≤ end }
    requires within { end ≤ length text.old }
    ensures written { drop result text.new ≡ signed_decimal n ++ drop end text.old }
    ensures begins { result ≤ end }
    ensures room { end ≤ result + 40 }
{
    if n >= 0 {
        return write_digits(text, end, n as u128);
    }
    let start = write_digits(text, end, n.unsigned_abs());
    text[start - 1] = b'-';
    start - 1
}
