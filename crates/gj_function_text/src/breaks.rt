//! Functions by their breakpoints, read.
ghost use Rattle.std.specs.Prelude.{◌≡◌, ◌≢◌, ◌≤◌, ◌↔◌, [], length, IfOk, IfErr, IsTrue};
ghost use Rattle.std.specs.Prelude.{unsigned_abs};
ghost use Rattle.gj_frac.specs.Fraction.{denominator, IsInside};
ghost use Rattle.gj_lex.specs.Words.{word_texts};
ghost use Rattle.gj_forms.specs.Parts.{line_part, loop_part, IsFaultOf, IsReading};
ghost use Rattle.gj_shape.specs.Limits.{greatest_order};
ghost use Rattle.gj_shape.specs.Breaks.{no_breaks};
ghost use Rattle.gj_function_text.specs.BreaksText.{start_rule, break_rule, end_rule, EndsHere};
ghost use Rattle.gj_function_text.specs.BreaksText.{next_break, breaks_part};
ghost use Rattle.gj_function_text.specs.BreaksRead.{refusal_of, end_refusal};

use gj_forms::{PartFault, begins_with_word, field_of, has_words, line_at};
use gj_frac::Frac;
use gj_function_lines::break_in;
use gj_lex::{Reason, Spelling, fraction_of};
use gj_shape::{BreakFault, Breaks, GREATEST_ORDER, Shape, ShapeFault};
use std::alloc::Global;

/// The function that the next lines tell by its breakpoints, and what follows their line `end`: `f
/// F`, and a line `point X V` or `point X L V R` for each breakpoint.
pub(crate) fn breaks_at(alloc: Global, text: &[u8]) -> Result<(Shape, &[u8]), PartFault>
    ensures { IsReading breaks_part text.now result }
{
    let (breaks, lines) = start_at(alloc, text)?;
    more_breaks_at(alloc, lines, breaks)
}

/// f in the next line, and what follows the line.
fn start_at(alloc: Global, text: &[u8]) -> Result<(Breaks, &[u8]), PartFault>
    ensures { IsReading (line_part Spelling.Lenient start_rule) text.now result }
{
    let line = line_at(Spelling::Lenient, text)?;
    match start_in(line.bytes) {
        Ok(place) => Ok((Breaks::new(alloc, place), line.rest)),
        Err(reason) => Err(PartFault::at(line.start, reason)),
    }
}

/// The f that the line gives, or the rule that it breaks first.
fn start_in(line: &[u8]) -> Result<Frac, Reason>
    ensures found { IfOk result (λ x. start_rule.Spells (word_texts line.now) (no_breaks x)) }
    ensures inside { IfOk result IsInside }
    ensures few { IfOk result (λ x. unsigned_abs (denominator x) ≤ greatest_order) }
    ensures broken { IfErr result (start_rule.Breaks (word_texts line.now)) }
{
    let Some(word) = field_of(line, b"f") else {
        return Err(Reason::Form);
    };
    let Some(place) = fraction_of(Spelling::Lenient, word) else {
        return Err(Reason::Number);
    };
    if !is_inside(place) {
        return Err(Reason::Place);
    }
    if !is_coarse(place) {
        return Err(Reason::Pieces);
    }
    Ok(place)
}

/// Whether the fraction lies between 0 and 1, both excluded.
fn is_inside(x: Frac) -> bool
    ensures { IsTrue result ↔ IsInside x }
{
    x.num() > 0 && x.num() < x.den()
}

/// Whether the denominator is at most 1,000.
fn is_coarse(x: Frac) -> bool
    ensures { IsTrue result ↔ (unsigned_abs (denominator x) ≤ greatest_order) }
{
    x.den().unsigned_abs() <= u128::from(GREATEST_ORDER)
}

/// The function whose further breakpoints the next lines tell, up to their line `end`, and what
/// follows that line.
fn more_breaks_at(alloc: Global, text: &[u8], first: Breaks) -> Result<(Shape, &[u8]), PartFault>
    ensures { IsReading (loop_part next_break first) text.now result }
{
    let mut breaks = first;
    let mut rest = text;
    while !ends_here(rest, &breaks) {
        rest = break_at(rest, &mut breaks)?;
    }
    last_at(alloc, rest, &breaks)
}

/// Whether there is a breakpoint, and the next line begins with `end`.
fn ends_here(text: &[u8], breaks: &Breaks) -> bool
    ensures { IsTrue result ↔ EndsHere breaks.now text.now }
{
    !breaks.is_empty() && begins_with_word(Spelling::Lenient, text, b"end")
}

/// Reads the breakpoint of the next line to those before, and gives what follows the line.
fn break_at<'a>(text: &'a [u8], breaks: &mut Breaks) -> Result<&'a [u8], PartFault>
    ensures found { IfOk result (λ rest. (line_part Spelling.Lenient
        (break_rule breaks.old)).Reads text.now breaks.new rest.now) }
    ensures fault { IfErr result (IsFaultOf (line_part Spelling.Lenient
        (break_rule breaks.old)) text.now) }
{
    let line = line_at(Spelling::Lenient, text)?;
    let point = match break_in(line.bytes) {
        Ok(point) => point,
        Err(reason) => return Err(PartFault::at(line.start, reason)),
    };
    match breaks.push(point) {
        Ok(()) => Ok(line.rest),
        Err(fault) => Err(refusal_of(fault, line.start)),
    }
}

/// The fault of the line with which the text begins, if its breakpoint cannot follow.
fn refusal_of(fault: BreakFault, text: &[u8]) -> PartFault
    ensures { result ≡ refusal_of fault (length text.now) }
{
    match fault {
        BreakFault::Break => PartFault::at(text, Reason::Break),
        BreakFault::Pieces => PartFault::at(text, Reason::Pieces),
        BreakFault::Large => PartFault::at(text, Reason::Large),
        BreakFault::Fine => PartFault::at(text, Reason::Fine),
        BreakFault::Memory(error) => PartFault::Memory(error),
    }
}

/// The function of the breakpoints, whose line `end` comes next, and what follows that line.
fn last_at<'a>(
    alloc: Global,
    text: &'a [u8],
    breaks: &Breaks,
) -> Result<(Shape, &'a [u8]), PartFault>
    requires some { breaks.now.breaks ≢ [] }
    ensures { IsReading (line_part Spelling.Lenient (end_rule breaks.now)) text.now result }
{
    let line = line_at(Spelling::Lenient, text)?;
    if !has_words(line.bytes, b"end") {
        return Err(PartFault::at(line.start, Reason::Form));
    }
    match breaks.shape(alloc) {
        Ok(shape) => Ok((shape, line.rest)),
        Err(fault) => Err(end_refusal(fault, line.start)),
    }
}

/// The fault of the line `end` with which the text begins, if the breakpoints give no function.
fn end_refusal(fault: ShapeFault, text: &[u8]) -> PartFault
    ensures { result ≡ end_refusal fault (length text.now) }
{
    match fault {
        ShapeFault::Memory(error) => PartFault::Memory(error),
        _ => PartFault::at(text, Reason::Fine),
    }
}
