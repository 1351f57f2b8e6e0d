//! The order and the place of a function, read.
ghost use Rattle.std.specs.Prelude.{◌≡◌, ◌↔◌, IfSome, IfNone, IfOk, IfErr, IsTrue};
ghost use Rattle.std.specs.Str.Parse.{digits_value};
ghost use Rattle.gj_lex.specs.Words.{word_texts};
ghost use Rattle.gj_lex.specs.SpelledNumbers.{IsCountWord};
ghost use Rattle.gj_forms.specs.Parts.{line_part, IsReading};
ghost use Rattle.gj_shape.specs.Given.{IsOrder};
ghost use Rattle.gj_function_lines.specs.FunctionGrammar.{order_rule, place_rule};

use crate::place::place_of;
use gj_forms::{PartFault, field_of, line_at};
use gj_lex::{Reason, Spelling, count_of, fraction_of, is_count};
use gj_shape::GREATEST_ORDER;

/// The order in the next line, from 2 to 1,000, and what follows the line.
pub(crate) fn order_at(spelling: Spelling, text: &[u8]) -> Result<(u32, &[u8]), PartFault>
    ensures { IsReading (line_part spelling (order_rule spelling)) text.now result }
{
    let line = line_at(spelling, text)?;
    line.with_rest(order_in(spelling, line.bytes))
}

/// The order that the line gives, or the rule that it breaks first.
fn order_in(spelling: Spelling, line: &[u8]) -> Result<u32, Reason>
    ensures found { IfOk result ((order_rule spelling).Spells (word_texts line.now)) }
    ensures broken { IfErr result ((order_rule spelling).Breaks (word_texts line.now)) }
{
    let Some(word) = field_of(line, b"order") else {
        return Err(Reason::Form);
    };
    if !is_count(spelling, word) {
        return Err(Reason::Number);
    }
    match order_of(spelling, word) {
        Some(order) => Ok(order),
        None => Err(Reason::Order),
    }
}

/// The order that the word spells, if it is from 2 to 1,000.
fn order_of(spelling: Spelling, word: &[u8]) -> Option<u32>
    requires { IsCountWord spelling word.now (digits_value 10 word.now) }
    ensures found { IfSome result (IsCountWord spelling word.now) }
    ensures order { IfSome result IsOrder }
    ensures none { IfNone result (IsOrder (digits_value 10 word.now) → ⊥) }
{
    let order = count_of(spelling, word)?;
    if !is_order(order) {
        return None;
    }
    Some(order)
}

/// Whether the order is from 2 to 1,000.
fn is_order(order: u32) -> bool
    ensures { IsTrue result ↔ IsOrder order }
{
    (2..=GREATEST_ORDER).contains(&order)
}

/// The place of the order in the next line, and what follows the line.
pub(crate) fn place_at(
    spelling: Spelling,
    text: &[u8],
    order: u32,
) -> Result<(u32, &[u8]), PartFault>
    requires { IsOrder order }
    ensures { IsReading (line_part spelling (place_rule spelling order)) text.now result }
{
    let line = line_at(spelling, text)?;
    line.with_rest(place_in(spelling, line.bytes, order))
}

/// The place that the line gives, or the rule that it breaks first.
fn place_in(spelling: Spelling, line: &[u8], order: u32) -> Result<u32, Reason>
    requires { IsOrder order }
    ensures found { IfOk result ((place_rule spelling order).Spells (word_texts line.now)) }
    ensures broken { IfErr result ((place_rule spelling order).Breaks (word_texts line.now)) }
{
    let Some(word) = field_of(line, b"f") else {
        return Err(Reason::Form);
    };
    let Some(fraction) = fraction_of(spelling, word) else {
        return Err(Reason::Number);
    };
    match place_of(fraction, order) {
        Some(place) => Ok(place),
        None => Err(Reason::Place),
    }
}
