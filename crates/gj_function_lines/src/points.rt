//! The points of a function, read.
ghost use Rattle.std.specs.Prelude.{◌≡◌, ◌↔◌, ◌++◌, [], ◌∷◌, ℕ, List, length, codes, IsTrue};
ghost use Rattle.std.specs.Prelude.{IfSome, IfNone, IfOk, IfErr, OnOk, All};
ghost use Rattle.gj_lex.specs.Words.{word_texts};
ghost use Rattle.gj_forms.specs.Parts.{line_part, IsFaultOf, IsReading};
ghost use Rattle.gj_shape.specs.Given.{IsSmall, HasCommonDenominator};
ghost use Rattle.gj_shape.specs.Points.{all_fractions, IsPointFault};
ghost use Rattle.gj_shape.specs.declared.points.Point.{Point};
ghost use Rattle.gj_function_lines.specs.FunctionGrammar.{AreThreeSame, spelled_point_rule};
ghost use Rattle.gj_function_lines.specs.FunctionGrammar.{point_rule, points_part};
ghost use Rattle.gj_function_lines.specs.Reading.{words_of_point, IsOneOrThree, numbers_rule};
ghost use Rattle.gj_function_lines.specs.Reading.{IsPointLine, point_of_printed, refusal_of};
ghost use Rattle.gj_function_lines.specs.declared.points.PointWords.{PointWords};

use crate::printed::{PrintedPoint, printed_point};
use gj_forms::{PartFault, behind_name, has_no_word, line_at, split_word};
use gj_lex::{Reason, Spelling, fraction_of};
use gj_shape::{Point, PointFault, Points};
use std::alloc::Global;

/// The words of a point.
#[derive(Clone, Copy)]
pub(crate) enum PointWords<'a> {
    /// One fraction for the value and both limits.
    One(&'a [u8]),
    /// The limit from the left, the value and the limit from the right.
    Three(&'a [u8], &'a [u8], &'a [u8]),
}

/// The line of a point in a text.
#[derive(Clone, Copy)]
struct PointLine<'a> {
    /// The text from the line on.
    start: &'a [u8],
    /// The point that the line spells.
    point: Point,
    /// What follows the line.
    rest: &'a [u8],
}

/// The points of the next lines, as many as `count`, and what follows them.
pub(crate) fn points_at(
    alloc: Global,
    spelling: Spelling,
    text: &[u8],
    count: u32,
) -> Result<(Points, &[u8]), PartFault>
    ensures { IsReading (points_part spelling count []) text.now result }
{
    let mut points = Points::with_room(alloc, count as usize)?;
    let mut rest = text;
    for _ in 0..count {
        rest = point_at(spelling, rest, &mut points)?;
    }
    Ok((points, rest))
}

/// Reads the point of the next line to the points, and gives what follows the line. A line in the
/// form in which it is printed is read in one pass, without the search for words.
fn point_at<'a>(
    spelling: Spelling,
    text: &'a [u8],
    points: &mut Points,
) -> Result<&'a [u8], PartFault>
    ensures found { IfOk result (λ rest. (p : Point) × (points.new ≡ points.old ++ p ∷ [])
        × (line_part spelling (point_rule spelling points.old)).Reads text.now p rest.now) }
    ensures fault { IfErr result (IsFaultOf (line_part spelling
        (point_rule spelling points.old)) text.now) }
{
    let Some((printed, rest)) = printed_point(text) else {
        return spelled_point_at(spelling, text, points);
    };
    match push_printed(points, printed) {
        Ok(()) => Ok(rest),
        Err(fault) => Err(refusal_of(fault, text)),
    }
}

/// Adds the point behind the others, with the tests of `push`.
fn push_printed(points: &mut Points, printed: PrintedPoint) -> Result<(), PointFault>
    ensures ok { OnOk result (points.new ≡ points.old ++ point_of_printed printed ∷ []) }
    ensures small { OnOk result (All IsSmall (all_fractions points.new)) }
    ensures common { OnOk result (HasCommonDenominator (all_fractions points.new)) }
    ensures fault { IfErr result (IsPointFault points.old (point_of_printed printed)) }
{
    match printed {
        PrintedPoint::Value(value) => points.push_value(value),
        PrintedPoint::Jump(point) => points.push(point),
    }
}

/// The same for a line in any form.
fn spelled_point_at<'a>(
    spelling: Spelling,
    text: &'a [u8],
    points: &mut Points,
) -> Result<&'a [u8], PartFault>
    ensures found { IfOk result (λ rest. (p : Point) × (points.new ≡ points.old ++ p ∷ [])
        × (line_part spelling (point_rule spelling points.old)).Reads text.now p rest.now) }
    ensures fault { IfErr result (IsFaultOf (line_part spelling
        (point_rule spelling points.old)) text.now) }
{
    let line = point_line_at(spelling, text)?;
    match points.push(line.point) {
        Ok(()) => Ok(line.rest),
        Err(fault) => Err(refusal_of(fault, line.start)),
    }
}

/// The point of the next line.
fn point_line_at(spelling: Spelling, text: &[u8]) -> Result<PointLine<'_>, PartFault>
    ensures found { IfOk result
        (λ l. IsPointLine spelling text.now l.start.now l.rest.now l.point) }
    ensures fault { IfErr result (λ e. (points : List Point) →
        IsFaultOf (line_part spelling (point_rule spelling points)) text.now e) }
{
    let line = line_at(spelling, text)?;
    match point_in(spelling, line.bytes) {
        Ok(point) => Ok(PointLine {
            start: line.start,
            point,
            rest: line.rest,
        }),
        Err(reason) => Err(PartFault::at(line.start, reason)),
    }
}

/// The fault of the line with which the text begins, if its point cannot follow.
fn refusal_of(fault: PointFault, text: &[u8]) -> PartFault
    ensures { result ≡ refusal_of fault (length text.now) }
{
    match fault {
        PointFault::Large => PartFault::at(text, Reason::Large),
        PointFault::Fine => PartFault::at(text, Reason::Fine),
        PointFault::Memory(error) => PartFault::Memory(error),
    }
}

/// The point that the line gives, or the rule on its form and its numbers that it breaks first.
fn point_in(spelling: Spelling, line: &[u8]) -> Result<Point, Reason>
    ensures found { IfOk result ((spelled_point_rule spelling).Spells (word_texts line.now)) }
    ensures broken { IfErr result ((spelled_point_rule spelling).Breaks (word_texts line.now)) }
{
    let Some(words) = point_words(line) else {
        return Err(Reason::Form);
    };
    if are_three_same(spelling, words) {
        return Err(Reason::Form);
    }
    match point_of(spelling, words) {
        Some(point) => Ok(point),
        None => Err(Reason::Number),
    }
}

/// The words behind `point` in the line, if they are one or three.
fn point_words(line: &[u8]) -> Option<PointWords<'_>>
    ensures found { IfSome result (λ p. word_texts line.now ≡ codes "point" ∷ words_of_point p) }
    ensures none { IfNone result ((words : List (List ℕ)) →
        word_texts line.now ≡ codes "point" ∷ words → IsOneOrThree words → ⊥) }
{
    fractions_in(behind_name(line, b"point")?)
}

/// The words, if they are one or three.
pub(crate) fn fractions_in(words: &[u8]) -> Option<PointWords<'_>>
    ensures found { IfSome result (λ p. word_texts words.now ≡ words_of_point p) }
    ensures none { IfNone result (IsOneOrThree (word_texts words.now) → ⊥) }
{
    let (first, rest) = split_word(words)?;
    let Some((second, rest)) = split_word(rest) else {
        return Some(PointWords::One(first));
    };
    let (third, rest) = split_word(rest)?;
    if !has_no_word(rest) {
        return None;
    }
    Some(PointWords::Three(first, second, third))
}

/// Whether the words are three that are all the same, which strict spelling does not allow.
fn are_three_same(spelling: Spelling, words: PointWords<'_>) -> bool
    ensures { IsTrue result ↔ AreThreeSame spelling (codes "point" ∷ words_of_point words.entry) }
{
    match (spelling, words) {
        (Spelling::Strict, PointWords::Three(first, second, third)) => {
            first == second && second == third
        }
        _ => false,
    }
}

/// The point that the words spell.
pub(crate) fn point_of(spelling: Spelling, words: PointWords<'_>) -> Option<Point>
    ensures found { IfSome result ((numbers_rule spelling).Spells (words_of_point words.entry)) }
    ensures none { IfNone result ((p : Point) → (numbers_rule spelling).Spells
        (words_of_point words.entry) p → ⊥) }
{
    match words {
        PointWords::One(word) => {
            let value = fraction_of(spelling, word)?;
            Some(Point {
                left: value,
                value,
                right: value,
            })
        }
        PointWords::Three(first, second, third) => Some(Point {
            left: fraction_of(spelling, first)?,
            value: fraction_of(spelling, second)?,
            right: fraction_of(spelling, third)?,
        }),
    }
}
