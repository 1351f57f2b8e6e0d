//! The lines of a problem text, read.
ghost use Rattle.std.specs.Prelude.{◌≡◌, ◌∷◌, ◌++◌, [], ℕ, Bool, List, codes, replicate};
ghost use Rattle.std.specs.Prelude.{IfSome, IfNone, IfOk, IfErr};
ghost use Rattle.gj_forms.specs.LineFaults.{IsRefusedFor};
ghost use Rattle.gj_lex.specs.Words.{word_texts};
ghost use Rattle.gj_problem.specs.Sparse.{no_fraction};
ghost use Rattle.gj_problem.specs.declared.problem.Sense.{Sense};
ghost use Rattle.gj_problem_text.specs.ProblemLines.{kind_word, sense_word, told_rule};
ghost use Rattle.gj_problem_text.specs.LinesRead.{line_told};

use crate::numbers::number_of;
use gj_forms::{LineFault, only_word, split_word};
use gj_frac::Frac;
use gj_lex::{Reason, Spelling, count_of};
use gj_problem::{Sense, Sparse};
use std::alloc::{AllocError, Global};

/// A line with what it tells: names and bounds as they are spelled.
#[derive(Drop)]
pub enum Line<'a> {
    /// A column: its name, whether it is whole, and the words of its bounds.
    Column(&'a [u8], bool, &'a [u8], &'a [u8]),
    /// A constraint: its name, its sense and its right side.
    Constraint(&'a [u8], Sense, Frac),
    /// An entry of the constraint before: the name of its column, and its value.
    Entry(&'a [u8], Frac),
    /// The column with this name is turned by its upper bound.
    Upper(&'a [u8]),
    /// A multiplier for each constraint.
    Sum(Sparse),
    /// The cuts are rounded to multiples of one over this.
    Grid(u32),
    /// They are made with all data on the grid of one over this.
    Round(u32),
}

/// What the line tells.
///
/// `Broken` has the reason, and comes exactly if the line tells nothing; `Memory` is want of
/// memory.
pub fn line_in(alloc: Global, line: &[u8]) -> Result<Line<'_>, LineFault>
    ensures told { IfOk result (λ l. told_rule.Spells (word_texts line.now) (line_told l)) }
    ensures broken { IfErr result (IsRefusedFor (told_rule.Breaks (word_texts line.now))) }
{
    let Some((word, rest)) = split_word(line) else {
        return Err(LineFault::Broken(Reason::Form));
    };
    if word == b"sum".as_slice() {
        return sum_in(alloc, rest);
    }
    match line_with(word, rest) {
        Ok(told) => Ok(told),
        Err(reason) => Err(LineFault::Broken(reason)),
    }
}

/// What a line tells that begins with the word, another than `sum`, and goes on so.
fn line_with<'a>(word: &[u8], rest: &'a [u8]) -> Result<Line<'a>, Reason>
    requires { word.now ≡ codes "sum" → ⊥ }
    ensures told { IfOk result (λ l. told_rule.Spells (word.now ∷ word_texts rest.now)
        (line_told l)) }
    ensures broken { IfErr result (told_rule.Breaks (word.now ∷ word_texts rest.now)) }
{
    if word == b"entry".as_slice() {
        return entry_in(rest);
    }
    if word == b"column".as_slice() {
        return column_in(rest);
    }
    if word == b"constraint".as_slice() {
        return constraint_in(rest);
    }
    if word == b"upper".as_slice() {
        return upper_in(rest);
    }
    if word == b"grid".as_slice() {
        return grid_in(rest);
    }
    if word == b"round".as_slice() {
        return round_in(rest);
    }
    Err(Reason::Form)
}

/// What `column` tells with these words behind it.
fn column_in(rest: &[u8]) -> Result<Line<'_>, Reason>
    ensures told { IfOk result (λ l. told_rule.Spells (codes "column" ∷ word_texts rest.now)
        (line_told l)) }
    ensures broken { IfErr result (told_rule.Breaks (codes "column" ∷ word_texts rest.now)) }
{
    let Some((name, is_whole, lower, upper)) = column_words(rest) else {
        return Err(Reason::Form);
    };
    Ok(Line::Column(name, is_whole, lower, upper))
}

/// The name, the kind and the words of the bounds of a column.
fn column_words(rest: &[u8]) -> Option<(&[u8], bool, &[u8], &[u8])>
    ensures found { IfSome result (λ r. word_texts rest.now
        ≡ r.0.now ∷ kind_word r.1 ∷ r.2.now ∷ r.3.now ∷ []) }
    ensures none { IfNone result ((name : List ℕ) (is_whole : Bool) (low high : List ℕ) →
        word_texts rest.now ≡ name ∷ kind_word is_whole ∷ low ∷ high ∷ [] → ⊥) }
{
    let (name, rest) = split_word(rest)?;
    let (kind, rest) = split_word(rest)?;
    let is_whole = kind_of(kind)?;
    let (lower, rest) = split_word(rest)?;
    let upper = only_word(rest)?;
    Some((name, is_whole, lower, upper))
}

/// Whether a column of this kind is whole.
fn kind_of(word: &[u8]) -> Option<bool>
    ensures found { IfSome result (λ is_whole. word.now ≡ kind_word is_whole) }
    ensures none { IfNone result ((is_whole : Bool) → word.now ≡ kind_word is_whole → ⊥) }
{
    if word == b"whole".as_slice() {
        return Some(true);
    }
    if word == b"continuous".as_slice() {
        return Some(false);
    }
    None
}

/// What `constraint` tells with these words behind it.
fn constraint_in(rest: &[u8]) -> Result<Line<'_>, Reason>
    ensures told { IfOk result (λ l. told_rule.Spells (codes "constraint" ∷ word_texts rest.now)
        (line_told l)) }
    ensures broken { IfErr result (told_rule.Breaks (codes "constraint" ∷ word_texts rest.now)) }
{
    let Some((name, sense, right)) = constraint_words(rest) else {
        return Err(Reason::Form);
    };
    let Some(right) = number_of(right) else {
        return Err(Reason::Number);
    };
    Ok(Line::Constraint(name, sense, right))
}

/// The name, the sense and the word of the right side of a constraint.
fn constraint_words(rest: &[u8]) -> Option<(&[u8], Sense, &[u8])>
    ensures found { IfSome result (λ r. word_texts rest.now
        ≡ r.0.now ∷ sense_word r.1 ∷ r.2.now ∷ []) }
    ensures none { IfNone result ((name : List ℕ) (sense : Sense) (right : List ℕ) →
        word_texts rest.now ≡ name ∷ sense_word sense ∷ right ∷ [] → ⊥) }
{
    let (name, rest) = split_word(rest)?;
    let (word, rest) = split_word(rest)?;
    let sense = sense_of(word)?;
    let right = only_word(rest)?;
    Some((name, sense, right))
}

/// The sense that the word names.
fn sense_of(word: &[u8]) -> Option<Sense>
    ensures found { IfSome result (λ sense. word.now ≡ sense_word sense) }
    ensures none { IfNone result ((sense : Sense) → word.now ≡ sense_word sense → ⊥) }
{
    if word == b"<=".as_slice() {
        return Some(Sense::AtMost);
    }
    if word == b">=".as_slice() {
        return Some(Sense::AtLeast);
    }
    if word == b"=".as_slice() {
        return Some(Sense::Equal);
    }
    None
}

/// What `entry` tells with these words behind it.
fn entry_in(rest: &[u8]) -> Result<Line<'_>, Reason>
    ensures told { IfOk result (λ l. told_rule.Spells (codes "entry" ∷ word_texts rest.now)
        (line_told l)) }
    ensures broken { IfErr result (told_rule.Breaks (codes "entry" ∷ word_texts rest.now)) }
{
    let Some((name, word)) = two_words(rest) else {
        return Err(Reason::Form);
    };
    let Some(value) = number_of(word) else {
        return Err(Reason::Number);
    };
    Ok(Line::Entry(name, value))
}

/// The two words of the line, if it has two.
#[inline(always)]
pub fn two_words(line: &[u8]) -> Option<(&[u8], &[u8])>
    ensures found { IfSome result (λ r. word_texts line.now ≡ r.0.now ∷ r.1.now ∷ []) }
    ensures none { IfNone result ((first second : List ℕ) →
        word_texts line.now ≡ first ∷ second ∷ [] → ⊥) }
{
    let (first, rest) = split_word(line)?;
    let second = only_word(rest)?;
    Some((first, second))
}

/// What `upper` tells with these words behind it.
fn upper_in(rest: &[u8]) -> Result<Line<'_>, Reason>
    ensures told { IfOk result (λ l. told_rule.Spells (codes "upper" ∷ word_texts rest.now)
        (line_told l)) }
    ensures broken { IfErr result (told_rule.Breaks (codes "upper" ∷ word_texts rest.now)) }
{
    let Some(name) = only_word(rest) else {
        return Err(Reason::Form);
    };
    Ok(Line::Upper(name))
}

/// What `grid` tells with these words behind it.
fn grid_in(rest: &[u8]) -> Result<Line<'_>, Reason>
    ensures told { IfOk result (λ l. told_rule.Spells (codes "grid" ∷ word_texts rest.now)
        (line_told l)) }
    ensures broken { IfErr result (told_rule.Breaks (codes "grid" ∷ word_texts rest.now)) }
{
    let Some(word) = only_word(rest) else {
        return Err(Reason::Form);
    };
    let Some(grid) = count_of(Spelling::Lenient, word) else {
        return Err(Reason::Number);
    };
    if grid == 0 {
        return Err(Reason::Number);
    }
    Ok(Line::Grid(grid))
}

/// What `round` tells with these words behind it.
fn round_in(rest: &[u8]) -> Result<Line<'_>, Reason>
    ensures told { IfOk result (λ l. told_rule.Spells (codes "round" ∷ word_texts rest.now)
        (line_told l)) }
    ensures broken { IfErr result (told_rule.Breaks (codes "round" ∷ word_texts rest.now)) }
{
    let Some(word) = only_word(rest) else {
        return Err(Reason::Form);
    };
    let Some(grid) = count_of(Spelling::Lenient, word) else {
        return Err(Reason::Number);
    };
    if grid == 0 {
        return Err(Reason::Number);
    }
    Ok(Line::Round(grid))
}

/// What `sum` tells with these words behind it.
fn sum_in(alloc: Global, rest: &[u8]) -> Result<Line<'_>, LineFault>
    ensures told { IfOk result (λ l. told_rule.Spells (codes "sum" ∷ word_texts rest.now)
        (line_told l)) }
    ensures broken { IfErr result
        (IsRefusedFor (told_rule.Breaks (codes "sum" ∷ word_texts rest.now))) }
{
    let mut multipliers = Sparse::new(alloc);
    let mut left = with_zeros(&mut multipliers, rest)?;
    while let Some((word, behind)) = split_word(left) {
        let Some(multiplier) = number_of(word) else {
            return Err(LineFault::Broken(Reason::Number));
        };
        multipliers.push(multiplier)?;
        left = with_zeros(&mut multipliers, behind)?;
    }
    Ok(Line::Sum(multipliers))
}

/// Appends a 0 for each word `0` that the line begins with, and gives what stands behind them. Most
/// multipliers are 0: that word is known without more.
fn with_zeros<'a>(multipliers: &mut Sparse, line: &'a [u8]) -> Result<&'a [u8], AllocError>
    ensures { IfOk result (λ left. (n : ℕ)
        × (word_texts line.now ≡ replicate n (codes "0") ++ word_texts left.now)
        × (multipliers.new ≡ multipliers.old ++ replicate n no_fraction)) }
{
    let mut left = line;
    while let Some(behind) = behind_zero(left) {
        multipliers.push_zero()?;
        left = behind;
    }
    Ok(left)
}

/// What stands behind the word `0`, if the line begins with it and one blank before and behind it.
#[inline(always)]
fn behind_zero(line: &[u8]) -> Option<&[u8]>
    ensures { IfSome result (λ r. word_texts line.now ≡ codes "0" ∷ word_texts r.now) }
{
    if line.len() < 3 || line[0] != b' ' || line[1] != b'0' || line[2] != b' ' {
        return None;
    }
    Some(&line[2..])
}
