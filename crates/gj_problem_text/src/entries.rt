//! Lines of entries in the form that most of them have.
ghost use Rattle.std.specs.Prelude.{◌≡◌, ◌∷◌, codes, IfSome};
ghost use Rattle.gj_lex.specs.Words.{word_texts};
ghost use Rattle.gj_problem_text.specs.ProblemLines.{entry, told_rule};

use gj_forms::{behind_text, split_word};
use gj_frac::Frac;
use gj_lex::{behind_byte, leading_decimal};

/// The name of the column and the value that an entry line tells, if the line begins with `entry`
/// and a space, and ends with a space and a short decimal, which is read where it stands.
///
/// Other lines of entries are read word by word.
#[inline(always)]
pub(crate) fn short_entry(line: &[u8]) -> Option<(&[u8], Frac)>
    ensures { IfSome result (λ r. told_rule.Spells (word_texts line.now) (entry r.0.now r.1)) }
{
    let (name, behind) = split_word(behind_entry(line)?)?;
    let (value, rest) = leading_decimal(behind_byte(behind, b' ')?)?;
    if !rest.is_empty() {
        return None;
    }
    Some((name, value))
}

/// What stands behind `entry` and a space, if the line begins with these.
#[inline(always)]
pub(crate) fn behind_entry(line: &[u8]) -> Option<&[u8]>
    ensures { IfSome result (λ r. word_texts line.now ≡ codes "entry" ∷ word_texts r.now) }
{
    let rest = behind_text(line, b"entry ")?;
    Some(rest)
}
