//! Rule texts, read.
ghost use Rattle.std.specs.Prelude.{◌≡◌, ◌≤◌, ◌↔◌, List, ℕ, drop, length, IfOk, IfErr, MatchResult};
ghost use Rattle.std.specs.Prelude.{IsTrue};
ghost use Rattle.gj_forms.specs.Parts.{IsRefusal, IsPassing};
ghost use Rattle.gj_function_text.specs.RuleText.{rule_text, IsRuleText, IsFirstFaultOfRule};
ghost use Rattle.gj_function_text.specs.RuleText.{BeginsAsRule};

use gj_forms::{PartFault, begins_with_word, line_number, words_at};
use gj_lex::{Reason, Spelling};

/// Whether the text begins as a rule text: whether the first word of its first line that is not
/// skipped is `gj-rule`. It takes no memory.
pub fn begins_as_rule(bytes: &[u8]) -> bool
    ensures { IsTrue result ↔ BeginsAsRule bytes.now }
{
    begins_with_word(Spelling::Lenient, bytes, b"gj-rule")
}

/// The number of bytes up to and with the line `end` of the rule text at the front of the bytes:
/// the lines `gj-rule 1`, `gmic` and `end`. It takes no memory.
///
/// The error is the line and the reason of the first fault, and comes exactly if no first lines of
/// the bytes are a rule text. Lines are numbered from 1; if the bytes end too early, the number is
/// that of their LF and one.
pub fn read_rule(bytes: &[u8]) -> Result<usize, (u64, Reason)>
    // What is read is spelled so.
    ensures found { IfOk result (λ n. (n ≤ length bytes.now) ×
        IsRuleText bytes.now (drop n bytes.now)) }
    // What is spelled so is read.
    ensures only { (rest : List ℕ) → IsRuleText bytes.now rest →
        MatchResult result (λ n. drop n bytes.now ≡ rest) (λ e. ⊥) }
    // A refusal names the first fault.
    ensures refused { IfErr result (λ e. IsFirstFaultOfRule bytes.now e.0 e.1) }
{
    match rule_text_at(bytes) {
        Ok(rest) => Ok(bytes.len() - rest.len()),
        Err(PartFault::Refused(left, reason)) => Err((line_number(bytes, left), reason)),
        Err(PartFault::Memory(_)) => unreachable!(),
    }
}

/// What follows the line `end` of the rule text at the front.
fn rule_text_at(text: &[u8]) -> Result<&[u8], PartFault>
    ensures passed { IsPassing rule_text text.now result }
    ensures no_memory { IfErr result IsRefusal }
{
    let rest = words_at(Spelling::Lenient, text, b"gj-rule 1")?;
    let rest = words_at(Spelling::Lenient, rest, b"gmic")?;
    let rest = words_at(Spelling::Lenient, rest, b"end")?;
    Ok(rest)
}
