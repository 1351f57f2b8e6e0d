//! The flags among the words, and the words without them.

ghost use Rattle.std.specs.Prelude.{◌≡◌, ◌<◌, ◌≤◌, map, IfErr, IfOk};
ghost use Rattle.std.specs.String.{string_bytes};
ghost use Rattle.gj_words.specs.Bare.{bare_words, flag_count, has_flag, is_flag};
ghost use Rattle.gj_words.specs.Grammar.{json_word, jumps_word};

use crate::requests::WordFault;
use std::alloc::{AllocError, Global};

/// The word of the flag for functions and answers in JSON.
pub(crate) const JSON: &str = "--json";

/// The word of the flag for functions that jump.
pub(crate) const JUMPS: &str = "--jumps";

/// Whether the flag stands among the words; it is refused if it stands there more than once.
pub(crate) fn has_flag(words: &[String], flag: &str) -> Result<bool, WordFault>
    ensures given { IfOk result (λ given. given ≡ has_flag flag.now (map string_bytes words.now)) }
    ensures once { IfOk result (λ given. flag_count flag.now (map string_bytes words.now) ≤ 1) }
    ensures again { IfErr result (λ fault. 1 < flag_count flag.now (map string_bytes words.now)) }
{
    match count_of(words, flag) {
        0 => Ok(false),
        1 => Ok(true),
        _ => Err(WordFault::Refused),
    }
}

/// How often the flag stands among the words.
fn count_of(words: &[String], flag: &str) -> usize
    ensures { result ≡ flag_count flag.now (map string_bytes words.now) }
{
    words
        .iter()
        .filter(|word| is_flag(word.as_str(), flag))
        .count()
}

/// Whether the word is the flag.
fn is_flag(word: &str, flag: &str) -> bool
    ensures { result ≡ is_flag flag.now word.now }
{
    word == flag
}

/// The words that are no flags.
pub(crate) fn bare_words<'a>(alloc: Global, words: &'a [String]) -> Result<Vec<&'a str>, AllocError>
    ensures { IfOk result (λ bare. map (λ word. word.now) bare.items ≡
        bare_words (map string_bytes words.entry.now)) }
{
    let mut bare = Vec::new(alloc);
    for word in words {
        let word = word.as_str();
        if !is_flag(word, JSON) && !is_flag(word, JUMPS) {
            bare.push(word)?;
        }
    }
    Ok(bare)
}
