//! A command line, its words told apart; where there are several, by `clap`.

ghost use Rattle.std.specs.Prelude.{◌≡◌, ◌≢◌, ◌↔◌, ◌++◌, map, not, option_map, None, Err, IfOk};
ghost use Rattle.std.specs.List.{list_all};
ghost use Rattle.std.specs.Option.{option_to_list};
ghost use Rattle.gj_words.specs.Bare.{begins_with_hyphen};
ghost use Rattle.gj_words.specs.Line.{AreNoLine, words_behind, words_of};
ghost use Rattle.gj_words.specs.Parser.{our_app};
ghost use Rattle.clap.specs.Words.{app_of, kind_of};

use crate::requests::WordFault;
use clap::Arg;
use clap::error::ErrorKind;
use std::alloc::{AllocError, Global};

/// The words of a command line but for its flags, told apart.
#[derive(Clone, Copy)]
pub(crate) struct Line<'a> {
    /// The first word.
    pub(crate) name: &'a str,
    /// The others.
    pub(crate) operands: Operands<'a>,
}

/// The words behind the command word.
#[derive(Clone, Copy)]
pub(crate) enum Operands<'a> {
    /// There is none.
    Nothing,
    /// There is one.
    One(&'a str),
    /// There are two.
    Two(&'a str, &'a str),
}

/// The command line of these words, among which there are no flags.
///
/// Most lines are one word alone, the command word. That is told without `clap`.
///
/// `Refused` exactly if one of them begins with `-`, or they are none or more than three.
pub(crate) fn parse<'a>(alloc: Global, words: &'a [&'a str]) -> Result<Line<'a>, WordFault>
    ensures ok { IfOk result (λ line. map (λ word. word.now) words.entry.now ≡ words_of line) }
    ensures refused { result ≡ Err WordFault.Refused →
        AreNoLine (map (λ word. word.now) words.entry.now) }
{
    if !all_hyphenless(words) {
        return Err(WordFault::Refused);
    }
    if let [word] = words {
        return Ok(Line {
            name: word,
            operands: Operands::Nothing,
        });
    }
    let command = our_command(alloc)?;
    let matches = match command.try_get_matches_from(words) {
        Ok(matches) => matches,
        Err(error) => return Err(fault_of(&error)),
    };
    let Some(name) = matches.get_str("command") else {
        unreachable!()
    };
    let operands = operands_of(matches.get_str("first"), matches.get_str("second"));
    Ok(Line { name, operands })
}

/// Whether no word begins with `-`.
fn all_hyphenless(words: &[&str]) -> bool
    ensures { result ≡ list_all (λ word. not (begins_with_hyphen word.now)) words.now }
{
    words.iter().all(|word| !begins_with_hyphen(word))
}

/// Whether the word begins with `-`.
fn begins_with_hyphen(word: &str) -> bool
    ensures { result ≡ begins_with_hyphen word.now }
{
    word.starts_with('-')
}

/// The words behind the command word; there is no second without a first.
fn operands_of<'a>(first: Option<&'a str>, second: Option<&'a str>) -> Operands<'a>
    requires { first ≡ None → second ≡ None }
    ensures { words_behind result ≡
        option_to_list (option_map (λ word. word.now) first.entry) ++ option_to_list
        (option_map (λ word. word.now) second.entry) }
{
    match (first, second) {
        (None, _) => Operands::Nothing,
        (Some(a), None) => Operands::One(a),
        (Some(a), Some(b)) => Operands::Two(a, b),
    }
}

/// The command line as `clap` is told of it: three positionals, of which the first has to be there.
fn our_command<'a>(alloc: Global) -> Result<clap::Command<'a>, AllocError>
    ensures { IfOk result (λ command. app_of command ≡ our_app) }
{
    clap::Command::new(alloc, "gjcut")
        .no_binary_name(true)
        .disable_help_flag(true)
        .disable_version_flag(true)
        .arg(Arg::new(alloc, "command").required(true))?
        .arg(Arg::new(alloc, "first"))?
        .arg(Arg::new(alloc, "second"))
}

/// Why `clap` does not take the words.
fn fault_of(error: &clap::Error) -> WordFault
    ensures { (result ≡ WordFault.Refused) ↔ (kind_of error.now ≢ ErrorKind.OutOfMemory) }
{
    match error.kind() {
        ErrorKind::OutOfMemory => WordFault::Memory(AllocError),
        _ => WordFault::Refused,
    }
}
