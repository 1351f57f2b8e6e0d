//! The words read as a request.

ghost use Rattle.std.specs.Prelude.{◌≡◌, ◌≢◌, ◌∷◌, [], codes, map, Err, IfOk, IfSome, MatchResult};
ghost use Rattle.std.specs.String.{string_bytes};
ghost use Rattle.gj_words.specs.Grammar.{SpellRequest, takes_json, takes_jumps};
ghost use Rattle.gj_words.specs.Line.{IsCommandOf, IsRequestOf, words_behind, words_of};
ghost use Rattle.gj_words.specs.declared.requests.Command.{Command};
ghost use Rattle.gj_words.specs.declared.requests.Request.{Request};

use crate::flags::{JSON, JUMPS, bare_words, has_flag};
use crate::line::{Line, Operands, parse};
use crate::number::number_of;
use crate::requests::{Command, Request, WordFault};
use gj_shape::GREATEST_ORDER;
use std::alloc::Global;

/// The greatest number of `demo`.
const GREATEST_DEMO: u32 = 249;

/// The greatest first number of `times`: a function of order 2 has then the greatest order.
const GREATEST_FACTOR: u32 = GREATEST_ORDER / 2;

/// The request that the words spell.
///
/// `Refused` exactly if they spell none.
///
/// ```text
/// let words = [String::from_str(alloc, "--json")?, String::from_str(alloc, "show")?];
/// let request = read_words(alloc, words.as_slice())?;
/// // request is Request { command: Command::Show, json: true, jumps: false }
/// ```
pub fn read_words(alloc: Global, words: &[String]) -> Result<Request, WordFault>
    // What is read is spelled by the words.
    ensures ok { IfOk result (SpellRequest (map string_bytes words.now)) }
    // Words that spell a request are read as it, unless there is no memory.
    ensures only { (request : Request) → SpellRequest (map string_bytes words.now) request →
        MatchResult result (λ found. found ≡ request) (λ fault. fault ≢ WordFault.Refused) }
    // Words that are refused spell no request.
    ensures refused { result ≡ Err WordFault.Refused → (request : Request) →
        ¬ SpellRequest (map string_bytes words.now) request }
{
    let json = has_flag(words, JSON)?;
    let jumps = has_flag(words, JUMPS)?;
    let bare = bare_words(alloc, words)?;
    let line = parse(alloc, bare.as_slice())?;
    match request_of(&line, json, jumps) {
        Some(request) => Ok(request),
        None => Err(WordFault::Refused),
    }
}

/// The request of a command line whose words are known apart, and of the flags that are given.
fn request_of(line: &Line, json: bool, jumps: bool) -> Option<Request>
    ensures found { IfSome result (λ request. IsRequestOf (words_of line.now) json jumps request) }
    ensures only { (request : Request) → IsRequestOf (words_of line.now) json jumps request →
        result ≡ Some request }
{
    let command = command_of(line.name, line.operands)?;
    if json && !may_take_json(command) || jumps && !may_take_jumps(command) {
        return None;
    }
    Some(Request {
        command,
        json,
        jumps,
    })
}

/// Whether the flag `--json` may stand with the command.
fn may_take_json(command: Command) -> bool
    ensures { result ≡ takes_json command }
{
    matches!(command, Command::Minimal | Command::Extreme | Command::Show)
}

/// Whether the flag `--jumps` may stand with the command.
fn may_take_jumps(command: Command) -> bool
    ensures { result ≡ takes_jumps command }
{
    matches!(command, Command::Extreme | Command::Faces)
}

/// The command with this word, and these behind it.
fn command_of(name: &str, operands: Operands) -> Option<Command>
    ensures found { IfSome result (λ command. IsCommandOf name.now
        (words_behind operands.entry) command) }
    ensures only { (command : Command) → IsCommandOf name.now
        (words_behind operands.entry) command → result ≡ Some command }
{
    match operands {
        Operands::Nothing => plain_command(name),
        Operands::One(number) => command_with(name, number),
        Operands::Two(one, other) if name == "times" => times_by(one, other),
        Operands::Two(_, _) => None,
    }
}

/// The command that this word alone spells.
fn plain_command(name: &str) -> Option<Command>
    ensures found { IfSome result (λ command. IsCommandOf name.now [] command) }
    ensures only { (command : Command) → IsCommandOf name.now [] command → result ≡ Some command }
{
    match name {
        "minimal" => Some(Command::Minimal),
        "extreme" => Some(Command::Extreme),
        "cut" => Some(Command::Cut),
        "check" => Some(Command::Check),
        "show" => Some(Command::Show),
        "faces" => Some(Command::Faces),
        "mixed" => Some(Command::Mixed),
        "problem" => Some(Command::Problem),
        "derive" => Some(Command::Derive),
        "fill" => Some(Command::Fill),
        "group" => Some(Command::Group),
        "mirror" => Some(Command::Mirror),
        _ => None,
    }
}

/// The command that this word spells with the number behind it.
fn command_with(name: &str, number: &str) -> Option<Command>
    ensures found { IfSome result (λ command. IsCommandOf name.now (number.now ∷ []) command) }
    ensures only { (command : Command) → IsCommandOf name.now (number.now ∷ []) command →
        result ≡ Some command }
{
    let n = number_of(number)?;
    match name {
        "demo" if 1 <= n && n <= GREATEST_DEMO => Some(Command::Demo(n)),
        "restrict" if 2 <= n && n <= GREATEST_ORDER => Some(Command::Restrict(n)),
        _ => None,
    }
}

/// The command `times` with these two numbers.
fn times_by(factor: &str, step: &str) -> Option<Command>
    ensures found { IfSome result (λ command. IsCommandOf (codes "times")
        (factor.now ∷ step.now ∷ []) command) }
    ensures only { (command : Command) → IsCommandOf (codes "times")
        (factor.now ∷ step.now ∷ []) command → result ≡ Some command }
{
    let n = number_of(factor)?;
    let j = number_of(step)?;
    if n < 1 || n > GREATEST_FACTOR || j >= n {
        return None;
    }
    Some(Command::Times(n, j))
}
