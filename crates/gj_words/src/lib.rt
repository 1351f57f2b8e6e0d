//! The words of the command line as one grammar.
//!
//! A command line is one command word, `minimal`, `extreme`, `cut`, `check`, `show`, `faces`,
//! `mixed`, `problem`, `derive`, `fill`, `group`, `mirror`, `demo`, `restrict` or `times`, and behind
//! `demo` one number from 1 to 249, behind `restrict` one from 2 to 1,000, and behind `times` two,
//! the first from 1 to 500, the second from 0 on below the first; each in digits, without a leading
//! zero unless it is `0`. The flag `--json` may stand once, at any place, with `minimal`, `extreme`
//! and `show`, and so may the flag `--jumps` with `extreme` and `faces`. Every other word that
//! begins with `-` is refused, so `--` and `--help` are.
//!
//! The grammar stands in `specs/Grammar.antt`, which says what words spell what request, and
//! `one_request` says that they spell at most one. `read_words` gives that request. One word alone
//! is the command word. All other words but the flags it tells apart by the crate `clap`, which
//! knows a command line as three positionals; how often a flag stands, which words begin with `-`
//! and what the numbers are, are tests of this crate's own.
#![tactic(auto)]

mod flags;
mod laws;
mod line;
mod number;
mod reading;
mod requests;

pub use laws::one_request;
pub use reading::read_words;
pub use requests::{Command, Request, WordFault};
