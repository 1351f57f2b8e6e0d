//! The commands of the program: which words name one, and how each answers an input.
ghost use Rattle.std.specs.Prelude.{◌≡◌, IfOk};
ghost use Rattle.gj_words.specs.Grammar.{IsInBounds};
ghost use Rattle.gj_top.specs.Command.{IsFoundIn, promise_for, task_for};
ghost use Rattle.gj_top.specs.Promise.{reads};
ghost use Rattle.gj_top.specs.Task.{IsAnswering};

use crate::reply::{Reply, Unanswered};
use crate::{
    check, cut, demo, derive, extreme, faces, fill, group, minimal, mixed, problem, show, transform,
};
use gj_words::{Command, Request, WordFault, read_words};
use std::alloc::{AllocError, Global};

/// The request that the words name.
pub(crate) fn request_of(alloc: Global, words: &[String]) -> Result<Option<Request>, AllocError>
    ensures { IfOk result (IsFoundIn words.now) }
{
    match read_words(alloc, words) {
        Ok(request) => Ok(Some(request)),
        Err(WordFault::Refused) => Ok(None),
        Err(WordFault::Memory(error)) => Err(error),
    }
}

/// Whether the request reads an input.
pub(crate) fn reads_input(request: Request) -> bool
    ensures { result ≡ reads (promise_for request).form }
{
    match request.command {
        Command::Demo(_) => false,
        _ => true,
    }
}

/// The reply to the request over the input, or over none if it reads none.
pub(crate) fn reply_to(alloc: Global, request: Request, input: &[u8]) -> Result<Reply, Unanswered>
    requires { IsInBounds request.command }
    ensures { IsAnswering (task_for request) input.now result }
{
    match request.command {
        Command::Minimal => minimal::reply(alloc, input, request.json),
        Command::Extreme if request.jumps => {
            extreme::reply_with_jumps(alloc, input, request.json)
        }
        Command::Extreme => extreme::reply(alloc, input, request.json),
        Command::Show => show::reply(alloc, input, request.json),
        Command::Check => check::reply(alloc, input),
        Command::Faces if request.jumps => faces::reply_with_jumps(alloc, input),
        Command::Faces => faces::reply(alloc, input),
        Command::Cut => cut::reply(alloc, input),
        Command::Demo(n) => demo::reply(alloc, n),
        Command::Mixed => mixed::reply(alloc, input),
        Command::Problem => problem::reply(alloc, input),
        Command::Derive => derive::reply(alloc, input),
        Command::Fill => fill::reply(alloc, input),
        Command::Group => group::reply(alloc, input),
        Command::Times(n, j) => transform::times_reply(alloc, input, n, j),
        Command::Mirror => transform::mirror_reply(alloc, input),
        Command::Restrict(order) => transform::restrict_reply(alloc, input, order),
    }
}
