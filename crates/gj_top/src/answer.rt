//! The answer to words and an input, before it is written.
ghost use Rattle.std.specs.Prelude.{◌≡◌, ◌≤◌, length, IfOk, OnErr};
ghost use Rattle.gj_port.specs.Runs.{IsSourceFault};
ghost use Rattle.gj_top.specs.InputRead.{input_limit};
ghost use Rattle.gj_words.specs.Grammar.{IsInBounds};
ghost use Rattle.gj_top.specs.Command.{task_for};
ghost use Rattle.gj_top.specs.Answer.{IsAnswer, IsAnswerTo, IsUnanswered, answer_status};
ghost use Rattle.gj_top.specs.Answer.{answer_text};

use crate::command::{reads_input, reply_to, request_of};
use crate::reply::{Reply, Unanswered};
use crate::status::Status;
use gj_port::{ReadError, Source, read_all};
use gj_words::Request;
use std::alloc::{AllocError, Global};

/// The most bytes that are read of an input.
const INPUT_LIMIT: usize = 16_777_216;

/// What a run writes: a reply, or the line that says why there is none. The three lines that the
/// program always has take no memory.
#[derive(Drop)]
pub enum Answer {
    /// The words name no request.
    NoRequest,
    /// The source failed.
    ReadFault,
    /// The input is longer than the limit.
    TooLong,
    /// The input is outside its form, and this line says why.
    Refused(Vec<u8>),
    /// The reply to the input.
    Replied(Reply),
}

impl Answer {
    /// How the run ends, once the answer is written.
    pub(crate) fn status(&self) -> Status
        ensures { result ≡ answer_status self.now }
    {
        match self {
            Answer::NoRequest => Status::Words,
            Answer::ReadFault => Status::ReadFault,
            Answer::TooLong | Answer::Refused(_) => Status::Input,
            Answer::Replied(reply) => reply.end.status(),
        }
    }

    /// What is to be written.
    pub(crate) fn text(&self) -> &[u8]
        ensures { result.now ≡ answer_text self.now }
    {
        match self {
            Answer::NoRequest => b"words refused\n",
            Answer::ReadFault => b"read fault\n",
            Answer::TooLong => b"refused long\n",
            Answer::Refused(line) => line.as_slice(),
            Answer::Replied(reply) => reply.text.as_slice(),
        }
    }
}

/// The answer to the words, over an input from the source if they name a request that reads one.
pub(crate) fn answer_to<S: Source>(
    alloc: Global,
    words: &[String],
    source: &mut S,
) -> Result<Answer, AllocError>
    ensures answer { IfOk result (λ answer.
        IsAnswer words.now (IsSourceFault (S.steady source.old) (S.faults source.old)
        (S.faults source.new))
        (S.left source.old) (S.left source.new) (answer_status answer) (answer_text answer)) }
    ensures memory { OnErr result (IsUnanswered words.now (S.left source.old) (S.left source.new)) }
    ensures count { S.faults source.old ≤ S.faults source.new }
{
    let Some(request) = request_of(alloc, words)? else {
        return Ok(Answer::NoRequest);
    };
    if !reads_input(request) {
        return answer_of(alloc, request, b"");
    }
    match read_all(alloc, source, INPUT_LIMIT) {
        Ok(input) => answer_of(alloc, request, input.as_slice()),
        Err(ReadError::ReadFault) => Ok(Answer::ReadFault),
        Err(ReadError::TooLong) => Ok(Answer::TooLong),
        Err(ReadError::Memory(error)) => Err(error),
    }
}

/// The answer to the request over an input within the limit, or over none if it reads none.
fn answer_of(alloc: Global, request: Request, input: &[u8]) -> Result<Answer, AllocError>
    requires in_bounds { IsInBounds request.command }
    requires within { length input.now ≤ input_limit }
    ensures { IfOk result (λ answer. IsAnswerTo (task_for request) input.now (answer_status answer)
        (answer_text answer)) }
{
    match reply_to(alloc, request, input) {
        Ok(reply) => Ok(Answer::Replied(reply)),
        Err(Unanswered::Refused(line)) => Ok(Answer::Refused(line)),
        Err(Unanswered::Memory(error)) => Err(error),
    }
}
