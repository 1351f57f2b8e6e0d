//! The answer to words and an input in memory, before it is put into an output.
ghost use Rattle.std.specs.Prelude.{◌≡◌, ◌≢◌, true, IfOk};
ghost use Rattle.gj_library.specs.Call.{IsAnswered};

use crate::sink::Kept;
use crate::words::words_of;
use gj_port::MemSource;
use gj_top::{Status, run};
use std::alloc::{AllocError, Global};

/// An answer, and the status with which a program ends once it is written.
#[derive(Drop)]
pub(crate) struct Answer {
    pub(crate) status: Status,
    pub(crate) text: Vec<u8>,
}

/// The answer to the words over the input, unless there is no memory.
pub(crate) fn answer_to(alloc: Global, words: &[u8], input: &[u8]) -> Result<Answer, AllocError>
    ensures { IfOk result (λ answer. IsAnswered words.now input.now answer.status
        answer.text.items) }
{
    let words = words_of(alloc, words)?;
    let mut source = MemSource::new(alloc, input, &[])?;
    let mut sink = Kept::new(alloc);
    let status = run(alloc, words.as_slice(), &mut source, &mut sink);
    let text = sink.whole()?;
    if is_answered(status) {
        return Ok(Answer { status, text });
    }
    Err(AllocError)
}

/// Whether there was memory.
fn is_answered(status: Status) -> bool
    ensures { result ≡ true → status ≢ Status.Memory }
{
    !matches!(status, Status::Memory)
}
