//! The top call: words and an input in, an answer and a status out.
#![tactic(auto)]

ghost use Rattle.std.specs.Prelude.{◌≡◌, ℕ, List, IfSome};
ghost use Rattle.gj_top.specs.Causes.{IsInput, IsTrueRun};
ghost use Rattle.gj_top.specs.IsRun.{IsRun};

use gj_port::{Sink, Source, write_all};
use std::alloc::Global;

mod answer;
mod check;
mod command;
mod continuity;
mod cut;
mod cut_input;
mod demo;
mod derivation;
mod derive;
mod extreme;
mod faces;
mod fill;
mod forms;
mod group;
mod laws;
mod lines;
mod minimal;
mod mixed;
mod objection;
mod problem;
mod reply;
mod report;
mod show;
mod status;
mod transform;

use answer::answer_to;
pub use group::group_reply;
pub use laws::{
    derived_texts_are_accepted, extreme_exactly_if_no_average, extreme_exactly_if_order_4q_is,
    one_answer, one_proof_in_a_report, others_are_answered_alike, shown_text_is_read,
    two_slopes_are_called_extreme, written_proofs_are_accepted,
};
pub use mixed::mixed_reply;
pub use reply::{End, Reply};
pub use status::Status;

/// Answers the request that the words name, over an input from the source, and writes the answer to
/// the sink.
///
/// `minimal` reads a function text and writes the proof text of the claim that the function is
/// minimal, or that it is not, with the first violation. `extreme` reads one and writes the proof
/// text of the claim that the function is extreme, or that it is not, with two halves, or that it
/// is not minimal. `show` reads a function text and writes its canonical text. `check` reads a
/// proof text and says whether every rule of the checker holds; or it reads a derivation, a text
/// that begins with the word `gj-derivation` or `gj-function`, and says whether each step follows.
/// `cut` reads a function text or a rule text with a tableau behind it, and writes the proof text of
/// the cuts of its rows. `faces` reads the function text of a continuous function and writes its
/// maximal additive faces and its covered intervals. With `--json`, `minimal`, `extreme` and `show`
/// read a function in JSON, and `minimal` and `extreme` write a report of the proof text, `show` the
/// function in JSON. With `--jumps`, `extreme` and `faces` answer a function that jumps by the
/// limits of its slack. `demo` reads nothing, and writes the summary of the decision on a function
/// of its own. `mixed` reads what `cut` reads and writes the cuts of the rows. Columns with a name
/// that begins with `c:` are continuous there. `problem` reads a mixed-integer program with
/// multipliers and a rule, or a function text in front of it, and writes the cuts of the rows that
/// the multipliers make, in the columns of the program. `derive` reads a derivation whose steps may
/// lack claims, and writes the derivation in which each claim is filled in. `fill` reads the
/// function text of a continuous function and writes its two-slope fill-in by breakpoints. `group`
/// reads the function text of a continuous function and says whether the table of its own order is
/// extreme. `times`, `mirror` and `restrict` read a function text and write the canonical text of
/// the function of n x, of that of -x, or of a restriction. The whole input is read first, at most
/// 16,777,216 bytes of it, and the whole answer is made before its first byte is written.
///
/// The status is `Words` if the words name no request, and nothing is read then. It is `Input` if
/// the input is outside its form or longer than the limit. The sink has then taken a line that says
/// so. The other statuses, with the commands that end with them, stand at [`Status`].
///
/// What else holds of each run stands clause by clause in `specs/IsRun`.
pub fn run<S: Source, K: Sink>(
    alloc: Global,
    words: &[String],
    source: &mut S,
    sink: &mut K,
) -> Status
    // The headline: what was written with Done keeps what its request promises.
    ensures headline { result ≡ Status.Done → (input : List ℕ) →
        IsInput words.now (S.left source.old) input →
        IfSome (K.written sink.old) (λ before. IsTrueRun words.now input before
        (K.written sink.new)) }

    // And what was written is the answer, each status has its cause, an input in its form is
    // answered, and another is refused.
    ensures is_run { IsRun (record {
      words = words.now;
      steady = S.steady source.old;
      left = S.left source.old;
      left_after = S.left source.new;
      read_faults = S.faults source.old;
      read_faults_after = S.faults source.new;
      sure = K.sure sink.old;
      written = K.written sink.old;
      written_after = K.written sink.new;
      write_faults = K.faults sink.old;
      write_faults_after = K.faults sink.new;
      status = result;
    }) }
{
    let Ok(answer) = answer_to(alloc, words, source) else {
        return Status::Memory;
    };
    match write_all(sink, answer.text()) {
        Ok(()) => answer.status(),
        Err(_) => Status::WriteFault,
    }
}
