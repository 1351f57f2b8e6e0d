//! The call for programs in C and in other languages: what it reads and what it answers is in
//! memory.
#![tactic(auto)]

ghost use Rattle.std.specs.Prelude.{◌≡◌, ◌≢◌, ◌⊎◌, ◌<◌, ◌≤◌, [], length, take, drop, Some};
ghost use Rattle.std.specs.Str.{IsUtf8};
ghost use Rattle.gj_top.specs.Causes.{IsTrueRun};
ghost use Rattle.gj_library.specs.Call.{OfWords, IsCall, IsTooSmall};

use std::alloc::Global;

mod answer;
mod handing;
mod laws;
mod sink;
mod words;

use answer::answer_to;
use handing::hand_over;
pub use laws::{one_answer_to_a_call, problem_calls};

/// Answers the request that the words name, over the input, as the program does. The words stand
/// behind one another with one blank between two; bytes that are not UTF-8 are no words. The answer
/// is written to the front of the output, `written` is set to its length, and what stands behind it
/// in the output stays. The result is the status of the program, with these meanings of two of
/// them: 5 if the output has no room for the answer, of which it has then taken as many bytes as it
/// has, while `written` is the length of the whole answer, so that a second call knows how much
/// room to give; 6 if there is no memory, and then nothing is written. 4 never comes. Nothing is
/// kept from one call to the next, and `written` is not read.
///
/// What else holds of the run of each call stands clause by clause in `specs/IsRun` of `gj_top`.
/// That the answer is one, and so that a second call has room, is [`one_answer_to_a_call`]: of each
/// answer but the cuts of a problem. What the answer to the word `problem` says is
/// [`problem_calls`].
#[unsafe(no_mangle)]
pub extern "C" fn gjcut_answer(
    alloc: Global,
    words: &[u8],
    input: &[u8],
    output: &mut [u8],
    written: &mut usize,
) -> u8
    // The headline: what was written with 0 keeps what its request promises.
    ensures headline { result ≡ 0 → OfWords words.now (λ given. IsTrueRun given input.now []
        (Some (take written.new output.new))) }

    // And the call is a run of the program: what stands at the front of the output is the answer,
    // all of it or as much as there is room for, each status has its cause, an input in its form is
    // answered, and another is refused.
    ensures run { result ≢ 6 → IsCall words.now input.now (length output.old)
        (take written.new output.new) result }
    ensures no_text { (IsUtf8 words.now → ⊥) → (result ≡ 2) ⊎ (result ≡ 5) ⊎ (result ≡ 6) }
    ensures no_read_fault { result ≢ 4 }

    // Without room the front of the answer fills the output, and `written` is the length of the
    // whole answer; without memory nothing is written.
    ensures room { result ≡ 5 → IsTooSmall words.now input.now (length output.old) output.new
        written.new }
    ensures full { result ≡ 5 → length output.old < written.new }
    ensures memory { result ≡ 6 → written.new ≡ 0 }
    ensures within { result ≢ 5 → written.new ≤ length output.old }
    ensures behind { drop written.new output.new ≡ drop written.new output.old }
{
    hand_over(answer_to(alloc, words, input), output, written)
}
