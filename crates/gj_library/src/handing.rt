//! An answer, put into the output of a call.
ghost use Rattle.std.specs.Prelude.{◌≡◌, ◌<◌, length, take, drop, IfOk, IfErr};
ghost use Rattle.gj_library.specs.Handing.{IsHandedOver};

use crate::answer::Answer;
use gj_top::Status;
use std::alloc::AllocError;

/// Puts the text of the answer to the front of the output, and its length into `written`.
///
/// The result is the code of its status: 5 if the output has no room for all of the text, of which
/// it then takes as many bytes as it has, while `written` is the length of the whole; 6, with
/// nothing written, if there is no answer.
pub(crate) fn hand_over(
    answer: Result<Answer, AllocError>,
    output: &mut [u8],
    written: &mut usize,
) -> u8
    ensures answer { IfOk answer (λ a. IsHandedOver a.status a.text.items (length output.old)
        (take written.new output.new) result) }
    ensures whole { IfOk answer (λ a. written.new ≡ length a.text.items) }
    ensures full { IfOk answer (λ a. length output.old < length a.text.items →
        output.new ≡ take (length output.old) a.text.items) }
    ensures none { IfErr answer (λ _. (result ≡ 6) × (written.new ≡ 0)) }
    ensures behind { drop written.new output.new ≡ drop written.new output.old }
{
    let Ok(answer) = answer else {
        *written = 0;
        return Status::Memory.code();
    };
    let text = answer.text.as_slice();
    let count = text.len().min(output.len());
    output[..count].copy_from_slice(&text[..count]);
    *written = text.len();
    if count < text.len() {
        return Status::WriteFault.code();
    }
    answer.status.code()
}
