//! The claim that a function is minimal, or that it is not.
ghost use Rattle.gj_proof.specs.ProofText.{IsBounded};
ghost use Rattle.gj_verdict_text.specs.MinimalityClaim.{IsMinimalityClaim};

use gj_minimal::find_violation;
use gj_proof::{Claim, Proof};
use gj_shape::Shape;

/// The proof that the function is minimal, or that it is not, with the first violation. It takes no
/// memory.
///
/// ```text
/// // order 5, f = 3/5, values 0, 1/10, 9/10, 1, 1/2: 1/10 + 1/10 is less than 9/10
/// minimality_proof(shape) // its claim is NotMinimal, with the violation Superadditive(1/5, 1/5)
/// ```
pub fn minimality_proof(shape: Shape) -> Proof
    ensures claim { IsMinimalityClaim shape result }
    ensures bounded { IsBounded result }
{
    match find_violation(&shape) {
        None => Proof::of(Claim::Minimal(shape)),
        Some(violation) => Proof::of(Claim::NotMinimal(shape, violation)),
    }
}
