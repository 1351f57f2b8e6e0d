//! A verdict, and its proof.
ghost use Rattle.std.specs.Prelude.{ℕ, ◌≡◌, ◌↔◌, Err, IfOk, IsTrue};
ghost use Rattle.gj_shape.specs.Extreme.{IsExtreme};
ghost use Rattle.gj_shape.specs.FunctionData.{IsContinuous, IsFirstJump};
ghost use Rattle.gj_shape.specs.Table.{IsMinimal};
ghost use Rattle.gj_check.specs.declared.faults.CheckFault.{CheckFault};
ghost use Rattle.gj_check.specs.declared.rules.CheckRule.{CheckRule};
ghost use Rattle.gj_extreme.specs.Decision.{IsDecided, IsTooWide};
ghost use Rattle.gj_extreme.specs.declared.faults.DecideFault.{DecideFault};
ghost use Rattle.gj_proof.specs.Meaning.{ClaimHolds};
ghost use Rattle.gj_proof.specs.ProofText.{IsProofText};
ghost use Rattle.gj_proof.specs.declared.claim.Claim.{Claim};
ghost use Rattle.gj_example.specs.declared.faults.UseFault.{UseFault};

use crate::faults::UseFault;
use gj_check::check;
use gj_extreme::{DecideFault, decide};
use gj_proof::{Claim, write_proof};
use gj_shape::Shape;
use std::alloc::Global;

/// Whether the function is extreme.
///
/// `NotContinuous` comes only if the function is minimal and jumps, with the first index of a jump,
/// and `Wide` only if it is minimal and continuous and a number of the decision is too wide. The
/// only other error is want of memory.
pub fn is_extreme(alloc: Global, shape: &Shape) -> Result<bool, DecideFault>
    ensures answer { IfOk result (λ answer. IsTrue answer ↔ IsExtreme shape.now) }
    ensures not_continuous { (i : ℕ) → result ≡ Err (DecideFault.NotContinuous i) →
        IsMinimal shape.now × IsFirstJump shape.now i }
    ensures wide { result ≡ Err DecideFault.Wide → IsMinimal shape.now × IsContinuous shape.now ×
        IsTooWide shape.now }
{
    let proof = decide(alloc, shape)?;
    match proof.claim() {
        Claim::Extreme(..) => Ok(true),
        Claim::ExtremeByResidues(..) => Ok(true),
        _ => Ok(false),
    }
}

/// The proof text of what is decided of the function. The checker has accepted it, and what it
/// claims is true.
///
/// `Undecided` comes as `decide` answers it. The checker rejects no proof of `decide`, so that
/// `Unaccepted` is want of memory.
pub fn checked_proof(alloc: Global, shape: &Shape) -> Result<Vec<u8>, UseFault>
    ensures text { IfOk result (λ text. (claim : Claim) × IsDecided shape.now claim ×
        IsProofText claim text.items × ClaimHolds claim) }
    ensures not_continuous { (i : ℕ) → result ≡ Err (UseFault.Undecided
        (DecideFault.NotContinuous i)) →
        IsMinimal shape.now × IsFirstJump shape.now i }
    ensures wide { result ≡ Err (UseFault.Undecided DecideFault.Wide) → IsMinimal shape.now ×
        IsContinuous shape.now × IsTooWide shape.now }
    ensures accepted { (line : ℕ) (rule : CheckRule) → result ≡ Err
        (UseFault.Unaccepted (CheckFault.Rejected line rule)) → ⊥ }
{
    let proof = decide(alloc, shape)?;
    check(alloc, &proof)?;
    Ok(write_proof(alloc, &proof)?)
}
