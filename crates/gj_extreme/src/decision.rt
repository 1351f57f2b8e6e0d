//! The decision.
ghost use Rattle.std.specs.Prelude.{ℕ, ◌≡◌, ◌≤◌, ◌↔◌, List, IfOk, Err, MatchResult};
ghost use Rattle.gj_faces.specs.TightPairs.{AreTightPairsOf};
ghost use Rattle.gj_cover.specs.CoverOf.{IsCoverOf};
ghost use Rattle.gj_shape.specs.Additive.{IsTight};
ghost use Rattle.gj_shape.specs.Extreme.{IsExtreme};
ghost use Rattle.gj_shape.specs.FunctionData.{IsWithinBounds, IsContinuous, IsFirstJump};
ghost use Rattle.gj_shape.specs.Table.{IsMinimal};
ghost use Rattle.gj_shape.specs.TwoSlopes.{HasTwoSlopes};
ghost use Rattle.gj_shape.specs.declared.extremality.CoverLine.{CoverLine};
ghost use Rattle.gj_proof.specs.Meaning.{ClaimHolds};
ghost use Rattle.gj_proof.specs.ProofText.{IsBounded};
ghost use Rattle.gj_proof.specs.Rules.{MeetsRules};
ghost use Rattle.gj_extreme.specs.Decision.{AreAllCovered, IsDecided, IsDecision, IsExtremeClaim};
ghost use Rattle.gj_extreme.specs.Decision.{IsByTable, IsExtremeOnGrid4, IsTooWide};
ghost use Rattle.gj_extreme.specs.Faults.{IsMemoryFault};

use crate::covered::extreme_or_slopes;
use crate::faults::DecideFault;
use crate::uncovered::zigzag_halves;
use gj_cover::{Cover, cover_of_pairs};
use gj_faces::TightPairs;
use gj_minimal::find_violation;
use gj_proof::{Claim, Proof};
use gj_shape::Shape;
use std::alloc::Global;

/// Whether the function is extreme, with a proof: the first violation of a function that is not
/// minimal; of one that is minimal and continuous, cover lines and rows of an elimination, or two
/// different minimal tables that average to its own. The rows are of whole numbers, or over
/// residues, if a number of the plain elimination is above 2^127 - 1 in absolute value.
///
/// `NotContinuous` comes exactly if the function is minimal and jumps, with the first index of a
/// jump. `Wide` comes exactly if it is minimal and continuous, all its intervals are covered, and
/// either a number of the elimination is above 2^127 - 1 in absolute value and residues keep fewer
/// rows than there are components, or none is, but one of its kernel or of the perturbation is, or
/// the scale of the halves is above 2^124; never with at most four components. The only other error
/// is want of memory. No function is known for which a number is too wide. A minimal continuous
/// function with two slopes is always proved extreme, if there is memory (Gomory and Johnson 1972).
/// Source: Basu, Hildebrand and Köppe, "Equivariant Perturbation in Gomory and Johnson's infinite
/// group problem I".
///
/// ```rust
/// // the mixed-integer cut for f = 3/5
/// let values = [
///     Frac::ratio(0, 1),
///     Frac::ratio(1, 3),
///     Frac::ratio(2, 3),
///     Frac::ratio(1, 1),
///     Frac::ratio(1, 2),
/// ];
/// let shape = Shape::new(alloc, 5, 3, &values, &values, &values)?;
/// let proof = decide(alloc, &shape)?; // proof.claim() is Claim::Extreme(..)
/// ```
pub fn decide(alloc: Global, shape: &Shape) -> Result<Proof, DecideFault>
    ensures decided { IfOk result (IsDecided shape.now) }
    ensures bounded { IfOk result IsBounded }
    ensures rules { IfOk result MeetsRules }
    ensures holds { IfOk result ClaimHolds }
    ensures not_continuous { (i : ℕ) → result ≡ Err (DecideFault.NotContinuous i) →
        IsMinimal shape.now × IsFirstJump shape.now i }
    ensures wide { result ≡ Err DecideFault.Wide → IsMinimal shape.now × IsContinuous shape.now ×
        IsTooWide shape.now }
    ensures not_wide { IsMinimal shape.now → IfOk result (λ c. IsTooWide shape.now → ⊥) }
    ensures few_components { (lines : List CoverLine) (component : ℕ → ℕ) (n : ℕ) →
        AreAllCovered shape.now lines component n → n ≤ 4 → IsTooWide shape.now → ⊥ }
    ensures by_table { IfOk result (IsByTable shape.now) }
    ensures two_slopes { IsMinimal shape.now → HasTwoSlopes shape.now →
        MatchResult result (IsExtremeClaim shape.now) IsMemoryFault }
    ensures order_4q { IsContinuous shape.now → IsExtreme shape.now ↔ IsExtremeOnGrid4 shape.now }
{
    let claim = claim_of(alloc, shape)?;
    Ok(Proof::of(claim))
}

/// The same decision on a minimal continuous function whose tight pairs and cover are made already.
///
/// `Wide` comes exactly as it does from `decide`, and the only other error is want of memory.
pub fn decide_by_cover(
    alloc: Global,
    shape: &Shape,
    pairs: &TightPairs,
    cover: Cover,
) -> Result<Proof, DecideFault>
    requires minimal { IsMinimal shape.now }
    requires continuous { IsContinuous shape.now }
    requires pairs { AreTightPairsOf shape.now pairs.now }
    requires cover { IsCoverOf shape.now.order (IsTight shape.now) cover }
    ensures decided { IfOk result (IsDecided shape.now) }
    ensures bounded { IfOk result IsBounded }
    ensures wide { result ≡ Err DecideFault.Wide → IsTooWide shape.now }
    ensures not_wide { IfOk result (λ c. IsTooWide shape.now → ⊥) }
    ensures no_jump { (i : ℕ) → result ≡ Err (DecideFault.NotContinuous i) → ⊥ }
{
    // the call tells the proofs the bounds of the function
    let order = shape.order();
    prove!(order >= 2);
    let claim = claim_by_cover(alloc, shape, pairs, cover)?;
    Ok(Proof::of(claim))
}

/// What is claimed of the function.
fn claim_of(alloc: Global, shape: &Shape) -> Result<Claim, DecideFault>
    ensures limits { IsWithinBounds shape.now }
    ensures decision { IsDecision shape.now result }
    ensures rules { IfOk result MeetsRules }
{
    if let Some(violation) = find_violation(shape) {
        return Ok(Claim::NotMinimal(shape.copy(alloc)?, violation));
    }
    if let Some(i) = shape.first_jump() {
        return Err(DecideFault::NotContinuous(i));
    }
    let pairs = TightPairs::new(alloc, shape)?;
    let cover = cover_of_pairs(alloc, shape, &pairs)?;
    claim_by_cover(alloc, shape, &pairs, cover)
}

/// What is claimed of a minimal continuous function, by its tight pairs and its cover.
fn claim_by_cover(
    alloc: Global,
    shape: &Shape,
    pairs: &TightPairs,
    cover: Cover,
) -> Result<Claim, DecideFault>
    requires minimal { IsMinimal shape.now }
    requires continuous { IsContinuous shape.now }
    requires pairs { AreTightPairsOf shape.now pairs.now }
    requires cover { IsCoverOf shape.now.order (IsTight shape.now) cover }
    ensures { IsDecision shape.now result }
{
    if cover.class.as_slice().is_empty() {
        return extreme_or_slopes(alloc, shape, pairs, cover);
    }
    let halves = zigzag_halves(alloc, shape, cover.class.as_slice())?;
    Ok(Claim::NotExtreme(shape.copy(alloc)?, halves))
}
