//! The decision.
ghost use Rattle.std.specs.Prelude.{◌≡◌, IfOk, Err};
ghost use Rattle.gj_jumps.specs.LimitCover.{IsTightAt};
ghost use Rattle.gj_limit_cover.specs.CoverOf.{IsCoverOf};
ghost use Rattle.gj_limit_proof.specs.LimitMeaning.{LimitClaimHolds};
ghost use Rattle.gj_limit_proof.specs.LimitRules.{MeetsLimitRules};
ghost use Rattle.gj_limit_proof.specs.LimitText.{IsBounded};
ghost use Rattle.gj_shape.specs.Table.{IsMinimal};
ghost use Rattle.gj_limit_extreme.specs.Decision.{IsDecision, IsLimitDecided, IsLimitTooWide};
ghost use Rattle.gj_limit_extreme.specs.Decision.{DeniesExtreme};

use crate::covered::extreme_or_kernel;
use crate::faults::LimitDecideFault;
use crate::uncovered::zigzag_halves;
use gj_cover::Cover;
use gj_limit_cover::cover_by_limits;
use gj_limit_proof::{LimitClaim, LimitProof};
use gj_shape::Shape;
use std::alloc::Global;

/// Whether a minimal function, which may jump, is extreme, with a proof: cover lines and rows of an
/// elimination, or two different minimal functions that average to it. The rows are of whole numbers,
/// or over residues, if a number of the plain elimination is above 2^127 - 1 in absolute value.
///
/// An interval counts as covered also along edges at which the slack tends to 0 from inside a
/// triangle. The rows come in the order of `push_tight_rows`, behind that of f, until there are as
/// many pivots as columns.
///
/// `Wide` comes exactly if all intervals are covered, and either a number of the elimination is above
/// 2^127 - 1 in absolute value and residues keep fewer rows than there are columns, or none is, but
/// one of its kernel or of the perturbation is, or the scale of the halves is above 2^124. The only
/// other error is want of memory. No function is known for which a number is too wide. Source: Basu,
/// Hildebrand and Köppe, "Equivariant Perturbation in Gomory and Johnson's infinite group problem I".
pub fn decide_limits(alloc: Global, shape: &Shape) -> Result<LimitProof, LimitDecideFault>
    requires minimal { IsMinimal shape.now }
    ensures decided { IfOk result (IsLimitDecided shape.now) }
    ensures bounded { IfOk result IsBounded }
    ensures rules { IfOk result MeetsLimitRules }
    ensures holds { IfOk result LimitClaimHolds }
    ensures not_extreme { IfOk result (DeniesExtreme shape.now) }
    ensures wide { result ≡ Err LimitDecideFault.Wide → IsLimitTooWide shape.now }
    ensures not_wide { IfOk result (λ c. IsLimitTooWide shape.now → ⊥) }
{
    // the call tells the proofs the bounds of the function
    let order = shape.order();
    prove!(order >= 2);
    let cover = cover_by_limits(alloc, shape)?;
    let claim = claim_by_cover(alloc, shape, cover)?;
    Ok(LimitProof::of(claim))
}

/// What is claimed of a minimal function, by its cover.
fn claim_by_cover(
    alloc: Global,
    shape: &Shape,
    cover: Cover,
) -> Result<LimitClaim, LimitDecideFault>
    requires minimal { IsMinimal shape.now }
    requires cover { IsCoverOf shape.now.order (IsTightAt shape.now) cover }
    ensures { IsDecision shape.now result }
{
    if cover.class.as_slice().is_empty() {
        return extreme_or_kernel(alloc, shape, cover);
    }
    let halves = zigzag_halves(alloc, shape, cover.class.as_slice())?;
    Ok(LimitClaim::NotExtreme(shape.copy(alloc)?, halves))
}
