//! Laws of the decision.
ghost use Rattle.std.specs.Prelude.{◌≡◌};
ghost use Rattle.gj_shape.specs.FunctionData.{FunctionData, IsWithinBounds};
ghost use Rattle.gj_limit_proof.specs.LimitMeaning.{LimitClaimHolds};
ghost use Rattle.gj_limit_proof.specs.LimitRules.{MeetsLimitRules};
ghost use Rattle.gj_limit_proof.specs.LimitText.{HasText};
ghost use Rattle.gj_limit_proof.specs.declared.claim.LimitClaim.{LimitClaim};
ghost use Rattle.gj_limit_extreme.specs.Decision.{IsLimitDecided, IsLimitTooWide};

use gj_limit_averages::extreme::extreme_functions_are_covered_and_solved;

/// What the decision gives of a function within the limits holds, and is decided by the function
/// alone. A proof excludes numbers that are too wide.
pub fn decided_limit_claims()
    ensures holds { (f : FunctionData) (c : LimitClaim) → IsWithinBounds f →
        IsLimitDecided f c → LimitClaimHolds c }
    ensures one { (f : FunctionData) (c d : LimitClaim) → IsWithinBounds f → IsLimitDecided f c →
        IsLimitDecided f d → c ≡ d }
    ensures not_wide { (f : FunctionData) (c : LimitClaim) → IsWithinBounds f → HasText c →
        IsLimitDecided f c → IsLimitTooWide f → ⊥ }
{
    extreme_functions_are_covered_and_solved();
}
