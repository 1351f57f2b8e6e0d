//! What the program says, over all real numbers: theorems for every ordered field in which each
//! number lies between a whole number and the next.
#![tactic(auto)]

ghost use Rattle.std.specs.Prelude.{ℕ, Bool, List, Option, String};
ghost use Rattle.std.specs.declared.alloc.Global.{Global};
ghost use Rattle.gj_frac.specs.declared.Frac.{Frac};
ghost use Rattle.gj_shape.specs.FunctionData.{FunctionData, IsWithinBounds, IsContinuous};
ghost use Rattle.gj_shape.specs.Table.{IsMinimal};
ghost use Rattle.gj_rule.specs.declared.kind.RuleKind.TheVariants as kind;
ghost use Rattle.gj_row.specs.declared.tableau.Row.{Row};
ghost use Rattle.gj_mixed.specs.MixedCuts.{IsMixedCutOfKind, IsGmicMixedCutOf};
ghost use Rattle.gj_mixed.specs.Slopes.{AreSlopesAtZero};
ghost use Rattle.gj_mixed.specs.declared.cut.MixedCut.{MixedCut};
ghost use Rattle.gj_proof.specs.Meaning.{ClaimHolds};
ghost use Rattle.gj_proof.specs.ProofText.{IsBounded};
ghost use Rattle.gj_proof.specs.declared.claim.Claim.{Claim};
ghost use Rattle.gj_limit_proof.specs.LimitMeaning.{LimitClaimHolds};
ghost use Rattle.gj_limit_proof.specs.LimitText.{IsBounded as IsLimitBounded};
ghost use Rattle.gj_limit_proof.specs.declared.claim.LimitClaim.{LimitClaim};
ghost use Rattle.gj_problem_text.specs.declared.input.SafeInput.{SafeInput};
ghost use Rattle.gj_top.specs.Causes.{IsDoneRun};
ghost use Rattle.gj_top.specs.Problem.{AreProblemCuts};
ghost use Rattle.gj_real_answers.specs.RealAnswers.{AreRealProblemCuts, IsTrueRealRun};
ghost use Rattle.gj_real_answers.specs.RealMeaning.{RealClaimHolds, RealHoldsFor};
ghost use Rattle.gj_real_answers.specs.RealMeaning.{RealLimitClaimHolds};

use gj_fields::reals::Reals;

/// A claim that holds says so of all real numbers. A function that is called minimal is minimal
/// among the valid functions of real numbers, and one that is called not minimal is not. One that
/// is called extreme is minimal, and no average of two different valid functions. One that is
/// called not extreme is minimal, and not extreme. The function of the claim is asked to be within
/// the limits of functions (`IsWithinBounds` in `IsBounded`), as that of each text is.
pub fn claims_hold_over_reals<K: Reals>()
    ensures { (c : Claim) → IsBounded c → ClaimHolds c → RealClaimHolds K.field K.floors c }
{}

/// A claim about a function that jumps says so of all real numbers, too, if it holds: one that is
/// called extreme is minimal, and no average of two different valid functions, and one that is
/// called not extreme is minimal, and not extreme.
pub fn limit_claims_hold_over_reals<K: Reals>()
    ensures { (c : LimitClaim) → IsLimitBounded c → LimitClaimHolds c →
        RealLimitClaimHolds K.field K.floors c }
{}

/// The mixed cut of a row, by a continuous minimal function or the mixed-integer cut, holds at all
/// whole and real amounts. The function is asked to be within the limits of functions; of the row
/// no limit is asked.
pub fn mixed_cuts_hold_over_reals<K: Reals>()
    ensures by_function { (f : FunctionData) (up down : Frac) (continuous : List Bool) (row : Row)
        (cut : MixedCut) →
        IsWithinBounds f → IsContinuous f → IsMinimal f → AreSlopesAtZero f up down →
        IsMixedCutOfKind (kind.Table f) up down continuous row cut → RealHoldsFor K.field row cut }
    ensures by_gmic { (continuous : List Bool) (row : Row) (cut : MixedCut) →
        IsGmicMixedCutOf continuous row cut → RealHoldsFor K.field row cut }
{}

/// The cuts that `problem` writes with Done, by its headline, hold at all feasible points of real
/// numbers. No limit is asked of the problem.
pub fn problem_cuts_hold_over_reals<K: Reals>()
    ensures { (asked : SafeInput) (text : List ℕ) → AreProblemCuts asked text →
        AreRealProblemCuts K.field asked text }
{}

/// A run that ends with Done, of which the clause `reply` of `run` says `IsDoneRun`, tells the
/// truth of all real numbers. What it calls minimal is minimal among all valid functions. What it
/// calls extreme is minimal, and no average of two different valid functions. What it calls not
/// minimal, or not extreme, is not; and so it is of a function that jumps. So it is with the claims
/// that it accepts. Each mixed cut that
/// it writes holds at all whole and real amounts. Each cut of a problem, and each claim of a
/// derivation that is accepted or written, holds at all feasible points of real numbers. No limit is
/// asked: a function that is read is within the limits.
pub fn runs_are_true_over_reals<K: Reals>()
    ensures { (words : List (String Global)) (input before : List ℕ) (written : Option (List ℕ)) →
        IsDoneRun words input before written →
        IsTrueRealRun K.field K.floors words input before written }
{}
