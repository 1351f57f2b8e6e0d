//! Inequalities and cuts of mixed-integer programs at all real points: theorems for every ordered
//! field in which each number lies between a whole number and the next.
#![tactic(auto)]

ghost use Rattle.std.specs.Prelude.{◌≡◌, ◌↔◌, ℕ, Bool, List, length};
ghost use Rattle.gj_frac.specs.declared.Frac.{Frac};
ghost use Rattle.gj_mixed.specs.Slopes.{AreSlopesOfKind};
ghost use Rattle.gj_problem.specs.Problems.{Holds};
ghost use Rattle.gj_problem.specs.RoundedCuts.{IsRoundedCut};
ghost use Rattle.gj_problem.specs.declared.problem.Inequality.{Inequality};
ghost use Rattle.gj_problem.specs.declared.problem.Problem.{Problem};
ghost use Rattle.gj_real_problems.specs.RealProblems.{RealHolds, RealSafeCutHolds};
ghost use Rattle.gj_rule.specs.Kind.{IsKindWithinBounds, IsMinimalKind};
ghost use Rattle.gj_rule.specs.declared.kind.RuleKind.{RuleKind};
ghost use Rattle.gj_safe_cut.specs.SafeCuts.{SafeCutHolds, IsGmicSafeCutOf, IsSafeCutOf};
ghost use Rattle.gj_safe_cut.specs.declared.cut.SafeCut.{SafeCut};

use gj_fields::reals::Reals;

/// An inequality of fractions holds at all feasible points whose numbers are fractions exactly if
/// it holds at all feasible points of real numbers. No limit is asked: the problem and the
/// inequality may be any, also one that no problem text has.
pub fn inequalities_hold_over_reals<K: Reals>()
    ensures { (p : Problem) (q : Inequality) → (Holds p q ↔ RealHolds K.field p q) }
{}

/// The cut of a problem by any multipliers holds at each feasible point of real numbers: the
/// mixed-integer cut, the cut by a minimal function, and each cut that holds at all fractions. So
/// does what is rounded of an inequality that holds there. The function is asked to be within the
/// limits of functions (`IsWithinBounds`), as each one is that is read. Of the problem, the
/// multipliers and the grid no limit is asked.
pub fn safe_cuts_hold_over_reals<K: Reals>()
    ensures by_gmic { (p : Problem) (multipliers : List Frac) (at_upper : List Bool)
        (cut : SafeCut) → length at_upper ≡ length p.columns →
        IsGmicSafeCutOf p multipliers at_upper cut → RealSafeCutHolds K.field p cut }
    ensures by_rule { (kind : RuleKind) (up down : Frac) (p : Problem) (multipliers : List Frac)
        (at_upper : List Bool) (cut : SafeCut) →
        length at_upper ≡ length p.columns → IsKindWithinBounds kind → IsMinimalKind kind →
        AreSlopesOfKind kind up down →
        IsSafeCutOf kind up down p multipliers at_upper cut → RealSafeCutHolds K.field p cut }
    ensures held { (p : Problem) (cut : SafeCut) → SafeCutHolds p cut →
        RealSafeCutHolds K.field p cut }
    ensures rounded { (p : Problem) (grid : ℕ) (q rounded : Inequality) → RealHolds K.field p q →
        IsRoundedCut p grid q rounded → RealHolds K.field p rounded }
{}
