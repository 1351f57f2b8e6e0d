//! Cuts of problems hold: theorems, each the contract of a function with no code.
ghost use Rattle.std.specs.Prelude.{List, Bool, length, ◌≡◌};
ghost use Rattle.gj_frac.specs.declared.Frac.{Frac};
ghost use Rattle.gj_shape.specs.FunctionData.{FunctionData, IsWithinBounds};
ghost use Rattle.gj_rule.specs.declared.kind.RuleKind.{RuleKind};
ghost use Rattle.gj_rule.specs.Kind.{IsKindWithinBounds, IsMinimalKind};
ghost use Rattle.gj_mixed.specs.Slopes.{AreSlopesOfKind};
ghost use Rattle.gj_problem.specs.declared.problem.Inequality.{Inequality};
ghost use Rattle.gj_problem.specs.declared.problem.Problem.{Problem};
ghost use Rattle.gj_safe_cut.specs.declared.cut.SafeCut.{SafeCut};
ghost use Rattle.gj_safe_cut.specs.declared.cut.SafeCut.TheVariants.{Cut};
ghost use Rattle.gj_safe_cut.specs.SafeCuts.{IsSafeCutOf, IsGmicSafeCutOf, IsFunctionSafeCutOf};
ghost use Rattle.gj_safe_cut.specs.SafeCuts.{SafeCutHolds, IsSameCut, TellsWide};

/// The cut of a problem by any multipliers holds at each feasible point: the mixed-integer cut, and
/// the cut by a minimal function.
pub fn safe_cut_holds()
    ensures by_gmic { (p : Problem) (multipliers : List Frac) (at_upper : List Bool)
        (cut : SafeCut) → length at_upper ≡ length p.columns →
        IsGmicSafeCutOf p multipliers at_upper cut → SafeCutHolds p cut }
    ensures by_rule { (kind : RuleKind) (up down : Frac) (p : Problem) (multipliers : List Frac)
        (at_upper : List Bool) (cut : SafeCut) →
        length at_upper ≡ length p.columns → IsKindWithinBounds kind → IsMinimalKind kind →
        AreSlopesOfKind kind up down →
        IsSafeCutOf kind up down p multipliers at_upper cut → SafeCutHolds p cut }
{}

/// A problem has one cut by multipliers and a rule: where there is a cut, any other answer is the
/// same inequality, or `Wide`. If each is `Wide` where a number does not fit, the answer is one.
pub fn one_safe_cut()
    ensures by_gmic { (p : Problem) (multipliers : List Frac) (at_upper : List Bool)
        (q : Inequality) (cut : SafeCut) → IsGmicSafeCutOf p multipliers at_upper (Cut q) →
        IsGmicSafeCutOf p multipliers at_upper cut → IsSameCut q cut }
    ensures by_function { (f : FunctionData) (p : Problem) (multipliers : List Frac)
        (at_upper : List Bool) (q : Inequality) (cut : SafeCut) → IsWithinBounds f →
        IsFunctionSafeCutOf f p multipliers at_upper (Cut q) →
        IsFunctionSafeCutOf f p multipliers at_upper cut → IsSameCut q cut }
    ensures answer_by_gmic { (p : Problem) (multipliers : List Frac) (at_upper : List Bool)
        (cut other : SafeCut) → IsGmicSafeCutOf p multipliers at_upper cut →
        IsGmicSafeCutOf p multipliers at_upper other →
        TellsWide (IsGmicSafeCutOf p multipliers at_upper) cut →
        TellsWide (IsGmicSafeCutOf p multipliers at_upper) other → cut ≡ other }
    ensures answer_by_function { (f : FunctionData) (p : Problem) (multipliers : List Frac)
        (at_upper : List Bool) (cut other : SafeCut) → IsWithinBounds f →
        IsFunctionSafeCutOf f p multipliers at_upper cut →
        IsFunctionSafeCutOf f p multipliers at_upper other →
        TellsWide (IsFunctionSafeCutOf f p multipliers at_upper) cut →
        TellsWide (IsFunctionSafeCutOf f p multipliers at_upper) other → cut ≡ other }
{}
