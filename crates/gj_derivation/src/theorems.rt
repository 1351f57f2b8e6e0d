//! Claims of derivations hold: theorems, each the contract of a function with no code.
ghost use Rattle.std.specs.Prelude.{◌≡◌, ◌↔◌, ◌⊎◌, ℕ, List, All as AllOf, Option, IfSome};
ghost use Rattle.gj_frac.specs.declared.Frac.{Frac};
ghost use Rattle.gj_shape.specs.FunctionData.{FunctionData};
ghost use Rattle.gj_fields.specs.Rational.{Rational, rational, ◌≤ℚ◌};
ghost use Rattle.gj_problem.specs.declared.problem.Problem.{Problem};
ghost use Rattle.gj_problem.specs.Problems.{Holds};
ghost use Rattle.gj_derivation.specs.declared.step.Combination.{Combination};
ghost use Rattle.gj_derivation.specs.declared.step.Step.{Step};
ghost use Rattle.gj_derivation.specs.declared.step.Verdict.{Verdict};
ghost use Rattle.gj_derivation.specs.declared.step.Verdict.TheVariants.{Wide};
ghost use Rattle.gj_derivation.specs.declared.steps.Checked.{Checked};
ghost use Rattle.gj_derivation.specs.declared.steps.Checked.TheVariants.{Accepted};
ghost use Rattle.gj_derivation.specs.declared.draft.Draft.{Draft};
ghost use Rattle.gj_derivation.specs.declared.draft.Claim.{Claim};
ghost use Rattle.gj_derivation.specs.declared.draft.Shown.{Shown};
ghost use Rattle.gj_derivation.specs.declared.draft.Shown.TheVariants.{Against};
ghost use Rattle.gj_derivation.specs.declared.draft.Derived.{Derived};
ghost use Rattle.gj_derivation.specs.declared.draft.Derived.TheVariants.{All};
ghost use Rattle.gj_derivation.specs.Derivations.{IsUsable, IsUsableFor, IsReady, IsReadyStep};
ghost use Rattle.gj_derivation.specs.Derivations.{IsShown, Follows, IsDerivation};
ghost use Rattle.gj_derivation.specs.Checks.{IsVerdict};
ghost use Rattle.gj_derivation.specs.StepLists.{IsChecked, IsWideFailure, IsWideStep, TellsWide};
ghost use Rattle.gj_derivation.specs.Drafts.{IsAgainst, IsShownBy, IsDerivedBy, steps_of};
ghost use Rattle.gj_derivation.specs.Drafts.{begun, TellWide, told_by};

/// Each claim of a derivation holds at all feasible points of the problem.
pub fn derivation_holds()
    ensures { (f : Option FunctionData) (p : Problem) (steps : List Step) →
        IfSome f IsUsable → IsDerivation f p steps →
        AllOf (λ s. Holds p s.claim) steps }
{}

/// A step shows one right side: it is the greatest that the terms of its claim may have, and each
/// lesser one may stand there too. Only a step by a function asks for one by which cuts hold.
pub fn one_right_side()
    ensures one { (f : Option FunctionData) (p : Problem) (s : Step) (right other : Rational) →
        IsUsableFor f s.combination.rule →
        IsShown f p s right → IsShown f p s other → right ≡ other }
    ensures greatest { (f : Option FunctionData) (p : Problem) (s : Step) (right : Rational) →
        IsUsableFor f s.combination.rule → IsShown f p s right →
        (Follows f p s ↔ (rational s.claim.right ≤ℚ right)) }
{}

/// A step has one verdict, if `Wide` comes where a number does not fit.
pub fn one_verdict()
    ensures { (f : Option FunctionData) (p : Problem) (s : Step) (v w : Verdict) →
        IsUsableFor f s.combination.rule → IsVerdict f p s v → IsVerdict f p s w →
        (IsVerdict f p s Wide → v ≡ Wide) → (IsVerdict f p s Wide → w ≡ Wide) → v ≡ w }
{}

/// Steps have one answer, if it does not pass over a step with a number that does not fit: the first
/// step that is not accepted, and the verdict on it.
pub fn one_check()
    ensures { (f : Option FunctionData) (p : Problem) (steps : List Step) (c d : Checked) →
        AllOf (λ s. IsUsableFor f s.combination.rule) steps →
        IsChecked f p steps c → IsChecked f p steps d →
        TellsWide f p steps c → TellsWide f p steps d → c ≡ d }
{}

/// A draft shows one step, or one thing stands against it, if `Wide` comes where a number does not
/// fit. So what is derived from drafts is one thing, and the steps that come back are too.
pub fn one_derivation()
    ensures step { (f : Option FunctionData) (grid : Option ℕ) (p : Problem) (c : Combination)
        (claim : Claim) (x y : Shown) → IsUsableFor f c.rule →
        IsShownBy f grid p c claim x → IsShownBy f grid p c claim y →
        (IsAgainst f grid p c claim Wide → x ≡ Against Wide) →
        (IsAgainst f grid p c claim Wide → y ≡ Against Wide) → x ≡ y }
    ensures steps { (f : Option FunctionData) (grid : Option ℕ) (p : Problem)
        (drafts : List Draft) (d e : Derived) →
        AllOf (λ draft. IsUsableFor f draft.combination.rule) drafts →
        IsDerivedBy f grid p drafts d → IsDerivedBy f grid p drafts e →
        TellWide f grid (begun p) drafts (told_by d) →
        TellWide f grid (begun p) drafts (told_by e) → d ≡ e }
{}

/// The steps that come back for drafts can be checked. If `Wide` is told of each draft where a
/// number does not fit, each number of these steps fits, and a check accepts them: it forms no
/// other numbers. Without that it accepts them unless a number does not fit there.
pub fn derived_steps_are_accepted()
    ensures ready { (f : Option FunctionData) (grid : Option ℕ) (p : Problem) (drafts : List Draft)
        (shown : List Shown) → AllOf (λ d. IsReady f d.combination) drafts →
        IsDerivedBy f grid p drafts (All shown) → AllOf (IsReadyStep f) (steps_of shown) }
    ensures narrow { (f : Option FunctionData) (grid : Option ℕ) (p : Problem)
        (drafts : List Draft) (shown : List Shown) (i : ℕ) → IfSome f IsUsable →
        IsDerivedBy f grid p drafts (All shown) → TellWide f grid (begun p) drafts shown →
        IsWideStep f p (steps_of shown) i → ⊥ }
    ensures always { (f : Option FunctionData) (grid : Option ℕ) (p : Problem)
        (drafts : List Draft) (shown : List Shown) (c : Checked) → IfSome f IsUsable →
        IsDerivedBy f grid p drafts (All shown) → TellWide f grid (begun p) drafts shown →
        IsChecked f p (steps_of shown) c → c ≡ Accepted }
    ensures accepted { (f : Option FunctionData) (grid : Option ℕ) (p : Problem)
        (drafts : List Draft) (shown : List Shown) (c : Checked) → IfSome f IsUsable →
        IsDerivedBy f grid p drafts (All shown) → IsChecked f p (steps_of shown) c →
        (c ≡ Accepted) ⊎ IsWideFailure c }
{}
