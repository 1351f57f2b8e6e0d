//! Laws of problem texts.
ghost use Rattle.std.specs.Prelude.{◌≡◌, ℕ, List, All, flat_map, length};
ghost use Rattle.gj_lex.specs.declared.reason.Reason.{Reason};
ghost use Rattle.gj_safe_cut.specs.SafeCuts.{SafeCutHasTerms};
ghost use Rattle.gj_safe_cut.specs.declared.cut.SafeCut.{SafeCut};
ghost use Rattle.gj_proof.specs.ProofText.{IsBoundedRule};
ghost use Rattle.gj_proof.specs.declared.cut.CutRule.{CutRule};
ghost use Rattle.gj_problem_text.specs.CutText.{cut_lines, AreNames, HasColumnsBelow};
ghost use Rattle.gj_problem_text.specs.CutText.{IsCutsTextBy};
ghost use Rattle.gj_problem_text.specs.declared.input.SafeInput.{SafeInput};
ghost use Rattle.gj_problem_text.specs.declared.task.Task.{Task};
ghost use Rattle.gj_problem_text.specs.PrintedInput.{IsPrintedInput};
ghost use Rattle.gj_problem_text.specs.ProblemText.{IsProblemText, IsFirstFault};
ghost use Rattle.gj_problem_text.specs.SafeInputs.{IsSafeInput, IsFirstFaultOfInput};

/// A problem text tells one problem with its rows, and has no fault; another text has at most one
/// first fault.
pub fn one_problem_text()
    ensures task { (text : List ℕ) (s t : Task) → IsProblemText text s → IsProblemText text t →
        s ≡ t }
    ensures no_fault { (text : List ℕ) (s : Task) (n : ℕ) (e : Reason) → IsProblemText text s →
        IsFirstFault text n e → ⊥ }
    ensures fault { (text : List ℕ) (n m : ℕ) (e d : Reason) →
        IsFirstFault text n e → IsFirstFault text m d → (n ≡ m) × (e ≡ d) }
{}

/// The same of a problem text with its rule.
pub fn one_safe_input()
    ensures input { (text : List ℕ) (a b : SafeInput) → IsSafeInput text a → IsSafeInput text b →
        a ≡ b }
    ensures no_fault { (text : List ℕ) (a : SafeInput) (n : ℕ) (e : Reason) → IsSafeInput text a →
        IsFirstFaultOfInput text n e → ⊥ }
    ensures fault { (text : List ℕ) (n m : ℕ) (e d : Reason) → IsFirstFaultOfInput text n e →
        IsFirstFaultOfInput text m d → (n ≡ m) × (e ≡ d) }
{}

/// The lines of cuts are those of one list of cuts, if the columns have different names.
pub fn one_list_of_cuts()
    ensures { (names : List (List ℕ)) (cuts others : List SafeCut) → AreNames names →
        All (HasColumnsBelow (length names)) cuts → All (HasColumnsBelow (length names)) others →
        flat_map (cut_lines names) cuts ≡ flat_map (cut_lines names) others → cuts ≡ others }
{}

/// A problem and a rule within the limits have one text of cuts.
pub fn one_text_of_cuts()
    ensures { (r : CutRule) (s : Task) (text other : List ℕ) → IsBoundedRule r →
        IsCutsTextBy r s text → IsCutsTextBy r s other → text ≡ other }
{}

/// The coefficients of each cut of a text are not 0, and stand in the order of the columns.
pub fn cuts_have_terms()
    ensures { (r : CutRule) (s : Task) (text : List ℕ) (t : IsCutsTextBy r s text) →
        All (SafeCutHasTerms s.problem) t.cuts }
{}

/// The printed text of a problem with its rule is read as that problem with that rule.
pub fn printed_input_is_read()
    ensures { (asked : SafeInput) (text : List ℕ) → IsPrintedInput asked text →
        IsSafeInput text asked }
{}
