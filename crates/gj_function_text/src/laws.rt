//! Laws of function texts.
ghost use Rattle.std.specs.Prelude.{◌≡◌, ◌≢◌, ◌↔◌, ◌⊎◌, ◌≤◌, ◌++◌, ℕ, List, [], length};
ghost use Rattle.gj_lex.specs.declared.reason.Reason.{Reason};
ghost use Rattle.gj_shape.specs.Breaks.{BreakList, AreBreaks, IsOfBreaks};
ghost use Rattle.gj_shape.specs.FunctionData.{FunctionData, IsWithinBounds};
ghost use Rattle.gj_function_text.specs.FunctionText.{IsFunctionText, IsWholeFunctionText};
ghost use Rattle.gj_function_text.specs.FunctionText.{IsCanonicalText, canonical_breaks_text};
ghost use Rattle.gj_function_text.specs.FirstFault.{IsFirstFaultOfFunction, IsFirstFaultOfWhole};
ghost use Rattle.gj_function_text.specs.RuleText.{IsRuleText, IsFirstFaultOfRule};
ghost use Rattle.gj_function_text.specs.LinesOfFunction.{HasLinesOfFunction, HasLinesOfFamily};
ghost use Rattle.gj_function_text.specs.LinesOfFunction.{HasLinesOfBreaks};

/// A text begins with the function text of one function at most, and that ends at one place.
pub fn one_function_text()
    ensures { (text : List ℕ) (f g : FunctionData) (a b : List ℕ) →
        IsFunctionText text f a → IsFunctionText text g b → (f ≡ g) × (a ≡ b) }
{}

/// Whatever follows the canonical text of a function, it is read as a function text of that
/// function, all of it.
pub fn canonical_text_is_function_text()
    ensures { (f : FunctionData) (text after : List ℕ) → IsWithinBounds f → IsCanonicalText text f →
        IsFunctionText (text ++ after) f after }
{}

/// Whatever follows the canonical text of breakpoints that a text may have, it is read as a
/// function text of their function, all of it.
pub fn breaks_are_read_again()
    ensures { (list : BreakList) (f : FunctionData) (after : List ℕ) → AreBreaks list →
        list.breaks ≢ [] → IsOfBreaks list f →
        IsFunctionText (canonical_breaks_text list.place list.breaks ++ after) f after }
{}

/// A function has one canonical text.
pub fn one_canonical_text()
    ensures { (f : FunctionData) (a b : List ℕ) → IsWithinBounds f → IsCanonicalText a f →
        IsCanonicalText b f → a ≡ b }
{}

/// A function text has no fault, so that a refused text is that of no function.
pub fn no_fault_in_function_text()
    ensures front { (text rest : List ℕ) (f : FunctionData) (n : ℕ) (e : Reason) →
        IsFunctionText text f rest → IsFirstFaultOfFunction text n e → ⊥ }
    ensures whole { (text : List ℕ) (f : FunctionData) (n : ℕ) (e : Reason) →
        IsWholeFunctionText text f → IsFirstFaultOfWhole text n e → ⊥ }
{}

/// A text has one first fault, as a function text with something behind it and as one with nothing
/// behind it: a refusal says which.
pub fn one_first_fault()
    ensures front { (text : List ℕ) (n m : ℕ) (e d : Reason) →
        IsFirstFaultOfFunction text n e → IsFirstFaultOfFunction text m d → (n ≡ m) × (e ≡ d) }
    ensures whole { (text : List ℕ) (n m : ℕ) (e d : Reason) →
        IsFirstFaultOfWhole text n e → IsFirstFaultOfWhole text m d → (n ≡ m) × (e ≡ d) }
{}

/// A text is a function text exactly if it has the lines `gj-function 1`, `order Q`, `f F`, a line
/// for each point of a function within the bounds, and `end`; or `gj-function 1`, a line that names
/// a function of a family, and `end`; or `gj-function 2`, `f F`, a line for each of one or more
/// breakpoints that ascend from 0 to below 1, and `end`; with lines that are skipped only before
/// each.
pub fn function_text_is_lines()
    ensures { (text : List ℕ) (f : FunctionData) (rest : List ℕ) →
        IsFunctionText text f rest ↔ (HasLinesOfFunction text f rest ⊎
        HasLinesOfFamily text f rest ⊎ HasLinesOfBreaks text f rest) }
{}

/// The canonical text of a function has at most 1,000,000 bytes.
pub fn canonical_text_is_short()
    ensures { (f : FunctionData) (text : List ℕ) → IsWithinBounds f → IsCanonicalText text f →
        length text ≤ 1000000 }
{}

/// A rule text ends at one place and has no fault, and a text that is none has one first fault.
pub fn one_rule_text()
    ensures end { (text a b : List ℕ) → IsRuleText text a → IsRuleText text b → a ≡ b }
    ensures no_fault { (text rest : List ℕ) (n : ℕ) (e : Reason) → IsRuleText text rest →
        IsFirstFaultOfRule text n e → ⊥ }
    ensures fault { (text : List ℕ) (n m : ℕ) (e d : Reason) →
        IsFirstFaultOfRule text n e → IsFirstFaultOfRule text m d → (n ≡ m) × (e ≡ d) }
{}
