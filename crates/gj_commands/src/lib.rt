//! What each command writes: a theorem for each command, as a clause of [`run_command`].
//!
//! Who cites the verdict of one command needs the definitions of its clause alone.
#![tactic(auto)]

ghost use Rattle.std.specs.Prelude.{◌≡◌, ◌⊎◌, ◌<◌, ◌≤◌, ℕ, List, [], ◌∷◌, All, Some, codes};
ghost use Rattle.std.specs.Prelude.{decimal};
ghost use Rattle.gj_forms.specs.TextLines.{HasNothing};
ghost use Rattle.gj_lex.specs.declared.spelling.Spelling.TheVariants as spelling;
ghost use Rattle.gj_shape.specs.Extreme.{IsExtreme};
ghost use Rattle.gj_shape.specs.FunctionData.{FunctionData, IsWithinBounds, IsContinuous};
ghost use Rattle.gj_shape.specs.Table.{IsMinimal};
ghost use Rattle.gj_shape.specs.declared.extremality.Halves.{Halves};
ghost use Rattle.gj_function_text.specs.FunctionText.{IsCanonicalText};
ghost use Rattle.gj_function_text.specs.LinesOfFunction.{HasLinesOfFunction, HasLinesOfFamily};
ghost use Rattle.gj_function_text.specs.LinesOfFunction.{HasLinesOfBreaks};
ghost use Rattle.gj_proof.specs.Meaning.{ClaimHolds, CutLineHolds};
ghost use Rattle.gj_proof.specs.ProofText.{claim_word};
ghost use Rattle.gj_proof.specs.declared.claim.Claim.{Claim};
ghost use Rattle.gj_proof.specs.declared.cut.CutLine.{CutLine};
ghost use Rattle.gj_proof.specs.declared.cut.CutRule.{CutRule};
ghost use Rattle.gj_limit_proof.specs.LimitMeaning.{LimitClaimHolds};
ghost use Rattle.gj_limit_proof.specs.LimitText.{claim_word as limit_claim_word};
ghost use Rattle.gj_limit_proof.specs.declared.claim.LimitClaim.{LimitClaim};
ghost use Rattle.gj_cut_text.specs.MixedLines.{AreMixedCutsOf, MixedLineHolds};
ghost use Rattle.gj_cut_text.specs.declared.mixed_lines.MixedLine.{MixedLine};
ghost use Rattle.gj_demo.specs.Summary.{IsSummary};
ghost use Rattle.gj_verdict_text.specs.FacesText.{IsFacesText};
ghost use Rattle.gj_json.specs.JsonFunction.{IsJsonFunction};
ghost use Rattle.gj_json.specs.JsonText.{IsJsonText};
ghost use Rattle.gj_top.specs.Cut.{AreCutsOf, SpellsCutInput};
ghost use Rattle.gj_top.specs.declared.cut_input.CutInput.{CutInput};
ghost use Rattle.gj_top.specs.Faces.{IsJumpsFacesText};
ghost use Rattle.gj_top.specs.Forms.{IsFunctionInput, IsProofOf, IsLimitProofOf};
ghost use Rattle.gj_problem_text.specs.PrintedInput.{IsPrintedInput};
ghost use Rattle.gj_problem_text.specs.SafeInputs.{IsSafeInput};
ghost use Rattle.gj_problem_text.specs.declared.input.SafeInput.{SafeInput};
ghost use Rattle.gj_top.specs.Problem.{AreProblemCuts};
ghost use Rattle.gj_derivation_text.specs.DerivationInputs.{IsDerivationText, IsDraftText};
ghost use Rattle.gj_derivation_text.specs.declared.input.DerivationInput.{DerivationInput};
ghost use Rattle.gj_derivation_text.specs.declared.input.DraftInput.{DraftInput};
ghost use Rattle.gj_top.specs.Derive.{IsTrueDerivedText};
ghost use Rattle.gj_top.specs.Told.{Told, IsTold};
ghost use Rattle.gj_top.specs.Fill.{IsFillText};
ghost use Rattle.gj_top.specs.Group.{IsTrueGroupText};
ghost use Rattle.gj_top.specs.Transform.{IsTimesText, IsMirrorText, IsRestrictionText};
ghost use Rattle.gj_commands.specs.CommandTexts.{HasWritten, IsTextOf, Calls, Reports, accepted};
ghost use Rattle.gj_commands.specs.CommandTexts.{TellsMinimality, TellsExtremality};
ghost use Rattle.gj_commands.specs.CommandTexts.{ShowsNotMinimal, ShowsNotExtreme};
ghost use Rattle.gj_commands.specs.CommandTexts.{CallsByLimits, TellsJumpsExtremality};
ghost use Rattle.gj_commands.specs.CommandTexts.{ShowsNotExtremeByLimits, ProvesClaim};
ghost use Rattle.gj_commands.specs.CommandTexts.{IsCalledExtremeIn, IsCalledNotExtremeIn};
ghost use Rattle.gj_commands.specs.CommandTexts.{IsTextOfCutLines, IsTextOfMixedLines};
ghost use Rattle.gj_commands.specs.CommandTexts.{IsPrintedDerivation, AreTrueSteps};

mod laws;

use gj_port::{Sink, Source};
use gj_top::{Status, run};
pub use laws::{one_kind_of_proof_text, one_list_of_mixed_cuts};
use std::alloc::Global;

/// Runs as [`run`] does. Each clause is a theorem about one command: if its words were given and
/// the run ended with Done, this holds of the input and of what was written. Who cites one needs
/// the definitions of no other command.
pub fn run_command<S: Source, K: Sink>(
    alloc: Global,
    words: &[String],
    source: &mut S,
    sink: &mut K,
) -> Status
    // What `minimal` writes calls a function, whose lines stand in it, what it is: minimal, or not
    // minimal.
    ensures minimal { HasWritten (codes "minimal" ∷ [])
        (λ input text. (f : FunctionData) × IsWithinBounds f × TellsMinimality f (Calls f text))
        words.now result (S.left source.old) (K.written sink.old) (K.written sink.new) }

    // And so it calls the function whose canonical text is the input, or that any function text,
    // or with `--json` a function in JSON, gives.
    ensures minimal_of { HasWritten (codes "minimal" ∷ [])
        (λ input text. (f : FunctionData) → IsTextOf f input → TellsMinimality f (Calls f text))
        words.now result (S.left source.old) (K.written sink.old) (K.written sink.new) }
    ensures minimal_input { HasWritten (codes "minimal" ∷ [])
        (λ input text. (f : FunctionData) → IsFunctionInput input f → TellsMinimality f
        (Calls f text))
        words.now result (S.left source.old) (K.written sink.old) (K.written sink.new) }
    ensures minimal_json { HasWritten (codes "minimal" ∷ codes "--json" ∷ [])
        (λ input text. (f : FunctionData) → IsJsonFunction input f → TellsMinimality f
        (Reports text))
        words.now result (S.left source.old) (K.written sink.old) (K.written sink.new) }

    // Its lines show why a function is not minimal.
    ensures minimal_shown { HasWritten (codes "minimal" ∷ [])
        (λ input text. (f : FunctionData) × IsWithinBounds f ×
        (Calls f text (codes "minimal") ⊎ ShowsNotMinimal f text))
        words.now result (S.left source.old) (K.written sink.old) (K.written sink.new) }

    // It is the proof text of a claim that holds.
    ensures minimal_claim { HasWritten (codes "minimal" ∷ [])
        (λ input text. (c : Claim) × IsProofOf text c × ClaimHolds c)
        words.now result (S.left source.old) (K.written sink.old) (K.written sink.new) }

    // What `extreme` writes calls a function, whose lines stand in it, what it is: extreme, or
    // minimal and not extreme, or not minimal.
    ensures extreme { HasWritten (codes "extreme" ∷ [])
        (λ input text. (f : FunctionData) × IsWithinBounds f × TellsExtremality f (Calls f text))
        words.now result (S.left source.old) (K.written sink.old) (K.written sink.new) }

    // And so it calls the function whose canonical text is the input, or that any function text,
    // or with `--json` a function in JSON, gives.
    ensures extreme_of { HasWritten (codes "extreme" ∷ [])
        (λ input text. (f : FunctionData) → IsTextOf f input → TellsExtremality f (Calls f text))
        words.now result (S.left source.old) (K.written sink.old) (K.written sink.new) }
    ensures extreme_input { HasWritten (codes "extreme" ∷ [])
        (λ input text. (f : FunctionData) → IsFunctionInput input f → TellsExtremality f
        (Calls f text))
        words.now result (S.left source.old) (K.written sink.old) (K.written sink.new) }
    ensures extreme_json { HasWritten (codes "extreme" ∷ codes "--json" ∷ [])
        (λ input text. (f : FunctionData) → IsJsonFunction input f → TellsExtremality f
        (Reports text))
        words.now result (S.left source.old) (K.written sink.old) (K.written sink.new) }

    // Its lines show why a function is not extreme, or not minimal.
    ensures extreme_shown { HasWritten (codes "extreme" ∷ [])
        (λ input text. (f : FunctionData) × IsWithinBounds f × (Calls f text (codes "extreme") ⊎
        ShowsNotExtreme f text ⊎ ShowsNotMinimal f text))
        words.now result (S.left source.old) (K.written sink.old) (K.written sink.new) }

    // It is the proof text of a claim that holds.
    ensures extreme_claim { HasWritten (codes "extreme" ∷ [])
        (λ input text. (c : Claim) × IsProofOf text c × ClaimHolds c)
        words.now result (S.left source.old) (K.written sink.old) (K.written sink.new) }

    // With `--jumps` it also calls a function that jumps what it is, in a text of its own kind:
    // extreme, or minimal and not extreme. So it calls the function whose canonical text is the
    // input, or that any function text, or with `--json` a function in JSON, gives.
    ensures extreme_jumps { HasWritten (codes "extreme" ∷ codes "--jumps" ∷ [])
        (λ input text. (f : FunctionData) × IsWithinBounds f × TellsJumpsExtremality f
        (Calls f text) (CallsByLimits f text))
        words.now result (S.left source.old) (K.written sink.old) (K.written sink.new) }
    ensures extreme_jumps_of { HasWritten (codes "extreme" ∷ codes "--jumps" ∷ [])
        (λ input text. (f : FunctionData) → IsTextOf f input → TellsJumpsExtremality f
        (Calls f text) (CallsByLimits f text))
        words.now result (S.left source.old) (K.written sink.old) (K.written sink.new) }
    ensures extreme_jumps_input { HasWritten (codes "extreme" ∷ codes "--jumps" ∷ [])
        (λ input text. (f : FunctionData) → IsFunctionInput input f → TellsJumpsExtremality f
        (Calls f text) (CallsByLimits f text))
        words.now result (S.left source.old) (K.written sink.old) (K.written sink.new) }
    ensures extreme_jumps_json { HasWritten
        (codes "extreme" ∷ codes "--json" ∷ codes "--jumps" ∷ [])
        (λ input text. (f : FunctionData) → IsJsonFunction input f → TellsJumpsExtremality f
        (Reports text) (Reports text))
        words.now result (S.left source.old) (K.written sink.old) (K.written sink.new) }

    // Its lines show why a function is not extreme, or not minimal.
    ensures extreme_jumps_shown { HasWritten (codes "extreme" ∷ codes "--jumps" ∷ [])
        (λ input text. (f : FunctionData) × IsWithinBounds f × (Calls f text (codes "extreme") ⊎
        ShowsNotExtreme f text ⊎ ShowsNotMinimal f text ⊎ CallsByLimits f text (codes "extreme") ⊎
        ShowsNotExtremeByLimits f text))
        words.now result (S.left source.old) (K.written sink.old) (K.written sink.new) }

    // It is the proof text of a claim that holds.
    ensures extreme_jumps_claim { HasWritten (codes "extreme" ∷ codes "--jumps" ∷ [])
        (λ input text. ProvesClaim text)
        words.now result (S.left source.old) (K.written sink.old) (K.written sink.new) }

    // What `check` writes accepts the input: that calls a function what it is, or has cuts that
    // hold.
    ensures check_minimal { HasWritten (codes "check" ∷ [])
        (λ input text. text ≡ accepted (codes "minimal") → (f : FunctionData) × IsWithinBounds f ×
        Calls f input (codes "minimal") × IsMinimal f)
        words.now result (S.left source.old) (K.written sink.old) (K.written sink.new) }
    ensures check_not_minimal { HasWritten (codes "check" ∷ [])
        (λ input text. text ≡ accepted (codes "not-minimal") → (f : FunctionData) × IsWithinBounds f
        × Calls f input (codes "not-minimal") × (IsMinimal f → ⊥))
        words.now result (S.left source.old) (K.written sink.old) (K.written sink.new) }
    ensures check_extreme { HasWritten (codes "check" ∷ [])
        (λ input text. text ≡ accepted (codes "extreme") → (f : FunctionData) × IsWithinBounds f ×
        IsCalledExtremeIn f input)
        words.now result (S.left source.old) (K.written sink.old) (K.written sink.new) }
    ensures check_not_extreme { HasWritten (codes "check" ∷ [])
        (λ input text. text ≡ accepted (codes "not-extreme") → (f : FunctionData) × IsWithinBounds f
        × IsCalledNotExtremeIn f input)
        words.now result (S.left source.old) (K.written sink.old) (K.written sink.new) }
    ensures check_cut { HasWritten (codes "check" ∷ [])
        (λ input text. text ≡ accepted (codes "cut") → (r : CutRule) × (lines : List CutLine) ×
        IsTextOfCutLines r lines input × All CutLineHolds lines)
        words.now result (S.left source.old) (K.written sink.old) (K.written sink.new) }

    // The input is the proof text of a claim that holds, or of one about a function that jumps, or
    // what is accepted is a derivation.
    ensures check_claim { HasWritten (codes "check" ∷ [])
        (λ input text. ((c : Claim) × IsProofOf input c × ClaimHolds c ×
        (text ≡ accepted (claim_word c))) ⊎
        ((c : LimitClaim) × IsLimitProofOf input c × LimitClaimHolds c ×
        (text ≡ accepted (limit_claim_word c))) ⊎ (text ≡ accepted (codes "derivation")))
        words.now result (S.left source.old) (K.written sink.old) (K.written sink.new) }

    // Of an input that is the printed text of a derivation: each claim holds at all feasible points
    // of the problem, and `check` writes that it accepts the derivation.
    ensures check_derivation { HasWritten (codes "check" ∷ [])
        (λ input text. (d : DerivationInput) → IsPrintedDerivation d input →
        AreTrueSteps d × (text ≡ accepted (codes "derivation")))
        words.now result (S.left source.old) (K.written sink.old) (K.written sink.new) }

    // And so of the derivation that any input tells.
    ensures check_derivation_input { HasWritten (codes "check" ∷ [])
        (λ input text. text ≡ accepted (codes "derivation") →
        (d : DerivationInput) × IsDerivationText input d × AreTrueSteps d)
        words.now result (S.left source.old) (K.written sink.old) (K.written sink.new) }

    // What `derive` writes is the printed text of a derivation, and each claim holds at all feasible
    // points of its problem.
    ensures derive { HasWritten (codes "derive" ∷ [])
        (λ input text. (d : DerivationInput) × IsPrintedDerivation d text × AreTrueSteps d)
        words.now result (S.left source.old) (K.written sink.old) (K.written sink.new) }

    // Its problem is that of the input, and so is the function in front of it.
    ensures derive_input { HasWritten (codes "derive" ∷ [])
        (λ input text. (t : Told DraftInput) × IsTold IsDraftText input t ×
        IsTrueDerivedText t text)
        words.now result (S.left source.old) (K.written sink.old) (K.written sink.new) }

    // Each cut that `cut` or `mixed` writes holds at every solution of the row that stands with
    // it.
    ensures cut { HasWritten (codes "cut" ∷ [])
        (λ input text. (r : CutRule) × (lines : List CutLine) × IsTextOfCutLines r lines text × All
        CutLineHolds lines)
        words.now result (S.left source.old) (K.written sink.old) (K.written sink.new) }
    ensures mixed { HasWritten (codes "mixed" ∷ [])
        (λ input text. (r : CutRule) × (lines : List MixedLine) × IsTextOfMixedLines r lines text ×
        All MixedLineHolds lines)
        words.now result (S.left source.old) (K.written sink.old) (K.written sink.new) }

    // And its rows are those of the tableau in the input.
    ensures cut_input { HasWritten (codes "cut" ∷ [])
        (λ input text. (given : CutInput) → SpellsCutInput input given → AreCutsOf given text)
        words.now result (S.left source.old) (K.written sink.old) (K.written sink.new) }
    ensures mixed_input { HasWritten (codes "mixed" ∷ [])
        (λ input text. (given : CutInput) → SpellsCutInput input given → AreMixedCutsOf given.rule
        given.tableau text)
        words.now result (S.left source.old) (K.written sink.old) (K.written sink.new) }

    // Of an input that is the printed text of a problem with its rule: what `problem` writes has a
    // cut, or why there is none, as often as there are rows, and each cut holds at all feasible
    // points of the problem.
    ensures problem { HasWritten (codes "problem" ∷ [])
        (λ input text. (asked : SafeInput) → IsPrintedInput asked input → AreProblemCuts asked text)
        words.now result (S.left source.old) (K.written sink.old) (K.written sink.new) }

    // And so of the problem that any input spells.
    ensures problem_input { HasWritten (codes "problem" ∷ [])
        (λ input text. (asked : SafeInput) × IsSafeInput input asked × AreProblemCuts asked text)
        words.now result (S.left source.old) (K.written sink.old) (K.written sink.new) }

    // Of the function whose canonical text is the input: what `group` says of its table of its own
    // order is so; `faces` lists its maximal additive faces and its covered intervals, with
    // `--jumps` also of one that jumps; `fill` writes its fill-in; and `times`, `mirror` and
    // `restrict` write the canonical text of the function that they make of it.
    ensures group { HasWritten (codes "group" ∷ [])
        (λ input text. (f : FunctionData) → IsTextOf f input → IsTrueGroupText f text)
        words.now result (S.left source.old) (K.written sink.old) (K.written sink.new) }
    ensures faces { HasWritten (codes "faces" ∷ [])
        (λ input text. (f : FunctionData) → IsTextOf f input → IsFacesText f text)
        words.now result (S.left source.old) (K.written sink.old) (K.written sink.new) }
    ensures faces_jumps { HasWritten (codes "faces" ∷ codes "--jumps" ∷ [])
        (λ input text. (f : FunctionData) → IsTextOf f input → IsJumpsFacesText f text)
        words.now result (S.left source.old) (K.written sink.old) (K.written sink.new) }
    ensures fill { HasWritten (codes "fill" ∷ [])
        (λ input text. (f : FunctionData) → IsTextOf f input → IsFillText f text)
        words.now result (S.left source.old) (K.written sink.old) (K.written sink.new) }
    ensures times { (n j : ℕ) → 1 ≤ n → n ≤ 500 → j < n →
        HasWritten (codes "times" ∷ decimal n ∷ decimal j ∷ [])
        (λ input text. (f : FunctionData) → IsTextOf f input → IsTimesText n j f text)
        words.now result (S.left source.old) (K.written sink.old) (K.written sink.new) }
    ensures mirror { HasWritten (codes "mirror" ∷ [])
        (λ input text. (f : FunctionData) → IsTextOf f input → IsMirrorText f text)
        words.now result (S.left source.old) (K.written sink.old) (K.written sink.new) }
    ensures restrict { (d : ℕ) → 2 ≤ d → d ≤ 1000 → HasWritten (codes "restrict" ∷ decimal d ∷ [])
        (λ input text. (f : FunctionData) → IsTextOf f input → IsRestrictionText d f text)
        words.now result (S.left source.old) (K.written sink.old) (K.written sink.new) }

    // `show` writes the canonical text of the function of the input: of one by its points, as one
    // of a family, or by its breakpoints.
    ensures show_points { HasWritten (codes "show" ∷ [])
        (λ input text. (f : FunctionData) (rest : List ℕ) → HasLinesOfFunction input f rest →
        HasNothing spelling.Lenient rest → IsCanonicalText text f)
        words.now result (S.left source.old) (K.written sink.old) (K.written sink.new) }
    ensures show_family { HasWritten (codes "show" ∷ [])
        (λ input text. (f : FunctionData) (rest : List ℕ) → HasLinesOfFamily input f rest →
        HasNothing spelling.Lenient rest → IsCanonicalText text f)
        words.now result (S.left source.old) (K.written sink.old) (K.written sink.new) }
    ensures show_breaks { HasWritten (codes "show" ∷ [])
        (λ input text. (f : FunctionData) (rest : List ℕ) → HasLinesOfBreaks input f rest →
        HasNothing spelling.Lenient rest → IsCanonicalText text f)
        words.now result (S.left source.old) (K.written sink.old) (K.written sink.new) }
    ensures show_json { HasWritten (codes "show" ∷ codes "--json" ∷ [])
        (λ input text. (f : FunctionData) → IsJsonFunction input f → IsJsonText text f)
        words.now result (S.left source.old) (K.written sink.old) (K.written sink.new) }

    // The function that `demo` sums up is continuous and minimal, and not extreme.
    ensures demo { (n : ℕ) → 1 ≤ n → n ≤ 249 → HasWritten (codes "demo" ∷ decimal n ∷ [])
        (λ input text. (f : FunctionData) × (h : Halves) × IsSummary n f h text × IsContinuous f ×
        IsMinimal f × (IsExtreme f → ⊥))
        words.now result (S.left source.old) (K.written sink.old) (K.written sink.new) }
{
    run(alloc, words, source, sink)
}
