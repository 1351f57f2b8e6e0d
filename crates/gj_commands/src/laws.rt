//! Laws of texts that commands write.
ghost use Rattle.std.specs.Prelude.{◌≡◌, ℕ, List, All, flat_map};
ghost use Rattle.gj_shape.specs.FunctionData.{FunctionData};
ghost use Rattle.gj_row.specs.TableauLimits.{IsTableau};
ghost use Rattle.gj_row.specs.declared.tableau.Tableau.{Tableau};
ghost use Rattle.gj_proof.specs.declared.cut.CutRule.{CutRule};
ghost use Rattle.gj_cut_text.specs.MixedLines.{AreMixedCutsOf, mixed_row_text};
ghost use Rattle.gj_cut_text.specs.declared.mixed_lines.MixedLine.{MixedLine};
ghost use Rattle.gj_commands.specs.CommandTexts.{Calls, CallsByLimits};
ghost use Rattle.gj_commands.specs.MixedNames.{HasMixedNames};

/// No text calls a function by limits and another one without them: its first line tells which.
pub fn one_kind_of_proof_text()
    ensures { (f g : FunctionData) (text word other : List ℕ) → Calls f text word →
        CallsByLimits g text other → ⊥ }
{}

/// The lines of mixed cuts are those of one list of cuts, if the names in them are names. No other
/// premise is needed. The lines that `mixed` writes have such names: those of a tableau.
pub fn one_list_of_mixed_cuts()
    ensures list { (cuts others : List MixedLine) → All HasMixedNames cuts →
        All HasMixedNames others →
        flat_map mixed_row_text cuts ≡ flat_map mixed_row_text others → cuts ≡ others }
    ensures names { (r : CutRule) (t : Tableau) (text : List ℕ) → IsTableau t →
        (cuts : AreMixedCutsOf r t text) → All HasMixedNames cuts.lines }
{}
