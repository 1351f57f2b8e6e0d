//! Laws of texts of derivations.
ghost use Rattle.std.specs.Prelude.{ℕ, List};
ghost use Rattle.gj_derivation.specs.declared.draft.Shown.{Shown};
ghost use Rattle.gj_derivation_text.specs.DerivationInputs.{IsDerivationText};
ghost use Rattle.gj_derivation_text.specs.PrintedDerivation.{IsDerivedText};
ghost use Rattle.gj_derivation_text.specs.Readable.{IsReadableDerivation};
ghost use Rattle.gj_derivation_text.specs.declared.input.DerivationInput.{DerivationInput};

/// The printed text of a derivation is read as that derivation: the lines of the steps that are
/// left out are skipped.
pub fn derived_text_is_read()
    ensures { (d : DerivationInput) (constraints names : List (List ℕ)) (shown : List Shown)
        (text : List ℕ) → IsReadableDerivation d → IsDerivedText d constraints names shown text →
        (left : List ℕ) × IsDerivationText text (record d { left = left }) }
{}
