//! Laws of the decision.
ghost use Rattle.std.specs.Prelude.{ℕ, ◌≡◌, ◌*◌, ◌≤◌, ◌^◌, List, length};
ghost use Rattle.gj_shape.specs.FunctionData.{FunctionData, IsWithinBounds};
ghost use Rattle.gj_shape.specs.Table.{IsMinimal};
ghost use Rattle.gj_shape.specs.TwoSlopes.{HasTwoSlopes};
ghost use Rattle.gj_shape.specs.declared.extremality.CoverLine.{CoverLine};
ghost use Rattle.gj_proof.specs.Meaning.{ClaimHolds};
ghost use Rattle.gj_proof.specs.ProofText.{HasText, longest_extreme_text, IsProofText, numbers_of};
ghost use Rattle.gj_proof.specs.declared.claim.Claim.{Claim};
ghost use Rattle.gj_proof.specs.declared.numbers.Numbers.TheVariants.{Whole};
ghost use Rattle.gj_extreme.specs.Decision.{AreAllCovered, IsDecided, IsExtremeClaim, IsTooWide};

/// What the decision gives of a function within the limits holds, and is decided by the function
/// alone. A proof of a minimal function excludes numbers that are too wide.
pub fn decided_claims()
    ensures holds { (f : FunctionData) (c : Claim) → IsWithinBounds f →
        IsDecided f c → ClaimHolds c }
    ensures one { (f : FunctionData) (c d : Claim) → IsWithinBounds f → IsDecided f c →
        IsDecided f d → c ≡ d }
    ensures not_wide { (f : FunctionData) (c : Claim) → IsWithinBounds f → IsMinimal f →
        HasText c → IsDecided f c →
        IsTooWide f → ⊥ }
{}

/// The proof text of what the decision gives of a function within the limits is at most 12,000,000
/// bytes long.
pub fn decided_texts_are_short()
    ensures { (f : FunctionData) (c : Claim) (text : List ℕ) → IsWithinBounds f → IsDecided f c →
        IsProofText c text →
        length text ≤ longest_extreme_text }
{}

/// With at most four components no number is too wide, and a proof is never by residues.
pub fn few_components_are_not_wide()
    ensures not_wide { (f : FunctionData) (lines : List CoverLine) (component : ℕ → ℕ) (n : ℕ) →
        IsWithinBounds f →
        AreAllCovered f lines component n → n ≤ 4 → IsTooWide f → ⊥ }
    ensures plain { (f : FunctionData) (lines : List CoverLine) (component : ℕ → ℕ) (n : ℕ)
        (c : Claim) → IsWithinBounds f →
        AreAllCovered f lines component n → n ≤ 4 → IsDecided f c → numbers_of c ≡ Whole }
{}

/// What the decision gives of a minimal continuous function with two slopes is that it is extreme,
/// and no number is too wide.
pub fn two_slopes_are_decided_extreme()
    ensures extreme { (f : FunctionData) (c : Claim) → IsWithinBounds f → IsMinimal f →
        HasTwoSlopes f → IsDecided f c →
        IsExtremeClaim f c }
    ensures not_wide { (f : FunctionData) → IsWithinBounds f → IsMinimal f →
        HasTwoSlopes f → IsTooWide f → ⊥ }
{}
