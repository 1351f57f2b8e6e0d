//! Laws of proof texts.

ghost use Rattle.std.specs.Prelude.{◌≡◌, ◌↔◌, ◌+◌, ◌≤◌, [], ◌++◌, ℕ, List, length};
ghost use Rattle.gj_forms.specs.TextLines.{line_feeds};
ghost use Rattle.gj_lex.specs.declared.reason.Reason.{Reason};
ghost use Rattle.gj_shape.specs.FunctionData.{FunctionData, IsWithinBounds};
ghost use Rattle.gj_shape.specs.declared.extremality.CoverLine.{CoverLine};
ghost use Rattle.gj_proof.specs.declared.claim.Claim.{Claim};
ghost use Rattle.gj_proof.specs.declared.numbers.Numbers.{Numbers};
ghost use Rattle.gj_proof.specs.declared.pivot.PivotRow.{PivotRow};
ghost use Rattle.gj_proof.specs.ProofText.{ProofLine, extreme_claim, IsBounded, IsShort};
ghost use Rattle.gj_proof.specs.ProofText.{HaveFewSteps, longest_extreme_text, IsProofText};
ghost use Rattle.gj_proof.specs.ProofText.{HasBytes, HasNumber};
ghost use Rattle.gj_proof.specs.ProofGrammar.{proof_text};
ghost use Rattle.gj_proof.specs.FirstFault.{IsFirstFaultOfProof};

/// The texts that read as a claim, from their title to their end, are the texts of that claim; its
/// function is then within the limits.
pub fn proof_texts_are_read()
    ensures { (c : Claim) (text : List ℕ) → proof_text.Reads text c [] ↔
        (IsBounded c × IsProofText c text) }
{}

/// A claim has one text, and a text is that of one claim: what was read is written as the same
/// bytes, and what was written is read as the same proof.
pub fn one_spelling()
    ensures text { (c : Claim) (a b : List ℕ) → IsBounded c →
        IsProofText c a → IsProofText c b → a ≡ b }
    ensures claim { (c d : Claim) (text : List ℕ) → IsBounded c → IsBounded d →
        IsProofText c text → IsProofText d text → c ≡ d }
{}

/// The text of a claim has no fault, so that a refused text is that of no claim.
pub fn no_fault_in_proof_text()
    ensures { (c : Claim) (text : List ℕ) (n : ℕ) (e : Reason) → IsBounded c → IsProofText c text →
        IsFirstFaultOfProof text n e → ⊥ }
{}

/// A text has one first fault: a refusal says which.
pub fn one_first_fault()
    ensures { (text : List ℕ) (n m : ℕ) (e d : Reason) →
        IsFirstFaultOfProof text n e → IsFirstFaultOfProof text m d → (n ≡ m) × (e ≡ d) }
{}

/// A line has one number at most, and in the text of a claim the line with that number is that
/// line.
pub fn numbers_of_lines()
    ensures one { (c : Claim) (l : ProofLine) (n m : ℕ) → HasNumber c l n →
        HasNumber c l m → n ≡ m }
    ensures line { (c : Claim) (text bytes : List ℕ) (l : ProofLine) (n : ℕ) → IsBounded c →
        IsProofText c text →
        HasBytes c l bytes → HasNumber c l n →
        (before rest : List ℕ) × (text ≡ before ++ (bytes ++ rest)) × (n ≡ line_feeds before + 1) }
{}

/// The text of a claim is at most 1,000,000 bytes long, unless it has any number of lines of its
/// own.
pub fn proof_text_is_short()
    ensures { (c : Claim) (text : List ℕ) → IsShort c → IsBounded c → IsProofText c text →
        length text ≤ 1_000_000 }
{}

/// The text of a claim that a function is extreme is at most 12,000,000 bytes long if it has at
/// most 1,000 groups of at most 1,000 steps each.
pub fn extreme_proof_text_is_short()
    ensures { (numbers : Numbers) (f : FunctionData) (lines : List CoverLine)
        (rows : List PivotRow) (text : List ℕ) →
        IsWithinBounds f → HaveFewSteps rows →
        IsProofText (extreme_claim numbers f lines rows) text → length text ≤ longest_extreme_text }
{}
