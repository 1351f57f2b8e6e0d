//! Laws of proof texts about functions that jump.

ghost use Rattle.std.specs.Prelude.{◌≡◌, ◌↔◌, ◌+◌, [], ◌++◌, ℕ, List, All};
ghost use Rattle.gj_forms.specs.TextLines.{line_feeds};
ghost use Rattle.gj_lex.specs.declared.reason.Reason.{Reason};
ghost use Rattle.gj_proof.specs.ProofText.{ProofLine};
ghost use Rattle.gj_limit_proof.specs.FirstFault.{IsFirstFaultOfLimitProof};
ghost use Rattle.gj_limit_proof.specs.LimitGrammar.{limit_proof_text};
ghost use Rattle.gj_limit_proof.specs.LimitText.{IsBounded, IsLimitProofText};
ghost use Rattle.gj_limit_proof.specs.LimitText.{HasBytes, HasNumber};
ghost use Rattle.gj_limit_proof.specs.PrintedBytes.{IsTextByte, IsEnded};
ghost use Rattle.gj_limit_proof.specs.declared.claim.LimitClaim.{LimitClaim};

/// The texts that read as a claim, from their title to their end, are the texts of that claim; its
/// function is then within the limits.
pub fn limit_proof_texts_are_read()
    ensures { (c : LimitClaim) (text : List ℕ) → limit_proof_text.Reads text c [] ↔
        (IsBounded c × IsLimitProofText c text) }
{}

/// A claim has one text, and a text is that of one claim: what was read is written as the same
/// bytes, and what was written is read as the same proof.
pub fn one_limit_spelling()
    ensures text { (c : LimitClaim) (a b : List ℕ) → IsBounded c →
        IsLimitProofText c a → IsLimitProofText c b → a ≡ b }
    ensures claim { (c d : LimitClaim) (text : List ℕ) → IsBounded c → IsBounded d →
        IsLimitProofText c text → IsLimitProofText d text → c ≡ d }
{}

/// The text of a claim has no fault, so that a refused text is that of no claim.
pub fn no_fault_in_limit_proof_text()
    ensures { (c : LimitClaim) (text : List ℕ) (n : ℕ) (e : Reason) → IsBounded c →
        IsLimitProofText c text → IsFirstFaultOfLimitProof text n e → ⊥ }
{}

/// A text has one first fault: a refusal says which.
pub fn one_first_limit_fault()
    ensures { (text : List ℕ) (n m : ℕ) (e d : Reason) → IsFirstFaultOfLimitProof text n e →
        IsFirstFaultOfLimitProof text m d → (n ≡ m) × (e ≡ d) }
{}

/// A line has one number at most, and in the text of a claim the line with that number is that
/// line.
pub fn numbers_of_limit_lines()
    ensures one { (c : LimitClaim) (l : ProofLine) (n m : ℕ) → HasNumber c l n →
        HasNumber c l m → n ≡ m }
    ensures line { (c : LimitClaim) (text bytes : List ℕ) (l : ProofLine) (n : ℕ) → IsBounded c →
        IsLimitProofText c text →
        HasBytes c l bytes → HasNumber c l n →
        (before rest : List ℕ) × (text ≡ before ++ (bytes ++ rest)) × (n ≡ line_feeds before + 1) }
{}

/// The bytes of the text of a claim are line feeds and printable ASCII, and the last is a line
/// feed.
pub fn limit_proof_text_is_printable()
    ensures bytes { (c : LimitClaim) (text : List ℕ) → IsBounded c → IsLimitProofText c text →
        All IsTextByte text }
    ensures ended { (c : LimitClaim) (text : List ℕ) → IsLimitProofText c text → IsEnded text }
{}
