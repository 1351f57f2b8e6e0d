//! What the rules say of a claim.
ghost use Rattle.std.specs.Prelude.{◌≡◌, ℕ};
ghost use Rattle.gj_proof.specs.declared.claim.Claim.{Claim};
ghost use Rattle.gj_proof.specs.ProofText.{IsBounded, HasText};
ghost use Rattle.gj_proof.specs.Rules.{MeetsRules};
ghost use Rattle.gj_proof.specs.Meaning.{ClaimHolds};
ghost use Rattle.gj_check.specs.declared.rules.CheckRule.{CheckRule};
ghost use Rattle.gj_check.specs.FirstFailure.{IsFirstFailure};

/// If every rule holds of a claim that has a text, what the claim says of its subject is true.
pub fn rules_give_meaning()
    ensures { (c : Claim) → IsBounded c → HasText c → MeetsRules c → ClaimHolds c }
{}

/// One rule at one line is the first that fails, and none if every rule holds.
pub fn one_first_failure()
    ensures one { (c : Claim) (n m : ℕ) (rule other : CheckRule) →
        IsFirstFailure c n rule → IsFirstFailure c m other → (n ≡ m) × (rule ≡ other) }
    ensures none { (c : Claim) (n : ℕ) (rule : CheckRule) → IsFirstFailure c n rule →
        MeetsRules c → ⊥ }
{}
