//! What the rules say of a claim.
ghost use Rattle.std.specs.Prelude.{◌≡◌, ℕ};
ghost use Rattle.gj_check.specs.declared.rules.CheckRule.{CheckRule};
ghost use Rattle.gj_limit_proof.specs.declared.claim.LimitClaim.{LimitClaim};
ghost use Rattle.gj_limit_proof.specs.LimitMeaning.{LimitClaimHolds};
ghost use Rattle.gj_limit_proof.specs.LimitRules.{MeetsLimitRules};
ghost use Rattle.gj_limit_proof.specs.LimitText.{IsBounded, HasText};
ghost use Rattle.gj_limit_check.specs.FirstFailure.{IsFirstLimitFailure};

/// If every rule holds of a claim that has a text, what the claim says of its function is true.
pub fn limit_rules_give_meaning()
    ensures { (c : LimitClaim) → IsBounded c → HasText c → MeetsLimitRules c → LimitClaimHolds c }
{}

/// One rule at one line is the first that fails, and none if every rule holds.
pub fn one_first_limit_failure()
    ensures one { (c : LimitClaim) (n m : ℕ) (rule other : CheckRule) →
        IsFirstLimitFailure c n rule → IsFirstLimitFailure c m other → (n ≡ m) × (rule ≡ other) }
    ensures none { (c : LimitClaim) (n : ℕ) (rule : CheckRule) → IsFirstLimitFailure c n rule →
        MeetsLimitRules c → ⊥ }
{}
