//! Laws of the definitions of this crate.
ghost use Rattle.std.specs.Prelude.{◌≡◌, ℕ};
ghost use Rattle.gj_lemmas.specs.Divisors.{IsLcm};

/// Two numbers have one least common multiple.
pub fn one_least_common_multiple()
    ensures { (a b m n : ℕ) → IsLcm a b m → IsLcm a b n → m ≡ n }
{}
