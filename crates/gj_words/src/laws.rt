//! What the grammar of the words is.

ghost use Rattle.std.specs.Prelude.{◌≡◌, ℕ, List};
ghost use Rattle.gj_words.specs.Grammar.{SpellRequest};
ghost use Rattle.gj_words.specs.declared.requests.Request.{Request};

/// Words spell at most one request.
pub fn one_request()
    ensures { (words : List (List ℕ)) (one other : Request) → SpellRequest words one →
        SpellRequest words other → one ≡ other }
{}
