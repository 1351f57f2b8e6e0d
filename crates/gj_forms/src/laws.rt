//! What holds of every strict line.

ghost use Rattle.std.specs.Prelude.{ℕ, List};
ghost use Rattle.gj_lex.specs.declared.spelling.Spelling.{Spelling};
ghost use Rattle.gj_forms.specs.TextLines.{HasLine, HasStrictLine, IsSkipped};

use gj_lex::Spelling;

/// A strict line is a lenient line of the same words, unless its first word begins with `#`.
pub fn strict_line_is_lenient()
    ensures { (text : List ℕ) (words : List (List ℕ)) (rest : List ℕ) →
        HasStrictLine text words rest → (IsSkipped words → ⊥) →
        HasLine Spelling.Lenient text text words rest }
{}
