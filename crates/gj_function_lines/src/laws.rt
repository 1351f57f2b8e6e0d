//! Laws of the lines of a function.
ghost use Rattle.std.specs.Prelude.{◌≡◌, ◌≤◌, ◌++◌, ℕ, List, length};
ghost use Rattle.gj_lex.specs.declared.spelling.Spelling.{Spelling};
ghost use Rattle.gj_forms.specs.Parts.{IsExactPart};
ghost use Rattle.gj_shape.specs.FunctionData.{FunctionData, IsWithinBounds};
ghost use Rattle.gj_function_lines.specs.FunctionGrammar.{function_part};
ghost use Rattle.gj_function_lines.specs.FunctionLines.{AreFunctionLines};

use gj_lex::Spelling;

/// A text spells one function, whose lines end at one place, or is at fault first in one line for
/// one reason, and not both.
pub fn function_lines_are_exact()
    ensures { (s : Spelling) → IsExactPart (function_part s).Reads (function_part s).Faults }
{}

/// A function that is read is within bounds.
pub fn read_functions_are_within_bounds()
    ensures { (s : Spelling) (text : List ℕ) (f : FunctionData) (rest : List ℕ) →
        (function_part s).Reads text f rest → IsWithinBounds f }
{}

/// The lines of a function in their one spelling are read in either spelling.
pub fn canonical_lines_are_read()
    ensures { (s : Spelling) (f : FunctionData) (lines rest : List ℕ) → IsWithinBounds f →
        AreFunctionLines f lines →
        (function_part s).Reads (lines ++ rest) f rest }
{}

/// What is read in strict spelling is the lines of a function in their one spelling.
pub fn strict_lines_are_canonical()
    ensures { (f : FunctionData) (text rest : List ℕ) →
        (function_part Spelling.Strict).Reads text f rest →
        (lines : List ℕ) × AreFunctionLines f lines × (text ≡ lines ++ rest) }
{}

/// A function has one text of its lines.
pub fn function_has_one_text()
    ensures { (f : FunctionData) (a b : List ℕ) → IsWithinBounds f → AreFunctionLines f a →
        AreFunctionLines f b → a ≡ b }
{}

/// The lines of a function have at most 250,000 bytes.
pub fn function_lines_are_short()
    ensures { (f : FunctionData) (lines : List ℕ) → IsWithinBounds f → AreFunctionLines f lines →
        length lines ≤ 250000 }
{}
