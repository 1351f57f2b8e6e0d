//! Laws of the definitions.
ghost use Rattle.std.specs.Prelude.{◌≡◌, ℕ, List};
ghost use Rattle.gj_frac.specs.declared.Frac.{Frac};
ghost use Rattle.gj_shape.specs.FunctionData.{FunctionData};
ghost use Rattle.gj_shape.specs.Given.{IsGivenBy};
ghost use Rattle.gj_shape.specs.Breaks.{IsGivenByBreaks};
ghost use Rattle.gj_shape.specs.declared.breaks.Break.{Break};

/// An order, a place and three lists of fractions give one function at most.
pub fn one_function_is_given()
    ensures { (q k : ℕ) (left value right : List Frac) (f g : FunctionData) →
        IsGivenBy q k left value right f → IsGivenBy q k left value right g → f ≡ g }
{}

/// An order, a place and breakpoints give one function at most.
pub fn one_function_has_breaks()
    ensures { (q k : ℕ) (breaks : List Break) (f g : FunctionData) →
        IsGivenByBreaks q k breaks f → IsGivenByBreaks q k breaks g → f ≡ g }
{}
