//! Laws of JSON functions.
ghost use Rattle.std.specs.Prelude.{◌≡◌, ℕ, List};
ghost use Rattle.gj_shape.specs.FunctionData.{FunctionData};
ghost use Rattle.gj_json.specs.JsonFunction.{IsJsonFunction};
ghost use Rattle.gj_json.specs.FirstReason.{HasFirstReason};
ghost use Rattle.gj_json.specs.declared.faults.JsonReason.{JsonReason};

/// A text spells one function at most.
pub fn one_function_in_json()
    ensures { (text : List ℕ) (f g : FunctionData) → IsJsonFunction text f →
        IsJsonFunction text g → f ≡ g }
{}

/// A text that is refused spells no function.
pub fn no_reason_in_json_function()
    ensures { (text : List ℕ) (f : FunctionData) (e : JsonReason) → IsJsonFunction text f →
        HasFirstReason text e → ⊥ }
{}

/// A text has one first reason at most: a refusal says which.
pub fn one_first_reason()
    ensures { (text : List ℕ) (e d : JsonReason) → HasFirstReason text e →
        HasFirstReason text d → e ≡ d }
{}
