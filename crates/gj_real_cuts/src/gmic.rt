//! The mixed-integer cut over all real numbers.
ghost use Rattle.gj_fields.specs.Fields.{AtMost};
ghost use Rattle.gj_fields.specs.Functions.{IsMinimalAmong};
ghost use Rattle.gj_real_cuts.specs.Gmic.{gmic};

use gj_fields::reals::Reals;

/// The mixed-integer cut for each number between 0 and 1 is minimal among the valid functions.
pub fn gmic_is_minimal_over_reals<K: Reals>()
    ensures { (f : K.Number) →
        (AtMost K.field f K.field.zero → ⊥) → (AtMost K.field K.field.one f → ⊥) →
        IsMinimalAmong K.field (gmic K.field K.floors f) f }
{}
