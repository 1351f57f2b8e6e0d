//! Minimal functions at all real numbers.
ghost use Rattle.std.specs.Prelude.{ℕ, ◌≡◌, ◌<◌, ◌*◌, ◌↔◌};
ghost use Rattle.gj_fields.specs.Fields.{whole, number};
ghost use Rattle.gj_fields.specs.Functions.{HasRules, IsMinimalAmong};
ghost use Rattle.gj_shape.specs.FunctionData.{FunctionData, IsPiecewise};
ghost use Rattle.gj_shape.specs.Table.{table, IsMinimal};
ghost use Rattle.gj_reals.specs.RealFunctions.{real_function, real_place};

use gj_fields::reals::Reals;

/// At i/(order m) the function of real numbers has the value of the table on that grid.
pub fn values_at_fractions<K: Reals>()
    ensures { (f : FunctionData) (m i : ℕ) → IsPiecewise f → 0 < m →
        real_function K.field K.floors f
        (K.field.times (number K.field i) (K.field.inverse (number K.field (f.order * m))))
        ≡ K.field.times (whole K.field (table f m i))
        (K.field.inverse (number K.field (f.scale * m))) }
{}

/// A function is minimal exactly if it is 0 at 0, nowhere negative, subadditive and symmetric at
/// all real numbers.
pub fn minimal_functions_have_rules_at_reals<K: Reals>()
    ensures { (f : FunctionData) → IsPiecewise f →
        (IsMinimal f
        ↔ HasRules K.field (real_function K.field K.floors f) (real_place K.field f)) }
{}

/// A function is minimal exactly if, taken at all real numbers, it is minimal among the valid
/// functions.
pub fn minimal_functions_are_minimal_at_reals<K: Reals>()
    ensures { (f : FunctionData) → IsPiecewise f →
        (IsMinimal f
        ↔ IsMinimalAmong K.field (real_function K.field K.floors f) (real_place K.field f)) }
{}
