//! The values of transformed functions at fractions.
ghost use Rattle.std.specs.Prelude.{ℕ, pos, negsuc, ◌<◌};
ghost use Rattle.gj_shape.specs.FunctionData.{FunctionData, IsWithinBounds};
ghost use Rattle.gj_transform.specs.Transforms.{IsTimesOf, IsMirrorOf, IsRestrictionOf};
ghost use Rattle.gj_transform.specs.Transforms.{HasValuesAtMultiples, AgreeAtMultiples};

/// The function of n x has at each fraction u/d the value of the function at n u/d.
pub fn times_has_values()
    ensures { (f g : FunctionData) (n j : ℕ) → IsWithinBounds f → IsWithinBounds g → 0 < n →
        IsTimesOf f n j g →
        HasValuesAtMultiples f (pos n) g }
{}

/// The function of -x has at each fraction u/d the value of the function at -u/d.
pub fn mirror_has_values()
    ensures { (f g : FunctionData) → IsWithinBounds f → IsWithinBounds g → IsMirrorOf f g →
        HasValuesAtMultiples f (negsuc 0) g }
{}

/// The restriction to the multiples of 1/d has at each of them, u/d, the value of the function.
pub fn restriction_has_values()
    ensures { (f g : FunctionData) (d : ℕ) → IsWithinBounds f → IsWithinBounds g →
        IsRestrictionOf f d g →
        AgreeAtMultiples f d g }
{}
