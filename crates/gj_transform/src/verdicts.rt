//! What transformations do to minimal and extreme functions, and that each gives one function.
ghost use Rattle.std.specs.Prelude.{ℕ, ◌≡◌, ◌<◌, ◌↔◌};
ghost use Rattle.gj_shape.specs.Extreme.{IsExtreme};
ghost use Rattle.gj_shape.specs.FunctionData.{FunctionData, IsWithinBounds};
ghost use Rattle.gj_shape.specs.Table.{IsMinimal};
ghost use Rattle.gj_transform.specs.Transforms.{IsTimesOf, IsMirrorOf, IsRestrictionOf};

/// The function of n x is minimal exactly if the function is.
pub fn times_is_minimal()
    ensures { (f g : FunctionData) (n j : ℕ) → IsWithinBounds f → IsWithinBounds g → 0 < n →
        IsTimesOf f n j g →
        IsMinimal f ↔ IsMinimal g }
{}

/// The function of -x is minimal exactly if the function is, and extreme exactly if the function
/// is, continuous or not; and a function is the mirror of its mirror.
pub fn mirror_is_minimal()
    ensures minimal { (f g : FunctionData) → IsWithinBounds f → IsWithinBounds g → IsMirrorOf f g →
        IsMinimal f ↔ IsMinimal g }
    ensures extreme { (f g : FunctionData) → IsWithinBounds f → IsWithinBounds g → IsMirrorOf f g →
        IsExtreme f ↔ IsExtreme g }
    ensures symmetric { (f g : FunctionData) → IsMirrorOf f g → IsMirrorOf g f }
{}

/// The restriction of a minimal function, continuous or not, is minimal.
pub fn restriction_is_minimal()
    ensures { (f g : FunctionData) (d : ℕ) → IsWithinBounds f → IsWithinBounds g →
        IsRestrictionOf f d g →
        IsMinimal f → IsMinimal g }
{}

/// A function has one function of n x with a given place, one mirror, and one restriction to the
/// multiples of 1/d.
pub fn each_transform_is_one_function()
    ensures times { (f g h : FunctionData) (n j : ℕ) → IsWithinBounds f → IsWithinBounds g →
        IsWithinBounds h → 0 < n →
        IsTimesOf f n j g → IsTimesOf f n j h → g ≡ h }
    ensures mirror { (f g h : FunctionData) → IsWithinBounds f → IsWithinBounds g →
        IsWithinBounds h →
        IsMirrorOf f g → IsMirrorOf f h → g ≡ h }
    ensures restriction { (f g h : FunctionData) (d : ℕ) → IsWithinBounds f → IsWithinBounds g →
        IsWithinBounds h →
        IsRestrictionOf f d g → IsRestrictionOf f d h → g ≡ h }
{}
