//! Theorems about the function of the demonstration.
ghost use Rattle.std.specs.Prelude.{ℕ, ◌+◌, ◌*◌, ◌≤◌, ◌==◌, List, count_by};
ghost use Rattle.gj_family.specs.Families.{IsGmic};
ghost use Rattle.gj_shape.specs.Additive.{IsTight};
ghost use Rattle.gj_shape.specs.Average.{IsAverageOf};
ghost use Rattle.gj_shape.specs.Cover.{AreCoverLines};
ghost use Rattle.gj_shape.specs.Extreme.{IsExtreme};
ghost use Rattle.gj_shape.specs.FunctionData.{FunctionData, IsWithinBounds, IsContinuous};
ghost use Rattle.gj_shape.specs.Table.{IsMinimal};
ghost use Rattle.gj_shape.specs.declared.extremality.CoverLine.{CoverLine};
ghost use Rattle.gj_demo.specs.Demo.{IsAlternating, IsDemo};

/// The function is half the sum of the mixed-integer cut with f = 1/2 and the function that is 0 at
/// even and 1 at odd multiples of 1/q.
pub fn demo_is_average()
    ensures { (n : ℕ) (f g h : FunctionData) → IsDemo n f → IsWithinBounds f →
        IsGmic (2 * (2 * n + 1)) (2 * n + 1) g → IsWithinBounds g → IsAlternating n h →
        IsWithinBounds h →
        IsAverageOf g h f }
{}

/// The function is continuous and minimal.
pub fn demo_is_minimal()
    ensures continuous { (n : ℕ) (f : FunctionData) → IsDemo n f → IsContinuous f }
    ensures minimal { (n : ℕ) (f : FunctionData) → IsDemo n f → IsWithinBounds f → IsMinimal f }
{}

/// The function is not extreme, since it is half the sum of two different minimal functions.
pub fn demo_is_not_extreme()
    ensures { (n : ℕ) (f : FunctionData) → 1 ≤ n → IsDemo n f → IsWithinBounds f → IsExtreme f → ⊥ }
{}

/// The cover lines open at most four components.
pub fn demo_has_few_components()
    ensures { (n : ℕ) (f : FunctionData) (lines : List CoverLine) → IsDemo n f → IsWithinBounds f →
        AreCoverLines f.order (IsTight f) lines → count_by (λ l. l.from == l.interval) lines ≤ 4 }
{}

/// The scale is at most the order, and so at most 998.
pub fn demo_scale()
    ensures order { (n : ℕ) (f : FunctionData) → IsDemo n f → IsWithinBounds f → f.scale ≤ f.order }
    ensures bound { (n : ℕ) (f : FunctionData) → IsDemo n f → IsWithinBounds f → f.scale ≤ 998 }
{}
