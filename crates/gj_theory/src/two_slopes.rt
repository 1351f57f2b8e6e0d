//! Minimal continuous functions with two slopes (Gomory and Johnson 1972).
ghost use Rattle.std.specs.Prelude.{ℕ, ℤ, pos, ◌≡◌, ◌⊎◌, ◌-◌, ◌<◌, ◌≤◌, List, length, All};
ghost use Rattle.gj_shape.specs.Additive.{IsTight, IsAdditive};
ghost use Rattle.gj_shape.specs.Cover.{AreJoined, IsCovered, AreInOneComponent, AreCoverLines};
ghost use Rattle.gj_shape.specs.Cover.{HasComponent, components_in};
ghost use Rattle.gj_shape.specs.Extreme.{IsExtreme};
ghost use Rattle.gj_shape.specs.FunctionData.{FunctionData, IsWithinBounds};
ghost use Rattle.gj_shape.specs.SlopeRows.{row_of, sum_of_products};
ghost use Rattle.gj_shape.specs.Table.{IsMinimal};
ghost use Rattle.gj_shape.specs.TwoSlopes.{HasTwoSlopes, rise};
ghost use Rattle.gj_shape.specs.declared.extremality.CoverLine.{CoverLine};
ghost use Rattle.gj_shape.specs.declared.extremality.RowName.TheVariants.{Period, F};
ghost use Rattle.gj_shape.specs.declared.faces.FaceKind.TheVariants.{Lower, Upper};
ghost use Rattle.gj_theory.specs.RisesAndFalls.{RisesOrFalls};

/// A minimal continuous function with two slopes rises on the first interval, falls on the last,
/// and on each it rises as on one of these.
pub fn two_slopes_rise_and_fall()
    ensures { (f : FunctionData) → IsWithinBounds f → IsMinimal f →
        HasTwoSlopes f → RisesOrFalls f }
{}

/// Each interval is covered: if the function rises there as on the first interval, a lower triangle
/// joins it to that, and else an upper triangle joins it to the last. So intervals with one slope
/// are in one component, and the cover lines open at most two.
pub fn two_slopes_cover()
    ensures rising { (f : FunctionData) (a : ℕ) → IsMinimal f → rise f a ≡ rise f 0 →
        IsAdditive (IsTight f) Lower 0 a }
    ensures falling { (f : FunctionData) (a : ℕ) → IsWithinBounds f → IsMinimal f →
        rise f a ≡ rise f (f.order - 1) →
        IsAdditive (IsTight f) Upper (f.order - 1) a }
    ensures joined { (f : FunctionData) (a : ℕ) → IsWithinBounds f → IsMinimal f → HasTwoSlopes f →
        AreJoined f.order (IsTight f) a 0 ⊎ AreJoined f.order (IsTight f) a (f.order - 1) }
    ensures covered { (f : FunctionData) (a : ℕ) → IsWithinBounds f → IsMinimal f → HasTwoSlopes f →
        IsCovered f.order (IsTight f) a }
    ensures one_component { (f : FunctionData) (a b : ℕ) → IsWithinBounds f →
        IsMinimal f → HasTwoSlopes f →
        rise f a ≡ rise f b → AreInOneComponent f.order (IsTight f) a b }
    ensures two_components { (f : FunctionData) (lines : List CoverLine) → IsWithinBounds f →
        IsMinimal f → HasTwoSlopes f →
        AreCoverLines f.order (IsTight f) lines → components_in lines ≤ 2 }
{}

/// By cover lines that cover all intervals, the rows of the period and of f leave only the slopes
/// 0.
pub fn two_rows_leave_zero()
    ensures { (f : FunctionData) (lines : List CoverLine) (component : ℕ → ℕ) (n : ℕ)
        (slopes : List ℤ) →
        IsWithinBounds f → IsMinimal f → HasTwoSlopes f → AreCoverLines f.order (IsTight f) lines →
        ((i : ℕ) → i < f.order → HasComponent lines (component i) i) → n ≡ components_in lines →
        length slopes ≡ n →
        sum_of_products (row_of component n f.order f.place Period) slopes ≡ pos 0 →
        sum_of_products (row_of component n f.order f.place F) slopes ≡ pos 0 →
        All (λ x. x ≡ pos 0) slopes }
{}

/// The two-slope theorem: a minimal continuous function with two slopes is extreme.
pub fn two_slopes_are_extreme()
    ensures { (f : FunctionData) → IsWithinBounds f → IsMinimal f → HasTwoSlopes f → IsExtreme f }
{}
