//! When the perturbations of this crate can be split.
ghost use Rattle.std.specs.Prelude.{ℕ, ℤ, pos, ◌≡◌, ◌≢◌, ◌*◌, ◌<◌, List, All, Contains, length};
ghost use Rattle.std.specs.Prelude.{map, get_or};
ghost use Rattle.std.specs.List.{range_with_len};
ghost use Rattle.gj_frac.specs.Fraction.{Fits};
ghost use Rattle.gj_shape.specs.Additive.{IsTight};
ghost use Rattle.gj_shape.specs.Elimination.{at_column};
ghost use Rattle.gj_shape.specs.FunctionData.{FunctionData, IsWithinBounds, IsContinuous};
ghost use Rattle.gj_shape.specs.Perturbation.{zigzag};
ghost use Rattle.gj_shape.specs.SlopeRows.{SolveRows};
ghost use Rattle.gj_shape.specs.Table.{IsMinimal};
ghost use Rattle.gj_theory.specs.Uncovered.{AreUncoveredClasses};
ghost use Rattle.gj_perturb.specs.SlopeSums.{slope_sum};
ghost use Rattle.gj_perturb.specs.Split.{CanSplit, IsWide};
ghost use Rattle.gj_perturb.specs.declared.tables.Perturbation.{Perturbation};

/// The zigzag of uncovered intervals can be split, and its halves are never too wide.
pub fn zigzag_can_be_split()
    ensures can_split { (f : FunctionData) (class : List ℕ) (p : Perturbation) (a : ℕ) →
        IsWithinBounds f →
        IsContinuous f → IsMinimal f → AreUncoveredClasses f.order (IsTight f) class →
        Contains class a →
        p.times ≡ 4 → p.values ≡ map (zigzag f.order class) (range_with_len 0
        (f.order * 4)) → CanSplit f p }
    ensures narrow { (f : FunctionData) (class : List ℕ) (p : Perturbation) → IsWithinBounds f →
        p.times ≡ 4 → p.values ≡ map (zigzag f.order class) (range_with_len 0
        (f.order * 4)) → ¬ IsWide f p }
{}

/// The sums of slopes that solve the linear system can be split, if the slope of some interval is
/// not 0.
pub fn slopes_can_be_split()
    ensures { (f : FunctionData) (component : List ℕ) (slopes : List ℤ) (p : Perturbation) (i : ℕ) →
        IsWithinBounds f →
        length component ≡ f.order → All (λ c. c < length slopes) component →
        SolveRows (λ j. get_or component j 0) (length slopes) f slopes → i < f.order →
        at_column slopes (get_or component i 0) ≢ pos 0 → p.times ≡ 1 →
        p.values ≡ map (slope_sum component slopes) (range_with_len 0 (length component)) →
        All Fits p.values →
        CanSplit f p }
{}
