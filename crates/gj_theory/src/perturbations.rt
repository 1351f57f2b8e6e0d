//! Perturbations of a minimal function, and the two functions that they give.
ghost use Rattle.std.specs.Prelude.{ℕ, ℤ, pos, ◌≡◌, ◌≢◌, ◌+◌, ◌*◌, ◌<◌, ◌≤◌, ◌==◌, ◌↔◌, List, All};
ghost use Rattle.std.specs.Prelude.{Contains, count_by, length, unsigned_abs};
ghost use Rattle.gj_shape.specs.Additive.{IsTight, IsTightOnGrid, IsAdditive, IsInClosure};
ghost use Rattle.gj_shape.specs.Cover.{IsCovered, IsInClassOf, AreCoverLines, HasComponent};
ghost use Rattle.gj_shape.specs.Elimination.{at_column};
ghost use Rattle.gj_shape.specs.Extreme.{IsExtremeTable};
ghost use Rattle.gj_shape.specs.FunctionData.{FunctionData, IsWithinBounds, IsContinuous, at};
ghost use Rattle.gj_shape.specs.Perturbation.{zigzag, perturbation_of, IsLeastSlack};
ghost use Rattle.gj_shape.specs.Perturbation.{IsGreatestSize, AreHalvesOf};
ghost use Rattle.gj_shape.specs.SlopeRows.{SolveRows};
ghost use Rattle.gj_shape.specs.Table.{table, IsMinimalTable, IsMinimal};
ghost use Rattle.gj_shape.specs.declared.extremality.CoverLine.{CoverLine};
ghost use Rattle.gj_shape.specs.declared.extremality.Halves.{Halves};
ghost use Rattle.gj_shape.specs.declared.faces.FaceKind.{FaceKind};
ghost use Rattle.gj_theory.specs.Halves.{IsPerturbation, IsBelowSlacks, raised, lowered};
ghost use Rattle.gj_theory.specs.Halves.{AreDifferentHalves};
ghost use Rattle.gj_theory.specs.Uncovered.{AreUncoveredClasses};

/// A tight pair of the table on any grid lies in the closure of an additive face.
pub fn tight_pair_lies_in_additive_face()
    ensures { (f : FunctionData) (m i j : ℕ) → IsWithinBounds f → IsContinuous f →
        IsMinimal f → 0 < m →
        IsTightOnGrid f m i j →
        (kind : FaceKind) × (a : ℕ) × (b : ℕ) × IsInClosure f m kind a b i j ×
        IsAdditive (IsTight f) kind a b }
{}

/// The class of an uncovered interval is a set of uncovered intervals that is closed under joining.
pub fn class_of_uncovered_interval()
    ensures { (f : FunctionData) (class : List ℕ) (i : ℕ) → (IsCovered f.order (IsTight f) i → ⊥) →
        All (λ a. a < f.order) class → All (IsInClassOf f.order (IsTight f) i) class →
        ((a : ℕ) → a < f.order → IsInClassOf f.order (IsTight f) i a → Contains class a) →
        AreUncoveredClasses f.order (IsTight f) class }
{}

/// The zigzag of uncovered intervals, with each interval that is joined to one of them, is a
/// perturbation on the grid of order 4 q. It is 0 at the multiples of 1/q, and not 0 inside the
/// intervals.
pub fn zigzag_is_perturbation()
    ensures perturbation { (f : FunctionData) (class : List ℕ) → IsWithinBounds f →
        IsContinuous f → IsMinimal f →
        AreUncoveredClasses f.order (IsTight f) class →
        IsPerturbation (table f 4) (f.order * 4) (f.place * 4) (zigzag f.order class) }
    ensures zero { (q : ℕ) (class : List ℕ) (a : ℕ) → zigzag q class (a * 4) ≡ pos 0 }
    ensures one { (q : ℕ) (class : List ℕ) (a : ℕ) → Contains class a → a < q →
        zigzag q class (a * 4 + 1) ≡ pos 1 }
{}

/// Each component has an interval.
pub fn components_have_intervals()
    ensures { (f : FunctionData) (lines : List CoverLine) (number : ℕ) →
        AreCoverLines f.order (IsTight f) lines →
        number < count_by (λ l. l.from == l.interval) lines →
        (i : ℕ) × (i < f.order) × HasComponent lines number i }
{}

/// Slopes of components that solve all rows of the linear system give a perturbation on the
/// function's own grid, and one that is not 0 if the slope of some interval is not.
pub fn slopes_give_perturbation()
    ensures perturbation { (f : FunctionData) (component : ℕ → ℕ) (n : ℕ) (slopes : List ℤ) →
        IsWithinBounds f →
        length slopes ≡ n → ((i : ℕ) → i < f.order → component i < n) →
        SolveRows component n f slopes →
        IsPerturbation (table f 1) (f.order * 1) (f.place * 1)
        (perturbation_of f.order (λ i. at_column slopes (component i))) }
    ensures not_zero { (f : FunctionData) (component : ℕ → ℕ) (n : ℕ) (slopes : List ℤ) (i : ℕ) →
        IsWithinBounds f →
        length slopes ≡ n → ((j : ℕ) → j < f.order → component j < n) →
        SolveRows component n f slopes →
        i < f.order → at_column slopes (component i) ≢ pos 0 →
        (j : ℕ) × (perturbation_of f.order (λ k. at_column slopes (component k)) j ≢ pos 0) }
{}

/// A minimal table plus and minus a small multiple of a perturbation that is not 0 is two different
/// minimal tables.
pub fn perturbation_gives_halves()
    ensures { (t p : ℕ → ℤ) (n k s u size i : ℕ) → 0 < n → IsMinimalTable t n k s →
        IsPerturbation t n k p →
        IsBelowSlacks t u → ((j : ℕ) → unsigned_abs (p j) ≤ size) → p i ≢ pos 0 →
        AreDifferentHalves t n k s (3 * size) (raised t p u size) (lowered t p u size) }
{}

/// The halves of a perturbation that is not 0 are two different minimal tables that average to the
/// function's.
pub fn halves_are_minimal()
    ensures { (f : FunctionData) (m : ℕ) (p : ℕ → ℤ) (h : Halves) (i : ℕ) → IsWithinBounds f →
        IsMinimal f → 0 < m →
        IsPerturbation (table f m) (f.order * m) (f.place * m) p → p i ≢ pos 0 →
        (halves : AreHalvesOf f m p h) →
        AreDifferentHalves (table f m) (f.order * m) (f.place * m) (f.scale * m) (3 * halves.p)
        (at h.first) (at h.second) }
{}

/// A perturbation has its halves, and no others: the least positive slack and the greatest size
/// exist and are determined.
pub fn halves_are_determined()
    ensures slack { (f : FunctionData) (m u v : ℕ) → IsLeastSlack f m u →
        IsLeastSlack f m v → u ≡ v }
    ensures size { (p : ℕ → ℤ) (x y : ℕ) → IsGreatestSize p x → IsGreatestSize p y → x ≡ y }
    ensures halves { (f : FunctionData) (m : ℕ) (p : ℕ → ℤ) (g h : Halves) → AreHalvesOf f m p g →
        AreHalvesOf f m p h →
        g ≡ h }
    ensures some_slack { (f : FunctionData) (m : ℕ) → IsWithinBounds f → IsMinimal f → 0 < m →
        (u : ℕ) × IsLeastSlack f m u }
    ensures some_size { (p : ℕ → ℤ) (n : ℕ) → 0 < n → ((i : ℕ) → p (i + n) ≡ p i) → (size : ℕ) ×
        IsGreatestSize p size }
{}

/// A minimal table is extreme exactly if its only perturbation is 0.
pub fn perturbations_decide_tables()
    ensures { (t : ℕ → ℤ) (n k s : ℕ) → 0 < n → IsMinimalTable t n k s →
        IsExtremeTable t n k s ↔ ((p : ℕ → ℤ) → IsPerturbation t n k p → (i : ℕ) → p i ≡ pos 0) }
{}

/// Two different minimal tables that average to a table deny that it is extreme.
pub fn halves_deny_extremality()
    ensures { (t a b : ℕ → ℤ) (n k s c : ℕ) → AreDifferentHalves t n k s c a b →
        IsExtremeTable t n k s → ⊥ }
{}
