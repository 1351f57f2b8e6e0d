//! Tables that are additive where a function's table is have constant steps.
ghost use Rattle.std.specs.Prelude.{ℕ, ℤ, pos, ◌≡◌, ◌+◌, ◌-◌, ◌*◌, ◌<◌, ◌-ℤ◌, ◌*ℤ◌};
ghost use Rattle.gj_shape.specs.Additive.{IsTight, IsTightOnGrid, IsAdditive, IsInClosure};
ghost use Rattle.gj_shape.specs.Cover.{IsOneOf, links_of, triangle_projections};
ghost use Rattle.gj_shape.specs.Extreme.{AverageTo};
ghost use Rattle.gj_shape.specs.FunctionData.{FunctionData, IsWithinBounds, IsContinuous};
ghost use Rattle.gj_shape.specs.Table.{IsMinimalTable};
ghost use Rattle.gj_shape.specs.declared.faces.FaceKind.{FaceKind};
ghost use Rattle.gj_theory.specs.Steps.{HasStep, HasStepOn, IsAdditiveOnLower, IsAdditiveOnUpper};
ghost use Rattle.gj_theory.specs.Steps.{IsAdditiveAtTight, IsAdditiveOnGrid};

/// The interval lemma: a table that is additive on a closed triangle has one constant step on its
/// three projections.
pub fn interval_lemma()
    ensures lower { (p : ℕ → ℤ) (a b m : ℕ) → IsAdditiveOnLower p a b m →
        (t : ℤ) × HasStep p a m t × HasStep p b m t × HasStep p (a + b) m t }
    ensures upper { (p : ℕ → ℤ) (a b m : ℕ) → IsAdditiveOnUpper p a b m →
        (t : ℤ) × HasStep p a m t × HasStep p b m t × HasStep p (a + b + m) m t }
{}

/// An additive face of a continuous function is tight on its closure, on every grid.
pub fn additive_face_is_tight_on_grids()
    ensures { (f : FunctionData) (m : ℕ) (kind : FaceKind) (a b i j : ℕ) → IsWithinBounds f →
        IsContinuous f → 0 < m →
        IsAdditive (IsTight f) kind a b → IsInClosure f m kind a b i j → IsTightOnGrid f m i j }
{}

/// An additive edge carries a constant step between the two intervals that it links.
pub fn edge_carries_step()
    ensures { (f : FunctionData) (m : ℕ) (p : ℕ → ℤ) (kind : FaceKind) (a b i j : ℕ) (t : ℤ) →
        IsContinuous f → 0 < m → IsAdditiveOnGrid f m p → IsAdditive (IsTight f) kind a b →
        IsOneOf f.order (links_of kind a b) i → IsOneOf f.order (links_of kind a b) j →
        HasStepOn p m i t → HasStepOn p m j t }
{}

/// An additive triangle gives one constant step on each interval on which it projects.
pub fn triangle_gives_step()
    ensures { (f : FunctionData) (m : ℕ) (p : ℕ → ℤ) (kind : FaceKind) (a b : ℕ) →
        IsContinuous f → 0 < m → IsAdditiveOnGrid f m p → IsAdditive (IsTight f) kind a b →
        (t : ℤ) × ((i : ℕ) → IsOneOf f.order (triangle_projections kind a b) i →
        HasStepOn p m i t) }
{}

/// If two minimal tables average to a minimal table, the first less its part of it is additive at
/// each tight pair, and 0 at 0 and at f.
pub fn difference_is_additive()
    ensures additive { (t a b : ℕ → ℤ) (n k s c : ℕ) → IsMinimalTable t n k s →
        IsMinimalTable a n k (c * s) →
        IsMinimalTable b n k (c * s) → AverageTo c a b t → IsAdditiveAtTight t n
        (λ i. a i -ℤ pos c *ℤ t i) }
    ensures zero { (t a : ℕ → ℤ) (n k s c : ℕ) → IsMinimalTable t n k s →
        IsMinimalTable a n k (c * s) →
        (a 0 -ℤ pos c *ℤ t 0 ≡ pos 0) × (a k -ℤ pos c *ℤ t k ≡ pos 0) }
{}
