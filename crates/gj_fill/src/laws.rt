//! Theorems about the two-slope fill-in, over a table v, its greatest rise s and its greatest fall
//! t (Gomory and Johnson 1972).
ghost use Rattle.std.specs.Prelude.{ℕ, ℤ, pos, ◌≡◌, ◌⊎◌, ◌+◌, ◌-◌, ◌*◌, ◌<◌, ◌≤◌, ◌+ℤ◌, ◌-ℤ◌, ◌*ℤ◌};
ghost use Rattle.std.specs.Prelude.{◌≤ℤ◌, List, [], ◌∷◌, ◌++◌};
ghost use Rattle.gj_fill.specs.FillIn.{IsSubadditiveTable, AreGreatestSteps, filled};
ghost use Rattle.gj_fill.specs.FillIn.{filled_between};
ghost use Rattle.gj_fill.specs.FillPoints.{GraphPoint, value_point, fill_points, HasFillSlope};
ghost use Rattle.gj_shape.specs.FunctionData.{FunctionData, at};

/// The fill-in of a subadditive table is subadditive on every grid.
pub fn fill_in_is_subadditive()
    ensures { (v : ℕ → ℤ) (s t : ℤ) (m : ℕ) → IsSubadditiveTable v →
        AreGreatestSteps v s t → 0 < m →
        IsSubadditiveTable (filled v s t m) }
{}

/// The fill-in is the least over all places u of the table at u plus the sublinear function of the
/// distance, s times it to the right and t times it to the left.
pub fn fill_in_is_least()
    ensures rise { (v : ℕ → ℤ) (s t : ℤ) (m i u d : ℕ) → AreGreatestSteps v s t →
        0 < m → i ≡ u * m + d →
        filled v s t m i ≤ℤ (pos m *ℤ v u +ℤ pos d *ℤ s) }
    ensures fall { (v : ℕ → ℤ) (s t : ℤ) (m i u d : ℕ) → AreGreatestSteps v s t →
        0 < m → i + d ≡ u * m →
        filled v s t m i ≤ℤ (pos m *ℤ v u +ℤ pos d *ℤ t) }
    ensures one { (v : ℕ → ℤ) (s t : ℤ) (m i : ℕ) → 0 < m →
        ((u : ℕ) × (d : ℕ) × (i ≡ u * m + d) × (filled v s t m i ≡ pos m *ℤ v u +ℤ pos d *ℤ s))
        ⊎ ((u : ℕ) × (d : ℕ) × (i + d ≡ u * m) × (filled v s t m i ≡ pos m *ℤ v u +ℤ pos d *ℤ t)) }
{}

/// On all grids the fill-in is one function: between neighbouring places, both ends in, the lesser
/// of the two lines; at the places the table; of its period; and on a finer grid the same.
pub fn fill_in_is_one_function()
    ensures lesser { (v : ℕ → ℤ) (s t : ℤ) (m a r : ℕ) → AreGreatestSteps v s t → 0 < m → r ≤ m →
        filled v s t m (a * m + r) ≡ filled_between v s t m a r }
    ensures value { (v : ℕ → ℤ) (s t : ℤ) (m a : ℕ) → AreGreatestSteps v s t → 0 < m →
        filled v s t m (a * m) ≡ pos m *ℤ v a }
    ensures period { (v : ℕ → ℤ) (s t : ℤ) (m q : ℕ) → 0 < m →
        ((a : ℕ) → v (a + q) ≡ v a) → (i : ℕ) →
        filled v s t m (i + q * m) ≡ filled v s t m i }
    ensures finer { (v : ℕ → ℤ) (s t : ℤ) (d m j : ℕ) → 0 < d → 0 < m →
        filled v s t (d * m) (j * m) ≡ pos m *ℤ filled v s t d j }
{}

/// From a place the fill-in rises by s up to the crossing of the two lines, and from there on it
/// falls by t.
pub fn fill_in_has_two_slopes()
    ensures rises { (v : ℕ → ℤ) (s t : ℤ) (m a r : ℕ) → AreGreatestSteps v s t → 0 < m → r ≤ m →
        (pos r *ℤ (s +ℤ t)) ≤ℤ (pos m *ℤ (v (a + 1) -ℤ v a +ℤ t)) →
        filled v s t m (a * m + r) ≡ pos m *ℤ v a +ℤ pos r *ℤ s }
    ensures falls { (v : ℕ → ℤ) (s t : ℤ) (m a r : ℕ) → AreGreatestSteps v s t → 0 < m → r ≤ m →
        (pos m *ℤ (v (a + 1) -ℤ v a +ℤ t)) ≤ℤ (pos r *ℤ (s +ℤ t)) →
        filled v s t m (a * m + r) ≡ pos m *ℤ v (a + 1) +ℤ pos (m - r) *ℤ t }
{}

/// Between neighbouring points of its list the fill-in of a function is affine, with the slope q s
/// or -q t. The point at 1 counts as the neighbour of the last one.
pub fn fill_in_is_affine_between_points()
    ensures { (f : FunctionData) (s t : ℤ) (front : List GraphPoint) (p q : GraphPoint)
        (back : List GraphPoint) →
        0 < f.order → AreGreatestSteps (at f.value) s t →
        fill_points f s t ++ value_point f f.order ∷ [] ≡ front ++ p ∷ q ∷ back →
        HasFillSlope f s t p q }
{}
