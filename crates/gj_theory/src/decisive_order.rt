//! Tables on finer grids, and the grid of order 4 q that decides whether a function is extreme.
ghost use Rattle.std.specs.Prelude.{ℕ, ℤ, ◌≡◌, ◌*◌, ◌<◌, ◌↔◌};
ghost use Rattle.gj_shape.specs.Extreme.{IsExtremeTable, IsExtreme};
ghost use Rattle.gj_shape.specs.FunctionData.{FunctionData, IsWithinBounds, IsContinuous};
ghost use Rattle.gj_shape.specs.Refinement.{IsRefinement};
ghost use Rattle.gj_shape.specs.Table.{table, IsMinimalTable, IsMinimalOnGrid, IsMinimal};
ghost use Rattle.gj_theory.specs.Filling.{filling};
ghost use Rattle.gj_theory.specs.Halves.{AreDifferentHalves};

/// The affine filling of a minimal table is minimal; that of a continuous function's table is its
/// table on the finer grid.
pub fn affine_filling_is_minimal()
    ensures minimal { (t : ℕ → ℤ) (n k s m : ℕ) → 0 < n → 0 < m → IsMinimalTable t n k s →
        IsMinimalTable (filling t m) (n * m) (k * m) (s * m) }
    ensures finer { (f : FunctionData) (d m i : ℕ) → IsContinuous f → 0 < d → 0 < m →
        table f (d * m) i ≡ filling (table f d) m i }
{}

/// Two different minimal tables that average to the table on a grid give such tables on each finer
/// grid, so that there the table is not extreme.
pub fn halves_give_finer_halves()
    ensures halves { (f : FunctionData) (d m c : ℕ) (a b : ℕ → ℤ) → IsWithinBounds f →
        IsContinuous f → 0 < d → 0 < m →
        AreDifferentHalves (table f d) (f.order * d) (f.place * d) (f.scale * d) c a b →
        AreDifferentHalves (table f (d * m)) (f.order * (d * m)) (f.place * (d * m))
        (f.scale * (d * m)) c
        (filling a m) (filling b m) }
    ensures deny { (f : FunctionData) (d m c : ℕ) (a b : ℕ → ℤ) → IsWithinBounds f →
        IsContinuous f → 0 < d → 0 < m →
        AreDifferentHalves (table f d) (f.order * d) (f.place * d) (f.scale * d) c a b →
        IsExtremeTable (table f (d * m)) (f.order * (d * m)) (f.place * (d * m))
        (f.scale * (d * m)) → ⊥ }
{}

/// A continuous function is minimal if its table on any grid is.
pub fn any_grid_suffices()
    ensures { (f : FunctionData) (m : ℕ) → IsWithinBounds f → IsContinuous f → 0 < m →
        IsMinimalOnGrid f m →
        IsMinimal f }
{}

/// A continuous function is extreme exactly if its table on the grid of order 4 q is.
pub fn order_4q_decides()
    ensures { (f : FunctionData) → IsWithinBounds f → IsContinuous f →
        IsExtreme f ↔ IsExtremeTable (table f 4) (f.order * 4) (f.place * 4) (f.scale * 4) }
{}

/// A function and its refinement have the same verdicts: both are minimal or neither is, and for a
/// continuous function both are extreme or neither is.
pub fn refinements_have_same_verdicts()
    ensures minimal { (f g : FunctionData) (times : ℕ) → IsWithinBounds f → IsWithinBounds g →
        IsRefinement f times g →
        IsMinimal f ↔ IsMinimal g }
    ensures extreme { (f g : FunctionData) (times : ℕ) → IsWithinBounds f →
        IsWithinBounds g → IsContinuous f →
        IsRefinement f times g → IsExtreme f ↔ IsExtreme g }
{}
