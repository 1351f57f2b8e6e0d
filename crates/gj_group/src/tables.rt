//! What the rows of a table decide.
ghost use Rattle.std.specs.Prelude.{ℕ, ℤ, pos, ◌≡◌, ◌+◌, ◌*◌, ◌<◌, ◌↔◌, List, length};
ghost use Rattle.gj_group.specs.GroupRows.{SolveGroupRows, group_rows};
ghost use Rattle.gj_residue.specs.Settled.{OnlyZeroSolves};
ghost use Rattle.gj_shape.specs.Extreme.{IsExtremeTable};
ghost use Rattle.gj_shape.specs.FunctionData.{FunctionData, IsWithinBounds, at};
ghost use Rattle.gj_shape.specs.Table.{table, IsMinimalTable, IsMinimalOnGrid};
ghost use Rattle.gj_theory.specs.Halves.{IsPerturbation};

/// The rows of a table are solved by its perturbations, those that are 0 at 0, and by nothing else;
/// for a minimal table by all its perturbations. So a minimal table is extreme exactly if only
/// zeros solve its rows. For the table of a function's own order the rows are those of its values,
/// whether it is continuous or not.
pub fn group_rows_decide_tables()
    ensures solved { (t : ℕ → ℤ) (n k : ℕ) (w : List ℤ) → 0 < n → k < n →
        ((i : ℕ) → t (i + n) ≡ t i) → length w ≡ n →
        SolveGroupRows t n k w ↔ ((at w 0 ≡ pos 0) × IsPerturbation t n k (at w)) }
    ensures perturbation { (t : ℕ → ℤ) (n k s : ℕ) (w : List ℤ) → 0 < n → k < n →
        IsMinimalTable t n k s → length w ≡ n →
        SolveGroupRows t n k w ↔ IsPerturbation t n k (at w) }
    ensures extreme { (t : ℕ → ℤ) (n k s : ℕ) → 0 < n → k < n → IsMinimalTable t n k s →
        IsExtremeTable t n k s ↔ OnlyZeroSolves n (group_rows t n k) }
    ensures function { (f : FunctionData) → IsWithinBounds f → IsMinimalOnGrid f 1 →
        IsExtremeTable (table f 1) (f.order * 1) (f.place * 1) (f.scale * 1) ↔
        OnlyZeroSolves f.order (group_rows (at f.value) f.order f.place) }
    ensures own_grid { (f : FunctionData) (w : List ℤ) → IsWithinBounds f → length w ≡ f.order →
        SolveGroupRows (at f.value) f.order f.place w → IsPerturbation (table f 1) (f.order * 1)
        (f.place * 1) (at w) }
{}
