//! Valid tables and the minimal ones below them.
ghost use Rattle.std.specs.Prelude.{ℕ, ℤ, pos, ◌*◌, ◌<◌, ◌*ℤ◌, ◌≤ℤ◌};
ghost use Rattle.gj_frac.specs.declared.Frac.{Frac};
ghost use Rattle.gj_frac.specs.Fraction.{LessValue, fraction_of};
ghost use Rattle.gj_shape.specs.Table.{IsMinimalTable};
ghost use Rattle.gj_shape.specs.Valid.{IsValidTable};
ghost use Rattle.gj_theory.specs.Cuts.{IsEntryAt};

/// Each valid table has a minimal one below it: its entries, over a finer scale, are nowhere above
/// the valid table's. So minimal tables give all cuts of a grid.
pub fn valid_tables_lie_above_minimal()
    ensures { (t : ℕ → ℤ) (n k s : ℕ) → 0 < n → IsValidTable t n k s →
        (c : ℕ) × (u : ℕ → ℤ) × (0 < c) × IsMinimalTable u n k (c * s) ×
        ((i : ℕ) → u i ≤ℤ (pos c *ℤ t i)) }
{}

/// Each cut by a valid table is dominated by one by a minimal table: at each entry x of a row the
/// minimal table's coefficient is at most the valid table's.
pub fn cuts_are_dominated_by_minimal_ones()
    ensures { (t : ℕ → ℤ) (n k s : ℕ) → 0 < n → 0 < s → IsValidTable t n k s →
        (c : ℕ) × (u : ℕ → ℤ) × (0 < c) × IsMinimalTable u n k (c * s) ×
        ((x lower higher : Frac) → IsEntryAt u n (c * s) x lower → IsEntryAt t n s x higher →
        LessValue (fraction_of higher) (fraction_of lower) → ⊥) }
{}
