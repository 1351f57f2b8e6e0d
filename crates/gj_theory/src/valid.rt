//! What minimal and extreme mean: valid tables, those whose entries at the places of each solution
//! add up to at least 1.
ghost use Rattle.std.specs.Prelude.{ℕ, ℤ, pos, ◌≡◌, ◌≢◌, ◌⊎◌, ◌+◌, ◌*◌, ◌%◌, ◌<◌, ◌+ℤ◌, ◌*ℤ◌, ◌≤ℤ◌};
ghost use Rattle.std.specs.Prelude.{◌<ℤ◌, List, map, sum};
ghost use Rattle.std.specs.List.{AllZip, range_with_len};
ghost use Rattle.gj_frac.specs.declared.Frac.{Frac};
ghost use Rattle.gj_shape.specs.Extreme.{IsExtremeTable, IsExtreme};
ghost use Rattle.gj_shape.specs.FunctionData.{FunctionData, IsWithinBounds};
ghost use Rattle.gj_shape.specs.RowCut.{CutHolds};
ghost use Rattle.gj_shape.specs.SlopeRows.{total};
ghost use Rattle.gj_shape.specs.Table.{table, IsMinimalTable, IsMinimal};
ghost use Rattle.gj_shape.specs.Valid.{IsSolution, weight, IsValidTable, IsMinimalAmongValid};
ghost use Rattle.gj_shape.specs.Valid.{IsExtremeAmongValid, IsDominated};
ghost use Rattle.gj_shape.specs.Violation.{ShowsViolation};
ghost use Rattle.gj_shape.specs.declared.violations.Violation.{Violation};
ghost use Rattle.gj_frac.specs.Floor.{HasFractionalPart};
ghost use Rattle.gj_theory.specs.Cuts.{IsEntryAt};
ghost use Rattle.gj_theory.specs.GridPoints.{HoldsPoints};

/// The minimal tables are the valid tables that are minimal among the valid ones: no other lies
/// below.
pub fn minimal_tables_are_minimal_among_valid()
    ensures among { (t : ℕ → ℤ) (n k s : ℕ) → 0 < n → IsMinimalTable t n k s →
        IsMinimalAmongValid t n k s }
    ensures only { (t : ℕ → ℤ) (n k s : ℕ) → IsMinimalAmongValid t n k s → IsMinimalTable t n k s }
{}

/// The extreme tables are those that are extreme among the valid ones: no average of two different
/// valid tables.
pub fn extreme_tables_are_extreme_among_valid()
    ensures among { (t : ℕ → ℤ) (n k s : ℕ) → 0 < n → IsExtremeTable t n k s →
        IsExtremeAmongValid t n k s }
    ensures only { (t : ℕ → ℤ) (n k s : ℕ) → IsExtremeAmongValid t n k s → IsExtremeTable t n k s }
{}

/// A valid table that breaks a rule of minimal tables has another valid table below it: if it is
/// not 0 at 0, if it is not subadditive, and if entries at places that add up to k do not add up to
/// s. So each valid table is minimal or dominated.
pub fn broken_rules_are_dominated()
    ensures zero { (t : ℕ → ℤ) (n k s : ℕ) → IsValidTable t n k s → t 0 ≢ pos 0 →
        IsDominated t n k s }
    ensures subadditivity { (t : ℕ → ℤ) (n k s i j : ℕ) → IsValidTable t n k s →
        (t i +ℤ t j) <ℤ t (i + j) → IsDominated t n k s }
    ensures symmetry { (t : ℕ → ℤ) (n k s i j : ℕ) → 0 < n → IsValidTable t n k s →
        (i + j) % n ≡ k % n →
        t i +ℤ t j ≢ pos s → IsDominated t n k s }
    ensures each { (t : ℕ → ℤ) (n k s : ℕ) → 0 < n → IsValidTable t n k s → IsMinimalTable t n k s ⊎
        IsDominated t n k s }
    ensures neither { (t : ℕ → ℤ) (n k s : ℕ) → 0 < n → IsMinimalTable t n k s →
        IsDominated t n k s → ⊥ }
{}

/// Solutions as lists of places and as counts, by which y i is how often the place i below n is
/// used, have the same weights, and so give the same valid tables.
pub fn solutions_by_counts()
    ensures counts { (t : ℕ → ℤ) (n k : ℕ) (places : List ℕ) → 0 < n → ((i : ℕ) → t (i + n) ≡ t i) →
        IsSolution n k places →
        (y : ℕ → ℕ) × (sum (map (λ i. i * y i) (range_with_len 0 n)) % n ≡ k % n) ×
        (total (map (λ i. t i *ℤ pos (y i)) (range_with_len 0 n)) ≡ weight t places) }
    ensures lists { (t : ℕ → ℤ) (n k : ℕ) (y : ℕ → ℕ) →
        sum (map (λ i. i * y i) (range_with_len 0 n)) % n ≡ k % n →
        (places : List ℕ) × IsSolution n k places ×
        (weight t places ≡ total (map (λ i. t i *ℤ pos (y i)) (range_with_len 0 n))) }
    ensures valid { (t : ℕ → ℤ) (n k s : ℕ) → 0 < n → ((i : ℕ) → t (i + n) ≡ t i) →
        ((i : ℕ) → pos 0 ≤ℤ t i) →
        ((y : ℕ → ℕ) → sum (map (λ i. i * y i) (range_with_len 0 n)) % n ≡ k % n →
        pos s ≤ℤ total (map (λ i. t i *ℤ pos (y i)) (range_with_len 0 n))) →
        IsValidTable t n k s }
    ensures counted { (t : ℕ → ℤ) (n k s : ℕ) (y : ℕ → ℕ) → IsValidTable t n k s →
        sum (map (λ i. i * y i) (range_with_len 0 n)) % n ≡ k % n →
        pos s ≤ℤ total (map (λ i. t i *ℤ pos (y i)) (range_with_len 0 n)) }
{}

/// A function is minimal, or extreme, exactly if its table on each grid is so among the valid
/// tables.
pub fn functions_among_valid()
    ensures minimal { (f : FunctionData) → IsWithinBounds f → IsMinimal f →
        (m : ℕ) → 0 < m → IsMinimalAmongValid (table f m) (f.order * m)
        (f.place * m) (f.scale * m) }
    ensures only_minimal { (f : FunctionData) →
        ((m : ℕ) → 0 < m → IsMinimalAmongValid (table f m) (f.order * m) (f.place * m)
        (f.scale * m)) → IsMinimal f }
    ensures extreme { (f : FunctionData) → IsWithinBounds f → IsExtreme f →
        (m : ℕ) → 0 < m → IsExtremeAmongValid (table f m) (f.order * m)
        (f.place * m) (f.scale * m) }
    ensures only_extreme { (f : FunctionData) →
        ((m : ℕ) → 0 < m → IsExtremeAmongValid (table f m) (f.order * m) (f.place * m)
        (f.scale * m)) → IsExtreme f }
{}

/// If a violation is shown, the function's table on each grid that holds its points is not valid,
/// or is dominated; and some grid holds them.
pub fn shown_violations_are_dominated()
    ensures each { (f : FunctionData) (v : Violation) (m : ℕ) → IsWithinBounds f →
        ShowsViolation f v → 0 < m → HoldsPoints f m v →
        IsValidTable (table f m) (f.order * m) (f.place * m) (f.scale * m) →
        IsDominated (table f m) (f.order * m) (f.place * m) (f.scale * m) }
    ensures some { (f : FunctionData) (v : Violation) → ShowsViolation f v → (m : ℕ) × (0 < m) ×
        HoldsPoints f m v }
{}

/// A row gives a cut by each valid table: if its right side has the fractional part f and the
/// coefficients are the table's entries at the places of the row's. A subadditive table that is 0
/// at 0 and at least 1 at f is valid.
pub fn valid_tables_give_cuts()
    ensures cut { (t : ℕ → ℤ) (n k s : ℕ) (entries : List Frac) (right : Frac)
        (coefficients : List Frac) →
        IsValidTable t n k s → 0 < n → 0 < s → HasFractionalPart right (pos k) (pos n) →
        AllZip (IsEntryAt t n s) entries coefficients → CutHolds entries right coefficients }
    ensures subadditive { (t : ℕ → ℤ) (n k s : ℕ) → ((i : ℕ) → t (i + n) ≡ t i) →
        ((i : ℕ) → pos 0 ≤ℤ t i) → t 0 ≡ pos 0 →
        ((i j : ℕ) → t (i + j) ≤ℤ (t i +ℤ t j)) → pos s ≤ℤ t k → IsValidTable t n k s }
{}
