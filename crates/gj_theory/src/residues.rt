//! Elimination over residues: its rows and their solutions.
ghost use Rattle.std.specs.Prelude.{ℕ, ℤ, pos, ◌≡◌, ◌≢◌, ◌<◌, ◌≤◌, ◌-ℤ◌, ◌*ℤ◌, ◌↔◌, None, Some};
ghost use Rattle.std.specs.Prelude.{List, length, unsigned_abs, All, IfSome};
ghost use Rattle.gj_lemmas.specs.Divisors.{gcd_of};
ghost use Rattle.gj_shape.specs.Elimination.{KeptRow, elimination_by};
ghost use Rattle.gj_shape.specs.Residues.{inverse, modulo, IsZeroModulo, SolvesModulo};
ghost use Rattle.gj_theory.specs.TriangularRows.{Solves, present_row_by};
ghost use Rattle.gj_theory.specs.TriangularResidues.{HavePivotsModulo, SolvesKeptModulo};
ghost use Rattle.gj_theory.specs.TriangularResidues.{AreTriangularResidues};

/// The modulus of elimination over residues, 2^61 - 1.
pub const MODULUS: u64 = 2_305_843_009_213_693_951;

/// What solves n rows with n pivots modulo m is 0 modulo m. So a list of rows of whole numbers,
/// each of whose solutions solves those n rows modulo m, has only the solution 0: each solution can
/// be divided by m, again and again. Nothing asks m to be prime.
pub fn pivots_modulo_leave_only_zero()
    ensures modulo { (m n : ℕ) (row : ℕ → List ℤ) (pivot : ℕ → ℕ) (w : List ℤ) →
        HavePivotsModulo m n row pivot →
        length w ≡ n → ((g : ℕ) → g < n → SolvesModulo m w (row g)) → All (IsZeroModulo m) w }
    ensures zero { (m n : ℕ) (row : ℕ → List ℤ) (pivot : ℕ → ℕ) (rows : List (List ℤ))
        (w : List ℤ) → 1 < m →
        HavePivotsModulo m n row pivot →
        ((v : List ℤ) → length v ≡ n → All (Solves v) rows → (g : ℕ) → g < n →
        SolvesModulo m v (row g)) →
        length w ≡ n → All (Solves w) rows → All (λ x. x ≡ pos 0) w }
{}

/// The elimination over residues keeps triangular rows, at most as many as columns, each of them
/// solved modulo m by what solves all rows modulo m. If there are as many as columns, only 0 solves
/// all rows.
pub fn elimination_modulo_leaves_only_zero()
    ensures triangular { (m n : ℕ) (rows : List (List ℤ)) → 0 < m →
        All (λ row. length row ≡ n) rows →
        AreTriangularResidues n (elimination_by (modulo m) n rows).kept }
    ensures rank { (n : ℕ) (kept : List KeptRow) → AreTriangularResidues n kept → length kept ≤ n }
    ensures solved { (m n : ℕ) (rows : List (List ℤ)) (w : List ℤ) → 0 < m →
        All (λ row. length row ≡ n) rows →
        All (SolvesModulo m w) rows → SolvesKeptModulo m w (elimination_by (modulo m) n rows).kept }
    ensures zero { (m n : ℕ) (rows : List (List ℤ)) (w : List ℤ) → 1 < m →
        All (λ row. length row ≡ n) rows →
        length (elimination_by (modulo m) n rows).kept ≡ n → length w ≡ n → All (Solves w) rows →
        All (λ x. x ≡ pos 0) w }
{}

/// A number has an inverse modulo m exactly if its greatest common divisor with m is 1, and then it
/// has one below m.
pub fn inverses_modulo()
    ensures none { (m : ℕ) (x : ℤ) → 1 < m → ((inverse m x ≡ None) ↔
        (gcd_of (unsigned_abs x) m ≢ 1)) }
    ensures found { (m : ℕ) (x : ℤ) → 1 < m →
        IfSome (inverse m x) (λ w. (w < m) × IsZeroModulo m (pos w *ℤ x -ℤ pos 1)) }
    ensures only { (m w : ℕ) (x : ℤ) → 1 < m → w < m → IsZeroModulo m (pos w *ℤ x -ℤ pos 1) →
        inverse m x ≡ Some w }
{}

/// What solves a row and the kept rows modulo m solves the row after any steps by these.
pub fn present_row_modulo_keeps_solutions()
    ensures { (m n : ℕ) (kept : List KeptRow) (row w : List ℤ) (columns : List ℕ) → 0 < m →
        All (λ k. length k.entries ≡ n) kept → length row ≡ n →
        SolvesKeptModulo m w kept → SolvesModulo m w row → SolvesModulo m w
        (present_row_by (modulo m) kept row columns) }
{}
