//! Plain elimination: its rows and their solutions.
ghost use Rattle.std.specs.Prelude.{ℕ, ℤ, pos, ◌≡◌, ◌<◌, ◌≤◌, ◌↔◌, ◌<ℤ◌, None, List, [], length};
ghost use Rattle.std.specs.Prelude.{map, zip, All, Any, IfSome};
ghost use Rattle.std.specs.List.{range_with_len};
ghost use Rattle.gj_frac.specs.Fraction.{Fits};
ghost use Rattle.gj_shape.specs.Elimination.{KeptRow, at_column, divided, reduced, kept_entries};
ghost use Rattle.gj_shape.specs.Elimination.{inserted, kept_behind, elimination, kernel, Passes};
ghost use Rattle.gj_theory.specs.HandedOver.{kept_after, IsHandedOver, handed_numbers, handed_rows};
ghost use Rattle.gj_theory.specs.HandedOver.{renumbered};
ghost use Rattle.gj_theory.specs.TriangularRows.{Solves, SolvesKept, AreTriangular, present_row};

/// A step keeps the solutions: together with the kept row, the row and the row after the step have
/// the same.
pub fn step_keeps_solutions()
    ensures after { (kept row w : List ℤ) (c : ℕ) → length kept ≡ length row →
        Solves w kept → Solves w row → Solves w (reduced kept row c) }
    ensures before { (kept row w : List ℤ) (c : ℕ) → length kept ≡ length row →
        pos 0 <ℤ at_column kept c →
        Solves w kept → Solves w (reduced kept row c) → Solves w row }
    ensures division { (row w : List ℤ) → (Solves w (divided row) ↔ Solves w row) }
    ensures entries { (row w : List ℤ) (c : ℕ) → (Solves w (kept_entries row c) ↔ Solves w row) }
{}

/// Each solution of a row and of the kept rows solves the row after any steps by these.
pub fn present_row_keeps_solutions()
    ensures { (n : ℕ) (kept : List KeptRow) (row w : List ℤ) (columns : List ℕ) →
        All (λ k. length k.entries ≡ n) kept → length row ≡ n →
        SolvesKept w kept → Solves w row → Solves w (present_row kept row columns) }
{}

/// Behind an insertion the kept rows are triangular, and have exactly the solutions of the kept
/// rows before and the row. So a row of which nothing is left is solved by each solution of the
/// kept rows.
pub fn insertion_keeps_solutions()
    ensures triangular { (n number : ℕ) (kept : List KeptRow) (row : List ℤ) →
        AreTriangular n kept → length row ≡ n →
        AreTriangular n
        (kept_behind kept number (inserted n kept row).reduce (inserted n kept row).kept) }
    ensures same { (n number : ℕ) (kept : List KeptRow) (row w : List ℤ) →
        AreTriangular n kept → length row ≡ n →
        (SolvesKept w
        (kept_behind kept number (inserted n kept row).reduce (inserted n kept row).kept)
        ↔ (SolvesKept w kept × Solves w row)) }
{}

/// Triangular rows of n columns are at most n, and n of them leave only 0.
pub fn all_pivots_leave_zero()
    ensures rank { (n : ℕ) (kept : List KeptRow) → AreTriangular n kept → length kept ≤ n }
    ensures zero { (n : ℕ) (kept : List KeptRow) (w : List ℤ) →
        AreTriangular n kept → length kept ≡ n →
        length w ≡ n → SolvesKept w kept → All (λ x. x ≡ pos 0) w }
{}

/// The elimination keeps triangular rows that have exactly the solutions of all rows.
pub fn elimination_keeps_solutions()
    ensures triangular { (n : ℕ) (rows : List (List ℤ)) → All (λ row. length row ≡ n) rows →
        AreTriangular n (elimination n rows).kept }
    ensures same { (n : ℕ) (rows : List (List ℤ)) (w : List ℤ) →
        All (λ row. length row ≡ n) rows → length w ≡ n →
        (SolvesKept w (elimination n rows).kept ↔ All (Solves w) rows) }
{}

/// A row that was inserted before changes nothing: it is not kept, and if its entries are within
/// the bound, it marks a number that passes only if it did so before.
pub fn repeated_row_changes_nothing()
    ensures nothing { (n number : ℕ) (kept more : List KeptRow) (row : List ℤ) →
        (inserted n (kept_after n kept number row more) row).kept ≡ None }
    ensures passes { (n number : ℕ) (kept more : List KeptRow) (row : List ℤ) → All Fits row →
        Passes (inserted n (kept_after n kept number row more) row).marked →
        Passes (inserted n kept row).marked }
{}

/// So an elimination needs each row only once, and no row of zeros: over those that are handed over
/// it keeps the same rows, each with its place among them for its number, and if all entries are
/// within the bound, it marks a number that passes exactly if the elimination of all rows does. All
/// rows can be handed over.
pub fn each_row_once_suffices()
    ensures kept { (n : ℕ) (rows : List (List ℤ)) (handed : List (ℕ × List ℤ)) →
        IsHandedOver [] 0 rows handed →
        (elimination n rows).kept ≡ map (renumbered (handed_numbers handed))
        (elimination n (handed_rows handed)).kept }
    ensures passes { (n : ℕ) (rows : List (List ℤ)) (handed : List (ℕ × List ℤ)) →
        IsHandedOver [] 0 rows handed →
        All (All Fits) rows → (Passes (elimination n rows).marked ↔
        Passes (elimination n (handed_rows handed)).marked) }
    ensures all { (before : List (List ℤ)) (number : ℕ) (rows : List (List ℤ)) →
        IsHandedOver before number rows (zip (range_with_len number (length rows)) rows) }
{}

/// The kernel of triangular rows of n columns: if they are fewer than n, numbers that solve all of
/// them, one of them positive.
pub fn kernel_solves()
    ensures none { (n : ℕ) (kept : List KeptRow) → AreTriangular n kept →
        ((kernel n kept ≡ None) ↔ (length kept ≡ n)) }
    ensures columns { (n : ℕ) (kept : List KeptRow) → IfSome (kernel n kept)
        (λ s. length s.numbers ≡ n) }
    ensures solves { (n : ℕ) (kept : List KeptRow) → AreTriangular n kept →
        IfSome (kernel n kept) (λ s. SolvesKept s.numbers kept) }
    ensures some { (n : ℕ) (kept : List KeptRow) → AreTriangular n kept →
        IfSome (kernel n kept) (λ s. Any (λ x. pos 0 <ℤ x) s.numbers) }
{}
