//! Cover lines and rows that show a function to be extreme.
ghost use Rattle.std.specs.Prelude.{ℕ, ℤ, pos, ◌≡◌, ◌<◌, ◌==◌, List, length, All, count_by};
ghost use Rattle.gj_shape.specs.Additive.{IsTight};
ghost use Rattle.gj_shape.specs.Cover.{AreCoverLines, HasCoverLine, HasComponent};
ghost use Rattle.gj_shape.specs.Extreme.{IsExtreme};
ghost use Rattle.gj_shape.specs.FunctionData.{FunctionData, IsWithinBounds, IsContinuous};
ghost use Rattle.gj_shape.specs.SlopeRows.{SolveRows, sum_of_products};
ghost use Rattle.gj_shape.specs.Table.{IsMinimal};
ghost use Rattle.gj_shape.specs.declared.extremality.CoverLine.{CoverLine};
ghost use Rattle.gj_theory.specs.CoverRules.{MeetsCoverRules};
ghost use Rattle.gj_theory.specs.PivotRows.{HavePivots};
ghost use Rattle.gj_theory.specs.Steps.{HasStepOn, IsAdditiveOnGrid};

/// The cover lines of the decision meet the rules for cover lines.
pub fn cover_lines_meet_rules()
    ensures { (f : FunctionData) (lines : List CoverLine) → AreCoverLines f.order
        (IsTight f) lines →
        MeetsCoverRules f.order (IsTight f) lines }
{}

/// By lines that meet the rules, each interval with a line is in one component, whose number is
/// below that of the opening lines.
pub fn lines_give_components()
    ensures some { (f : FunctionData) (lines : List CoverLine) (i : ℕ) →
        MeetsCoverRules f.order (IsTight f) lines →
        HasCoverLine lines i → (number : ℕ) × HasComponent lines number i }
    ensures one { (f : FunctionData) (lines : List CoverLine) (i a b : ℕ) →
        MeetsCoverRules f.order (IsTight f) lines →
        HasComponent lines a i → HasComponent lines b i → a ≡ b }
    ensures line { (lines : List CoverLine) (number i : ℕ) → HasComponent lines number i →
        HasCoverLine lines i }
    ensures below { (lines : List CoverLine) (number i : ℕ) → HasComponent lines number i →
        number < count_by (λ l. l.from == l.interval) lines }
{}

/// By lines that meet the rules, a table that is additive where the function's is has one constant
/// step on all intervals of a component.
pub fn components_have_one_step()
    ensures { (f : FunctionData) (m : ℕ) (p : ℕ → ℤ) (lines : List CoverLine) →
        IsContinuous f → 0 < m → IsAdditiveOnGrid f m p → MeetsCoverRules f.order
        (IsTight f) lines →
        (step : ℕ → ℤ) × ((number i : ℕ) → HasComponent lines number i →
        HasStepOn p m i (step number)) }
{}

/// As many rows with different pivots as columns leave only 0.
pub fn rows_with_pivots_leave_only_zero()
    ensures { (n : ℕ) (row : ℕ → List ℤ) (pivot : ℕ → ℕ) (numbers : List ℤ) →
        HavePivots n row pivot →
        length numbers ≡ n → ((g : ℕ) → g < n → sum_of_products (row g) numbers ≡ pos 0) →
        All (λ x. x ≡ pos 0) numbers }
{}

/// A continuous minimal function is extreme if lines that meet the rules cover all intervals, and
/// the linear system for the slopes of the components has only the solution 0: as it has if as many
/// rows with different pivots as there are components are 0 at all its solutions.
pub fn cover_and_rows_give_extreme()
    ensures zero { (f : FunctionData) (lines : List CoverLine) (component : ℕ → ℕ) (n : ℕ) →
        IsWithinBounds f → IsContinuous f → IsMinimal f → MeetsCoverRules f.order
        (IsTight f) lines →
        ((i : ℕ) → i < f.order → HasComponent lines (component i) i) →
        n ≡ count_by (λ l. l.from == l.interval) lines →
        ((slopes : List ℤ) → length slopes ≡ n → SolveRows component n f slopes →
        All (λ x. x ≡ pos 0) slopes) →
        IsExtreme f }
    ensures rows { (f : FunctionData) (lines : List CoverLine) (component : ℕ → ℕ) (n : ℕ)
        (row : ℕ → List ℤ) (pivot : ℕ → ℕ) →
        IsWithinBounds f → IsContinuous f → IsMinimal f → MeetsCoverRules f.order
        (IsTight f) lines →
        ((i : ℕ) → i < f.order → HasComponent lines (component i) i) →
        n ≡ count_by (λ l. l.from == l.interval) lines → HavePivots n row pivot →
        ((slopes : List ℤ) → length slopes ≡ n → SolveRows component n f slopes →
        (g : ℕ) → g < n → sum_of_products (row g) slopes ≡ pos 0) →
        IsExtreme f }
{}
