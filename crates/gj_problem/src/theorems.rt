//! Inequalities and rows of programs: theorems, each the contract of a function with no code.
ghost use Rattle.std.specs.Prelude.{◌≡◌, ℕ, ℤ, pos, Bool, List, All, Some, length};
ghost use Rattle.gj_frac.specs.declared.Frac.{Frac};
ghost use Rattle.gj_problem.specs.declared.problem.Problem.{Problem};
ghost use Rattle.gj_problem.specs.declared.problem.Constraint.{Constraint};
ghost use Rattle.gj_problem.specs.declared.problem.Inequality.{Inequality};
ghost use Rattle.gj_problem.specs.declared.problem.Column.{Column};
ghost use Rattle.gj_problem.specs.declared.pieces.Piece.{Piece};
ghost use Rattle.gj_fields.specs.Rational.{Rational, whole, rational, ◌*ℚ◌, ◌-ℚ◌, ◌≤ℚ◌};
ghost use Rattle.gj_problem.specs.Problems.{IsFeasible, Holds, IsColumn, IsConstraint, value_at};
ghost use Rattle.gj_problem.specs.Problems.{surplus_at};
ghost use Rattle.gj_problem.specs.Rows.{IsSignFor, IsConstraintTimes, IsWholeInequality};
ghost use Rattle.gj_problem.specs.Rows.{HasWholeSurplus};
ghost use Rattle.gj_problem.specs.Moves.{IsBelowOnGrid};
ghost use Rattle.gj_problem.specs.declared.rounding.RoundedCut.{RoundedCut};
ghost use Rattle.gj_problem.specs.RoundedCuts.{IsRounded, IsRoundedOf, TellsWideRounding};
ghost use Rattle.gj_problem.specs.Aggregates.{IsRow, IsFirstFree, IsSound, AddsUpAt, IsCutOver};
ghost use Rattle.gj_problem.specs.Aggregates.{IsTurnedBack};

/// A constraint times a whole number of the sign that its sense asks for holds. If the numbers of
/// an inequality and its columns are whole, so is what its sum has above its right side.
pub fn slack_of_a_constraint()
    ensures holds { (p : Problem) (i : ℕ) (c : Constraint) (m : ℤ) (q : Inequality) →
        IsConstraint p i c →
        IsSignFor c.sense m → IsConstraintTimes c m q → Holds p q }
    ensures is_whole { (p : Problem) (q : Inequality) → IsWholeInequality p q →
        HasWholeSurplus p q }
{}

/// A column minus its lower bound, and its upper bound minus the column, are at least 0.
pub fn bounds_of_a_column()
    ensures lower { (p : Problem) (j : ℕ) (c : Column) (l : Frac) (q : Inequality) →
        IsColumn p j c → c.lower ≡ Some l →
        ((point : List Rational) →
        surplus_at point q ≡ value_at point j -ℚ rational l) → Holds p q }
    ensures upper { (p : Problem) (j : ℕ) (c : Column) (u : Frac) (q : Inequality) →
        IsColumn p j c → c.upper ≡ Some u →
        ((point : List Rational) →
        surplus_at point q ≡ rational u -ℚ value_at point j) → Holds p q }
{}

/// The row of any multipliers: its pieces hold and are whole where they say so, and at each
/// feasible point the entries times their surpluses, and a whole number, add up to the right side.
pub fn row_by_multipliers()
    ensures sound { (p : Problem) (multipliers : List Frac) (at_upper : List Bool)
        (pieces : List Piece) (right : Frac) →
        IsRow p multipliers at_upper pieces right → All (IsSound p) pieces }
    ensures adds_up { (p : Problem) (multipliers : List Frac) (at_upper : List Bool)
        (pieces : List Piece) (right : Frac) →
        IsRow p multipliers at_upper pieces right → length at_upper ≡ length p.columns →
        (point : List Rational) → IsFeasible p point → AddsUpAt point pieces right }
{}

/// The multipliers make one row, or one column is the first free one, and not both. So a cut is by
/// the right side of that row.
pub fn one_row()
    ensures pieces { (p : Problem) (multipliers : List Frac) (at_upper : List Bool)
        (pieces others : List Piece) (right other : Frac) →
        IsRow p multipliers at_upper pieces right →
        IsRow p multipliers at_upper others other → pieces ≡ others }
    ensures right { (p : Problem) (multipliers : List Frac) (at_upper : List Bool)
        (pieces others : List Piece) (right other : Frac) →
        IsRow p multipliers at_upper pieces right →
        IsRow p multipliers at_upper others other → right ≡ other }
    ensures free { (p : Problem) (multipliers : List Frac) (at_upper : List Bool)
        (pieces : List Piece) (right : Frac) (j : ℕ) →
        IsRow p multipliers at_upper pieces right → IsFirstFree p multipliers at_upper j → ⊥ }
    ensures first { (p : Problem) (multipliers : List Frac) (at_upper : List Bool) (j k : ℕ) →
        IsFirstFree p multipliers at_upper j → IsFirstFree p multipliers at_upper k → j ≡ k }
{}

/// What is rounded by the bounds holds.
pub fn rounded_cut()
    ensures { (p : Problem) (q rounded : Inequality) → Holds p q →
        IsRounded p q rounded → Holds p rounded }
{}

/// An inequality has one answer on the grid, if it is `Wide` where a number does not fit.
pub fn one_rounded_cut()
    ensures { (p : Problem) (grid : ℕ) (q : Inequality) (cut other : RoundedCut) →
        IsRoundedOf p grid q cut → IsRoundedOf p grid q other →
        TellsWideRounding p grid q cut → TellsWideRounding p grid q other → cut ≡ other }
{}

/// A cut over the pieces holds when it is turned back into the columns of the problem.
pub fn turned_back_cut()
    ensures { (p : Problem) (pieces : List Piece) (coefficients : List Frac) (q : Inequality) →
        IsCutOver p pieces coefficients →
        IsTurnedBack pieces coefficients q → Holds p q }
{}

/// The number on the grid to which x goes down is nearer than 1/n: what is 1/n above it is above x.
pub fn rounded_near()
    ensures { (n : ℕ) (x y z : Rational) → IsBelowOnGrid n x y →
        whole (pos n) *ℚ (z -ℚ y) ≡ whole (pos 1) → z ≤ℚ x → ⊥ }
{}
