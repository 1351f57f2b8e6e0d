//! Cuts of problems on a grid hold: theorems, each the contract of a function with no code.
ghost use Rattle.std.specs.Prelude.{◌≡◌, ℕ, Bool, List, All, length};
ghost use Rattle.std.specs.List.{AllZip};
ghost use Rattle.gj_frac.specs.declared.Frac.{Frac};
ghost use Rattle.gj_shape.specs.FunctionData.{FunctionData, IsContinuous, IsWithinBounds};
ghost use Rattle.gj_shape.specs.Table.{IsMinimal};
ghost use Rattle.gj_problem.specs.declared.pieces.Piece.{Piece};
ghost use Rattle.gj_problem.specs.declared.problem.Inequality.{Inequality};
ghost use Rattle.gj_problem.specs.declared.problem.Problem.{Problem};
ghost use Rattle.gj_fields.specs.Rational.{Rational};
ghost use Rattle.gj_problem.specs.Aggregates.{IsSound, AddsUpAt, pieces_at};
ghost use Rattle.gj_safe_cut.specs.declared.cut.SafeCut.{SafeCut};
ghost use Rattle.gj_safe_cut.specs.declared.cut.SafeCut.TheVariants.{Cut};
ghost use Rattle.gj_safe_cut.specs.SafeCuts.{SafeCutHolds, IsSameCut, TellsWide};
ghost use Rattle.gj_relaxed.specs.declared.rows.RightMove.{RightMove};
ghost use Rattle.gj_relaxed.specs.RelaxedRows.{IsRelaxedRow};
ghost use Rattle.gj_relaxed.specs.LoosePieces.{IsLoosened};
ghost use Rattle.gj_relaxed.specs.RelaxedCuts.{IsGmicRelaxedCutOf, IsFunctionRelaxedCutOf};

/// Where whole pieces with small entries are taken as continuous ones, the pieces of a row hold if
/// they did, and they add the same at each point.
pub fn loosened_row_is_sound()
    ensures sound { (n : ℕ) (p : Problem) (pieces loose : List Piece) →
        AllZip (IsLoosened n) pieces loose → All (IsSound p) pieces → All (IsSound p) loose }
    ensures adds_same { (n : ℕ) (point : List Rational) (pieces loose : List Piece) →
        AllZip (IsLoosened n) pieces loose → pieces_at point loose ≡ pieces_at point pieces }
{}

/// If the pieces of a row hold and are whole where they say so, so it is with the row on the grid.
/// Where the row adds up to its right side and a whole number, the row on the grid adds up to its.
pub fn relaxed_row_is_sound()
    ensures sound { (to : RightMove) (n columns : ℕ) (p : Problem) (pieces relaxed : List Piece)
        (right right' : Frac) → IsRelaxedRow to n columns pieces right relaxed right' →
        All (IsSound p) pieces → All (IsSound p) relaxed }
    ensures adds_up { (to : RightMove) (n columns : ℕ) (point : List Rational)
        (pieces relaxed : List Piece) (right right' : Frac) →
        IsRelaxedRow to n columns pieces right relaxed right' →
        AddsUpAt point pieces right → AddsUpAt point relaxed right' }
{}

/// The cut of a problem by any multipliers, where the problem and its row are taken to a grid,
/// holds at each feasible point of the problem: the mixed-integer cut, and the cut by a minimal
/// continuous function.
pub fn relaxed_cut_holds()
    ensures by_gmic { (n : ℕ) (p : Problem) (multipliers : List Frac) (at_upper : List Bool)
        (cut : SafeCut) → length at_upper ≡ length p.columns →
        IsGmicRelaxedCutOf n p multipliers at_upper cut → SafeCutHolds p cut }
    ensures by_function { (f : FunctionData) (n : ℕ) (p : Problem) (multipliers : List Frac)
        (at_upper : List Bool) (cut : SafeCut) → IsWithinBounds f → IsMinimal f →
        IsContinuous f → length at_upper ≡ length p.columns →
        IsFunctionRelaxedCutOf f n p multipliers at_upper cut → SafeCutHolds p cut }
{}

/// A problem has one cut on a grid by multipliers and a rule: where there is a cut, any other
/// answer is the same inequality, or `Wide`. If each is `Wide` where a number does not fit, the
/// answer is one.
pub fn one_relaxed_cut()
    ensures by_gmic { (n : ℕ) (p : Problem) (multipliers : List Frac) (at_upper : List Bool)
        (q : Inequality) (cut : SafeCut) →
        IsGmicRelaxedCutOf n p multipliers at_upper (Cut q) →
        IsGmicRelaxedCutOf n p multipliers at_upper cut → IsSameCut q cut }
    ensures by_function { (f : FunctionData) (n : ℕ) (p : Problem) (multipliers : List Frac)
        (at_upper : List Bool) (q : Inequality) (cut : SafeCut) → IsWithinBounds f →
        IsFunctionRelaxedCutOf f n p multipliers at_upper (Cut q) →
        IsFunctionRelaxedCutOf f n p multipliers at_upper cut → IsSameCut q cut }
    ensures answer_by_gmic { (n : ℕ) (p : Problem) (multipliers : List Frac)
        (at_upper : List Bool) (cut other : SafeCut) →
        IsGmicRelaxedCutOf n p multipliers at_upper cut →
        IsGmicRelaxedCutOf n p multipliers at_upper other →
        TellsWide (IsGmicRelaxedCutOf n p multipliers at_upper) cut →
        TellsWide (IsGmicRelaxedCutOf n p multipliers at_upper) other → cut ≡ other }
    ensures answer_by_function { (f : FunctionData) (n : ℕ) (p : Problem) (multipliers : List Frac)
        (at_upper : List Bool) (cut other : SafeCut) → IsWithinBounds f →
        IsFunctionRelaxedCutOf f n p multipliers at_upper cut →
        IsFunctionRelaxedCutOf f n p multipliers at_upper other →
        TellsWide (IsFunctionRelaxedCutOf f n p multipliers at_upper) cut →
        TellsWide (IsFunctionRelaxedCutOf f n p multipliers at_upper) other → cut ≡ other }
{}
