//! Problems on a grid: theorems, each a clause of a function with no code.
ghost use Rattle.std.specs.Prelude.{ℕ, List};
ghost use Rattle.gj_frac.specs.declared.Frac.{Frac};
ghost use Rattle.gj_problem.specs.declared.problem.Inequality.{Inequality};
ghost use Rattle.gj_problem.specs.declared.problem.Problem.{Problem};
ghost use Rattle.gj_fields.specs.Rational.{Rational};
ghost use Rattle.gj_problem.specs.Problems.{IsFeasible, Holds};
ghost use Rattle.gj_relaxed.specs.RelaxedProblems.{IsRelaxedProblem};

/// Each feasible point of a problem is feasible for the problem on the grid. So what holds at all
/// feasible points of that holds at all those of the problem.
pub fn relaxed_problem_is_weaker()
    ensures feasible { (n : ℕ) (p p' : Problem) (multipliers multipliers' : List Frac)
        (point : List Rational) → IsRelaxedProblem n p multipliers p' multipliers' →
        IsFeasible p point → IsFeasible p' point }
    ensures holds { (n : ℕ) (p p' : Problem) (multipliers multipliers' : List Frac)
        (q : Inequality) → IsRelaxedProblem n p multipliers p' multipliers' →
        Holds p' q → Holds p q }
{}
