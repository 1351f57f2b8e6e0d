//! The first test that fails gives the first violation.
ghost use Rattle.std.specs.Prelude.{ℕ, ◌<◌};
ghost use Rattle.gj_shape.specs.FunctionData.{FunctionData};
ghost use Rattle.gj_shape.specs.FirstViolation.{Test, Passes, PassesAll, Shows, IsFirstViolation};
ghost use Rattle.gj_shape.specs.declared.violations.Violation.{Violation};
ghost use Rattle.gj_theory.specs.EarlierTests.{IsTestOf, PassesBefore, PassesVertices};
ghost use Rattle.gj_theory.specs.EarlierTests.{PassesSquare};

/// If all tests before a test pass and it fails, what it shows is the first violation.
pub fn first_failed_test()
    ensures { (f : FunctionData) (t : Test) (v : Violation) → IsTestOf f t → PassesBefore f t →
        (Passes f t → ⊥) → Shows f t v → IsFirstViolation f v }
{}

/// All tests pass if those of signs, of symmetry and of the vertices do, and those of all other
/// faces.
pub fn all_tests_pass()
    ensures { (f : FunctionData) → PassesVertices f →
        ((a b : ℕ) → a < f.order → b < f.order → PassesSquare f a b) → PassesAll f }
{}

/// A function with a first violation does not pass all tests.
pub fn first_violation_denies_tests()
    ensures { (f : FunctionData) (v : Violation) → IsFirstViolation f v → PassesAll f → ⊥ }
{}
