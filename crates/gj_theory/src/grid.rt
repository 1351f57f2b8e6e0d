//! The tests of minimality, and the tables on all grids.
ghost use Rattle.std.specs.Prelude.{ℕ, pos, ◌≡◌, ◌+◌, ◌-◌, ◌*◌, ◌<◌, ◌≤◌, ◌+ℤ◌, [], ◌∷◌, length};
ghost use Rattle.gj_shape.specs.FunctionData.{FunctionData, IsWithinBounds, IsPiecewise};
ghost use Rattle.gj_shape.specs.FunctionData.{IsContinuous, at};
ghost use Rattle.gj_shape.specs.Faces.{corners_of, limits_of};
ghost use Rattle.gj_shape.specs.FirstViolation.{PassesAll, near, first_coordinates};
ghost use Rattle.gj_shape.specs.FirstViolation.{second_coordinates};
ghost use Rattle.gj_shape.specs.Table.{table, IsMinimalOnGrid, IsMinimal};
ghost use Rattle.gj_shape.specs.declared.faces.FaceKind.{FaceKind};
ghost use Rattle.gj_theory.specs.NearCorners.{near_value};

/// The thirteen limits: all tests of minimality pass exactly if the function is minimal, its table
/// on every grid. Its order and its numbers may be of any size.
pub fn tests_say_minimal()
    ensures sound { (f : FunctionData) → IsPiecewise f → PassesAll f → IsMinimal f }
    ensures complete { (f : FunctionData) → IsMinimal f → PassesAll f }
{}

/// A continuous function is minimal if the table on its own grid is: then the tables on all grids
/// are.
pub fn own_grid_suffices()
    ensures { (f : FunctionData) → IsWithinBounds f → IsContinuous f →
        IsMinimalOnGrid f 1 → IsMinimal f }
{}

/// Near the end of an open interval the values are affine between the limits at its ends.
pub fn values_near_ends()
    ensures after { (f : FunctionData) (i h : ℕ) → 2 ≤ h →
        table f h (i * h + 1) ≡ near_value h 0 (at f.right i ∷ at f.left (i + 1) ∷ []) }
    ensures before { (f : FunctionData) (i h : ℕ) → 2 ≤ h →
        table f h (i * h + h - 1) ≡ near_value h 1 (at f.right i ∷ at f.left (i + 1) ∷ []) }
{}

/// Near a corner of a face the slack is affine between the limits at its corners.
pub fn slack_near_corners()
    ensures { (f : FunctionData) (kind : FaceKind) (a b c h : ℕ) →
        c < length (corners_of kind a b) → length (corners_of kind a b) ≤ h →
        table f h (near h c (first_coordinates kind a b))
        +ℤ table f h (near h c (second_coordinates kind a b))
        ≡ table f h (near h c (first_coordinates kind a b) + near h c (second_coordinates kind a b))
        +ℤ near_value h c (limits_of f kind a b) }
{}
