//! Laws of runs.
ghost use Rattle.std.specs.Prelude.{ℕ, ◌↔◌, List};
ghost use Rattle.gj_shape.specs.Additive.{IsAdditive, IsTight};
ghost use Rattle.gj_shape.specs.FunctionData.{FunctionData};
ghost use Rattle.gj_shape.specs.declared.faces.FaceKind.{FaceKind};
ghost use Rattle.gj_faces.specs.Runs.{InRuns, TellTight};
ghost use Rattle.gj_faces.specs.declared.run.Run.{Run};

/// By runs that tell the tight pairs of a function a face is additive exactly if it is additive by
/// the function.
pub fn additive_by_runs()
    ensures { (q : ℕ) (runs : List Run) (f : FunctionData) (kind : FaceKind) (a b : ℕ) →
        TellTight q runs (IsTight f) →
        IsAdditive (InRuns q runs) kind a b ↔ IsAdditive (IsTight f) kind a b }
{}
