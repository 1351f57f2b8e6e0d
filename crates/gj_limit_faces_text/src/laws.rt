//! Laws of texts of faces.
ghost use Rattle.std.specs.Prelude.{◌≡◌, ℕ, List};
ghost use Rattle.gj_shape.specs.FunctionData.{FunctionData};
ghost use Rattle.gj_shape.specs.declared.extremality.CoverLine.{CoverLine};
ghost use Rattle.gj_jumps.specs.LimitCover.{IsTightAt};
ghost use Rattle.gj_limit_cover.specs.LimitCover.{AreCoverLines};
ghost use Rattle.gj_limit_faces_text.specs.LimitFacesText.{IsLimitFacesText};

/// A function has one list of cover lines by limits, and one text of its faces and intervals.
pub fn one_text_of_faces()
    ensures lines { (f : FunctionData) (a b : List CoverLine) →
        AreCoverLines f.order (IsTightAt f) a → AreCoverLines f.order (IsTightAt f) b → a ≡ b }
    ensures text { (f : FunctionData) (x y : List ℕ) → IsLimitFacesText f x →
        IsLimitFacesText f y → x ≡ y }
{}
