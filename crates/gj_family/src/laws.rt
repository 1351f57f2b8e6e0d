//! Laws of the families.
ghost use Rattle.std.specs.Prelude.{ℕ, pos, ◌≡◌, ◌<◌, ◌*◌, ◌<ℤ◌, ◌*ℤ◌, List, Bool};
ghost use Rattle.gj_shape.specs.FunctionData.{FunctionData, IsWithinBounds};
ghost use Rattle.gj_shape.specs.Gmic.{gmic_table, gmic_scale};
ghost use Rattle.gj_shape.specs.Table.{table};
ghost use Rattle.gj_family.specs.Families.{IsGmic, IsHalf, IsTwoSlope};
ghost use Rattle.gj_family.specs.Signs.{height};

/// On every grid the mixed-integer cut has the values of the table of its order and place.
pub fn gmic_is_gmic_table()
    ensures { (q k m i : ℕ) (f : FunctionData) → IsGmic q k f → IsWithinBounds f → 0 < m →
        table f m i *ℤ pos (gmic_scale (q * m) (k * m)) ≡ pos
        (gmic_table (q * m) (k * m) i) *ℤ pos (f.scale * m) }
{}

/// The closed form of a family has one function within the bounds.
pub fn one_function_of_a_family()
    ensures gmic { (q k : ℕ) (f g : FunctionData) → IsGmic q k f → IsGmic q k g → IsWithinBounds f →
        IsWithinBounds g → f ≡ g }
    ensures half { (q k : ℕ) (f g : FunctionData) → IsHalf q k f → IsHalf q k g → IsWithinBounds f →
        IsWithinBounds g → f ≡ g }
    ensures two_slope { (k : ℕ) (signs : List Bool) (f g : FunctionData) → pos 0 <ℤ height signs k →
        IsTwoSlope k signs f → IsTwoSlope k signs g → IsWithinBounds f → IsWithinBounds g → f ≡ g }
{}
