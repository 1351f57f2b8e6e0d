//! The slopes of functions at 0.
ghost use Rattle.std.specs.Prelude.{pos, ◌≡◌, ◌<◌, ◌-ℤ◌, ◌*ℤ◌, ◌≤ℤ◌};
ghost use Rattle.gj_frac.specs.Fraction.{IsRatio};
ghost use Rattle.gj_shape.specs.FunctionData.{IsWithinBounds, at};
ghost use Rattle.gj_shape.specs.Table.{IsMinimal};
ghost use Rattle.gj_rule.specs.Kind.{IsKind};
ghost use Rattle.gj_shape.specs.Limits.{IsRowNumber};
ghost use Rattle.gj_rule.specs.declared.kind.RuleKind.TheVariants.{Gmic};
ghost use Rattle.gj_mixed.specs.Slopes.{IsWeight, AreSlopesAtZero, AreGmicSlopes, IsSlope};

use gj_frac::Frac;
use gj_rule::quotient;
use gj_shape::Shape;

/// The slopes at 0 of a function that rises to both sides of 0. Each is at least 0.
#[derive(Clone, Copy, Debug, PartialEq, Eq)]
pub struct SlopesAtZero {
    /// The slope to the right of 0.
    pub up: Frac,
    /// The slope to the left of 0, its sign turned.
    pub down: Frac,
}

impl SlopesAtZero {
    /// Those of the mixed-integer cut for f: 1/f and 1/(1 - f).
    ///
    /// f is between 0 and 1, both excluded, and has a denominator of at most 2^31 - 1.
    pub fn of_gmic(f: Frac) -> SlopesAtZero
        requires { IsKind (Gmic f) }
        ensures slopes { AreGmicSlopes f result.up result.down }
        ensures up { IsSlope result.up }
        ensures down { IsSlope result.down }
    {
        let d = f.den();
        SlopesAtZero {
            up: quotient(1, 1, f.num(), d),
            down: quotient(1, 1, d - f.num(), d),
        }
    }

    /// Those of a minimal function with values V[i] at i/q: q (V[1] - V[0]) and q (V[q-1] - V[0]).
    /// For a continuous function these are the slope of its first interval, and that of its last
    /// with its sign turned.
    pub fn of_function(shape: &Shape) -> SlopesAtZero
        requires { IsMinimal shape.now }
        ensures slopes { AreSlopesAtZero shape.now result.up result.down }
        ensures up { IsSlope result.up }
        ensures down { IsSlope result.down }
    {
        let last = shape.order() - 1;
        SlopesAtZero {
            up: slope_to(shape, 1),
            down: slope_to(shape, last),
        }
    }

    /// The weight of a continuous column with the entry c: `up` times c if c is at least 0, and
    /// `down` times -c if it is below.
    ///
    /// The slopes are at least 0 with parts of at most 2^41; c is of denominator at most 2^31 - 1
    /// and at most 2^31 in absolute value.
    pub fn weight(self, c: Frac) -> Frac
        requires up { IsSlope self.up }
        requires down { IsSlope self.down }
        requires range { IsRowNumber c }
        ensures { IsWeight self.up self.down c result }
    {
        if c.num() < 0 {
            self.down * -c
        } else {
            self.up * c
        }
    }
}

/// The order q of a minimal function times what its value at i/q has above that at 0.
fn slope_to(shape: &Shape, i: u32) -> Frac
    requires minimal { IsMinimal shape.now }
    requires within { i < shape.now.order }
    ensures value { IsRatio result (pos shape.now.order *ℤ
        (at shape.now.value i -ℤ at shape.now.value 0)) (pos shape.now.scale) }
    ensures slope { IsSlope result }
{
    let scale = shape.common_denominator();
    quotient(i128::from(shape.order()), 1, scale, rise_to(shape, i))
}

/// What the value of a minimal function at i/q has above that at 0, times the common denominator.
fn rise_to(shape: &Shape, i: u32) -> i128
    requires minimal { IsMinimal shape.now }
    requires within { i < shape.now.order }
    requires limits { IsWithinBounds shape.now }
    ensures value { result ≡ at shape.now.value i -ℤ at shape.now.value 0 }
    ensures low { pos 0 ≤ℤ result }
    ensures high { result ≤ℤ pos shape.now.scale }
{
    shape.value_num(i) - shape.value_num(0)
}
