//! Lanes from 0 on, whose sums are compared.
ghost use Rattle.std.specs.Prelude.{ℕ, ℤ, pos, min, max, ◌≡◌, ◌↔◌, ◌+◌, ◌-◌, ◌<◌, IsTrue, refl};

use crate::lane::Lane;

/// A number from 0 on in a lane of some width.
pub trait UnsignedLane: Lane {
    // The number.
    ghost natural: { Self → ℕ };

    /// The sum of both.
    fn plus(self, other: Self) -> Self
        requires first { natural self < Self.bound }
        requires second { natural other < Self.bound }
        ensures { natural result ≡ natural self + natural other };

    /// The lesser of both.
    fn lesser(self, other: Self) -> Self
        ensures { natural result ≡ min (natural self) (natural other) };

    /// The greater of both.
    fn greater(self, other: Self) -> Self
        ensures { natural result ≡ max (natural self) (natural other) };

    /// By how much this is above the other, and 0 if it is not.
    fn excess_over(self, other: Self) -> Self
        ensures { natural result ≡ natural self - natural other };

    /// Whether this is 0.
    fn is_zero(self) -> bool
        ensures { IsTrue result ↔ (natural self ≡ 0) };

    // No lane is negative.
    ghost from_zero: { Self.least ≡ pos 0 };

    ghost is_natural: { (x : Self) → Self.number x ≡ pos (natural x) };
}

impl UnsignedLane for u16 {
    ghost natural = { λ n. n };

    ghost from_zero = { refl };

    ghost is_natural = { λ x. refl };

    fn plus(self, other: u16) -> u16 {
        self + other
    }

    fn lesser(self, other: u16) -> u16 {
        self.min(other)
    }

    fn greater(self, other: u16) -> u16 {
        self.max(other)
    }

    fn excess_over(self, other: u16) -> u16 {
        self.saturating_sub(other)
    }

    fn is_zero(self) -> bool {
        self == 0
    }
}

impl UnsignedLane for u32 {
    ghost natural = { λ n. n };

    ghost from_zero = { refl };

    ghost is_natural = { λ x. refl };

    fn plus(self, other: u32) -> u32 {
        self + other
    }

    fn lesser(self, other: u32) -> u32 {
        self.min(other)
    }

    fn greater(self, other: u32) -> u32 {
        self.max(other)
    }

    fn excess_over(self, other: u32) -> u32 {
        self.saturating_sub(other)
    }

    fn is_zero(self) -> bool {
        self == 0
    }
}
