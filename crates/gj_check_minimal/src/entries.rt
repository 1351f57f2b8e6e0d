//! Numbers of four widths, in which the values of a table are kept: the fewer bits, the faster the
//! tests.
ghost use Rattle.std.specs.Prelude.{ℕ, ℤ, pos, ◌≡◌, ◌↔◌, ◌^◌, ◌+ℤ◌, ◌-ℤ◌, ◌<ℤ◌, ◌≤ℤ◌, IsTrue};
ghost use Rattle.std.specs.Int.{int_max};

/// A number of some width, as an entry of a table.
pub(crate) trait Entry: Copy {
    // The number.
    ghost number: { Self → ℤ };

    // Each number from 0 on and below it is an entry.
    ghost bound: { ℕ };

    /// The entry that is this number.
    fn of(value: i128) -> Self
        requires low { pos 0 ≤ℤ value }
        requires high { value <ℤ pos bound }
        ensures { number result ≡ value };

    /// The greater of this and of the rise from one entry to another.
    fn max_rise(self, from: Self, to: Self) -> Self
        requires from { pos 0 ≤ℤ number from }
        requires to { pos 0 ≤ℤ number to }
        ensures { number result ≡ int_max (number self) (number to -ℤ number from) };

    /// Whether this is no greater than the other.
    fn is_at_most(self, other: Self) -> bool
        ensures { IsTrue result ↔ (number self ≤ℤ number other) };

    /// Whether this is halfway from the one before to the next.
    fn is_middle_of(self, before: Self, next: Self) -> bool
        requires before { pos 0 ≤ℤ number before }
        requires here { pos 0 ≤ℤ number self }
        requires next { pos 0 ≤ℤ number next }
        ensures { IsTrue result
            ↔ (number before +ℤ number next ≡ number self +ℤ number self) };
}

impl Entry for i16 {
    ghost number = { λ n. n };

    ghost bound = { 2 ^ 15 };

    fn of(value: i128) -> i16 {
        value as i16
    }

    fn max_rise(self, from: i16, to: i16) -> i16 {
        self.max(to - from)
    }

    fn is_at_most(self, other: i16) -> bool {
        self <= other
    }

    fn is_middle_of(self, before: i16, next: i16) -> bool {
        self - before == next - self
    }
}

impl Entry for i32 {
    ghost number = { λ n. n };

    ghost bound = { 2 ^ 31 };

    fn of(value: i128) -> i32 {
        value as i32
    }

    fn max_rise(self, from: i32, to: i32) -> i32 {
        self.max(to - from)
    }

    fn is_at_most(self, other: i32) -> bool {
        self <= other
    }

    fn is_middle_of(self, before: i32, next: i32) -> bool {
        self - before == next - self
    }
}

impl Entry for i64 {
    ghost number = { λ n. n };

    ghost bound = { 2 ^ 63 };

    fn of(value: i128) -> i64 {
        value as i64
    }

    fn max_rise(self, from: i64, to: i64) -> i64 {
        self.max(to - from)
    }

    fn is_at_most(self, other: i64) -> bool {
        self <= other
    }

    fn is_middle_of(self, before: i64, next: i64) -> bool {
        self - before == next - self
    }
}

impl Entry for i128 {
    ghost number = { λ n. n };

    ghost bound = { 2 ^ 127 };

    fn of(value: i128) -> i128 {
        value
    }

    fn max_rise(self, from: i128, to: i128) -> i128 {
        self.max(to - from)
    }

    fn is_at_most(self, other: i128) -> bool {
        self <= other
    }

    fn is_middle_of(self, before: i128, next: i128) -> bool {
        self - before == next - self
    }
}
