//! The value of a function at a fraction.
ghost use Rattle.std.specs.Prelude.{◌≡◌, ◌<◌, ◌≤◌, ◌+◌, ◌*◌, ◌^◌, ℕ, ◌≢◌, pos, ◌*ℤ◌, ◌+ℤ◌, length};
ghost use Rattle.std.specs.Prelude.{unsigned_abs, ◌%◌, ◌-◌, IfSome};
ghost use Rattle.gj_frac.specs.Fraction.{IsRatio, numerator, denominator};
ghost use Rattle.gj_shape.specs.Limits.{IsSmallNumber};
ghost use Rattle.gj_shape.specs.Refinement.{entry_or_value};
ghost use Rattle.gj_shape.specs.Table.{table};
ghost use Rattle.gj_shape.specs.Values.{IsCongruent, IsValueAt};
ghost use Rattle.gj_shape.specs.Violation.{IsPoint, value_of};

use crate::shape::Shape;
use gj_frac::Frac;

impl Shape {
    /// The value of the function at z/q, for the order q.
    ///
    /// z has a denominator of at most 2^62. It may be negative and of any size, since the function
    /// has period 1. If a point x of a violation has a denominator of at most 2^62, so have q x and
    /// k - q x.
    pub fn value_scaled(&self, z: Frac) -> Frac
        requires { unsigned_abs (denominator z) ≤ 2 ^ 62 }
        ensures { IsValueAt self.now (numerator z) (unsigned_abs (denominator z)) result }
    {
        self.value_on_grid(z.num(), z.den() as u64)
    }

    /// The value of the function at x.
    ///
    /// x has a denominator of at most 2^62 and is at most 2^31 in absolute value. Each point of a
    /// violation that `find_violation` answers or that passes the rule `point` is so: it is from 0
    /// up to, not including, 1 and has a denominator of at most 2^62.
    // A loop over the entries of a row calls it for each.
    #[inline(always)]
    pub fn value_at(&self, x: Frac) -> Frac
        requires fine { unsigned_abs (denominator x) ≤ 2 ^ 62 }
        requires size { IsSmallNumber x }
        ensures value { IsValueAt self.now (numerator x *ℤ pos self.now.order)
            (unsigned_abs (denominator x)) result }
        ensures not_negative { (n d : ℕ) → IsPoint x n d →
            IsRatio result (value_of self.now n d) (pos (self.now.scale * d)) }
    {
        if let Some((numerator, denominator)) = self.small_value_at(x) {
            // Both answers are named, so that the compiler keeps them out of memory.
            let small = Frac::of_small(numerator, denominator);
            return small;
        }
        let value = self.value_on_grid(x.num() * i128::from(self.order()), x.den() as u64);
        value
    }

    /// The value of the function at x, as a quotient of two numbers below 2^64.
    ///
    /// None if the denominator of x needs more than 32 bits, its numerator more than 64, or if a
    /// numerator of the function beside x is negative or needs more than 32.
    #[inline(always)]
    fn small_value_at(&self, x: Frac) -> Option<(u64, u64)>
        ensures some { IfSome result (λ r. 0 < r.1) }
        ensures value { IfSome result (λ r. (v : Frac) → IsRatio v (pos r.0) (pos r.1) →
            IsValueAt self.now (numerator x *ℤ pos self.now.order)
            (unsigned_abs (denominator x)) v) }
    {
        let (Ok(num), Ok(den)) = (i64::try_from(x.num()), u32::try_from(x.den())) else {
            return None;
        };
        let (index, remainder) = small_place(num, self.order(), den);
        let numerator = self.small_between(index, remainder, den)?;
        Some((numerator, self.common_denominator() as u64 * u64::from(den)))
    }

    /// `steps` times the value at index/q + remainder/(q steps), for the order q. None if a
    /// numerator beside that place is negative or needs more than 32 bits.
    #[inline(always)]
    fn small_between(&self, index: usize, remainder: u64, steps: u32) -> Option<u64>
        requires index { index < self.now.order }
        requires remainder { remainder < steps }
        ensures { IfSome result (λ n. pos n ≡
            entry_or_value self.now self.now.value steps index remainder) }
    {
        let (start, end) = self.beside(index, remainder);
        if start < 0 || start >= 1 << 32 || end < 0 || end >= 1 << 32 {
            return None;
        }
        let weight = u64::from(steps) - remainder;
        Some(weight * start as u64 + remainder * end as u64)
    }

    /// The numbers between which the value at a place behind index/q lies, for the order q: the
    /// limits around the place, or the value there twice if nothing remains.
    fn beside(&self, index: usize, remainder: u64) -> (i64, i64)
        requires index { index < self.now.order }
        ensures { (m : ℕ) → remainder < m →
            entry_or_value self.now self.now.value m index remainder ≡
            pos (m - remainder) *ℤ result.0 +ℤ pos remainder *ℤ result.1 }
    {
        if remainder == 0 {
            let value = self.value_numerators()[index];
            return (value, value);
        }
        let next = place_behind(index, self.order());
        (self.right_numerators()[index], self.left_numerators()[next])
    }

    /// The value at n/(q steps), for the order q.
    #[inline(never)]
    fn value_on_grid(&self, n: i128, steps: u64) -> Frac
        requires some { 0 < steps }
        requires few { steps ≤ 2 ^ 62 }
        ensures { IsValueAt self.now n steps result }
    {
        let (index, remainder) = place_within(n, self.order(), steps);
        let numerator = self.entry_or_value(self.value_numerators(), index, remainder, steps);
        Frac::reduced(numerator, self.common_denominator() * i128::from(steps))
    }

    /// `steps` times what stands at index/q + remainder/(q steps), for the order q: the entry of
    /// the list if the remainder is 0, and else the value between the limits.
    pub(crate) fn entry_or_value(
        &self,
        entries: &[i64],
        index: usize,
        remainder: u64,
        steps: u64,
    ) -> i128
        requires length { length entries.now ≡ self.now.order }
        requires index { index < self.now.order }
        requires remainder { remainder < steps }
        requires few { steps ≤ 2 ^ 62 }
        ensures value { result ≡ entry_or_value self.now entries.now steps index remainder }
        ensures fits { unsigned_abs result < 2 ^ 127 }
    {
        if remainder == 0 {
            return weighted(steps, entries[index]);
        }
        let next = place_behind(index, self.order());
        let start = self.right_numerators()[index];
        let end = self.left_numerators()[next];
        weighted(steps - remainder, start) + weighted(remainder, end)
    }
}

/// The index of the place behind this one, for the order q: 0 behind q - 1.
fn place_behind(index: usize, order: u32) -> usize
    requires { index < order }
    ensures { result ≡ (index + 1) % order }
{
    if index + 1 == order as usize {
        return 0;
    }
    index + 1
}

/// The index i below q and the remainder r below `den` for which num/den differs from
/// i/q + r/(q den) by a whole number, for the order q.
#[inline(always)]
fn small_place(num: i64, order: u32, den: u32) -> (usize, u64)
    requires den { 0 < den }
    ensures index { 0 < order → result.0 < order }
    ensures remainder { result.1 < den }
    ensures congruent { IsCongruent (num *ℤ pos order)
        (pos (result.0 * den + result.1)) (order * den) }
{
    let steps = u64::from(den);
    let place = num.rem_euclid(i64::from(den)) as u64 * u64::from(order);
    ((place / steps) as usize, place % steps)
}

/// The index i below q and the remainder r below `steps` for which n/(q steps) differs from
/// i/q + r/(q steps) by a whole number, for the order q.
fn place_within(n: i128, order: u32, steps: u64) -> (usize, u64)
    requires order { 0 < order }
    requires steps { 0 < steps }
    ensures index { result.0 < order }
    ensures remainder { result.1 < steps }
    ensures congruent { IsCongruent n (pos (result.0 * steps + result.1)) (order * steps) }
{
    let period = u128::from(order) * u128::from(steps);
    if let (Ok(n), Ok(period)) = (i64::try_from(n), i64::try_from(period)) {
        let place = n.rem_euclid(period) as u64;
        return ((place / steps) as usize, place % steps);
    }
    place_in_128_bits(n, order, steps)
}

/// The same, whatever the sizes of n and of q `steps`.
#[inline(never)]
fn place_in_128_bits(n: i128, order: u32, steps: u64) -> (usize, u64)
    requires order { 0 < order }
    requires steps { 0 < steps }
    ensures index { result.0 < order }
    ensures remainder { result.1 < steps }
    ensures congruent { IsCongruent n (pos (result.0 * steps + result.1)) (order * steps) }
{
    let period = u128::from(order) * u128::from(steps);
    let place = n.rem_euclid(period as i128) as u128;
    let steps = u128::from(steps);
    ((place / steps) as usize, (place % steps) as u64)
}

/// A weight of at most 2^62 times an entry.
pub(crate) fn weighted(weight: u64, entry: i64) -> i128
    requires { weight ≤ 2 ^ 62 }
    ensures value { result ≡ pos weight *ℤ entry }
    ensures fits { unsigned_abs result ≤ 2 ^ 125 }
{
    i128::from(weight) * i128::from(entry)
}
