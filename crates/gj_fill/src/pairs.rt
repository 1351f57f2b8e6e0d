//! The first two places at which a function is not subadditive.
ghost use Rattle.std.specs.Prelude.{ℕ, ◌≡◌, ◌<◌, ◌≤◌, ◌+◌, ◌*◌, ◌+ℤ◌, ◌<ℤ◌, All, length, IfSome};
ghost use Rattle.std.specs.Prelude.{IfNone, IsTrue};
ghost use Rattle.gj_shape.specs.FirstViolation.{IsLeastFrom};
ghost use Rattle.gj_shape.specs.FunctionData.{at};
ghost use Rattle.gj_shape.specs.Limits.{IsNumerator};
ghost use Rattle.gj_fill.specs.FillIn.{IsSubadditiveTable};
ghost use Rattle.gj_fill.specs.FirstPair.{IsSuperadditivePair, IsFirstPair};

use gj_shape::Shape;

/// The first a and b, a ascending, inside it b, for which the values at a/q and b/q add up to less
/// than that at (a + b)/q.
pub(crate) fn first_pair(shape: &Shape) -> Option<(u32, u32)>
    ensures found { IfSome result (λ p. IsFirstPair shape.now p.0 p.1) }
    ensures none { IfNone result (IsSubadditiveTable (at shape.now.value)) }
{
    for a in 0..shape.order() {
        if let Some(b) = first_behind(shape, a) {
            return Some((a, b));
        }
    }
    None
}

/// The least b from a on for which the values at a/q and b/q add up to less than that at (a + b)/q.
/// Pairs with a lesser b are those of an earlier row.
fn first_behind(shape: &Shape, a: u32) -> Option<u32>
    requires { a < shape.now.order }
    ensures found { IfSome result (IsLeastFrom a (IsSuperadditivePair shape.now a)) }
    ensures below { IfSome result (λ b. b < shape.now.order) }
    ensures none { IfNone result ((b : ℕ) → a ≤ b → b < shape.now.order →
        IsSuperadditivePair shape.now a b → ⊥) }
{
    if is_subadditive_from(shape.value_numerators(), a as usize) {
        return None;
    }
    let first = shape.value_numerator(a);
    for b in a..shape.order() {
        if first + shape.value_numerator(b) < shape.value_numerator(a + b) {
            return Some(b);
        }
    }
    None
}

/// Whether the values at a/q and b/q add up to no less than that at (a + b)/q, for each b from a to
/// below q.
fn is_subadditive_from(values: &[i64], a: usize) -> bool
    requires small { All IsNumerator values.now }
    requires within { a < length values.now }
    ensures { IsTrue result → (b : ℕ) → a ≤ b → b < length values.now →
        (at values.now a +ℤ at values.now b) <ℤ at values.now (a + b) → ⊥ }
{
    let turn = values.len() - a;
    if !passes_up_to(values, a, turn) {
        return false;
    }
    passes_from(values, a, a.max(turn))
}

/// The same for each b from a to below `end`, up to which a + b is below q. The loop has no early
/// end, so that the processor tests several at once.
fn passes_up_to(values: &[i64], a: usize, end: usize) -> bool
    requires small { All IsNumerator values.now }
    requires within { a < length values.now }
    requires end { a + end ≤ length values.now }
    ensures { IsTrue result → (b : ℕ) → a ≤ b → b < end →
        (at values.now a +ℤ at values.now b) <ℤ at values.now (a + b) → ⊥ }
{
    let first = value_below(values, a);
    let mut passes = true;
    for b in a..end {
        if first + value_below(values, b) < value_below(values, a + b) {
            passes = false;
        }
    }
    passes
}

/// The same for each b from `start` to below q, from which on a + b is at least q. The loop has no
/// early end either.
fn passes_from(values: &[i64], a: usize, start: usize) -> bool
    requires small { All IsNumerator values.now }
    requires within { a < length values.now }
    requires start { length values.now ≤ a + start }
    ensures { IsTrue result → (b : ℕ) → start ≤ b → b < length values.now →
        (at values.now a +ℤ at values.now b) <ℤ at values.now (a + b) → ⊥ }
{
    let first = value_below(values, a);
    let mut passes = true;
    for b in start..values.len() {
        if first + value_below(values, b) < value_above(values, a + b) {
            passes = false;
        }
    }
    passes
}

/// The value at i/q, for i below the number of values.
fn value_below(values: &[i64], i: usize) -> i64
    requires small { All IsNumerator values.now }
    requires within { i < length values.now }
    ensures value { result ≡ at values.now i }
    ensures small { IsNumerator result }
{
    values[i]
}

/// The value at i/q, for i from the number of values to below twice that.
fn value_above(values: &[i64], i: usize) -> i64
    requires small { All IsNumerator values.now }
    requires turned { length values.now ≤ i }
    requires within { i < 2 * length values.now }
    ensures value { result ≡ at values.now i }
    ensures small { IsNumerator result }
{
    value_below(values, i - values.len())
}
