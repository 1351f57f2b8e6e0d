//! Pairs of places at which a table is additive.
ghost use Rattle.std.specs.Prelude.{◌≡◌, ◌+◌, ◌<◌, ◌≤◌, ◌^◌, ◌∷◌, [], length, MatchOption};
ghost use Rattle.gj_shape.specs.Limits.{greatest_order};
ghost use Rattle.gj_shape.specs.FunctionData.{at};
ghost use Rattle.gj_group.specs.GroupRows.{is_tight_pair};
ghost use Rattle.gj_group.specs.RowsToCome.{tight_in_row, IsNextPair};

/// The first tight pair (a, b) from the pair (`a`, `from`) on: a ascending, inside it b from a on.
pub(crate) fn next_pair(values: &[i64], a: usize, from: usize) -> Option<(usize, usize)>
    requires some { 1 ≤ a }
    requires ordered { a ≤ from }
    requires first { a ≤ length values.now }
    requires second { from ≤ length values.now }
    requires few { length values.now ≤ greatest_order }
    ensures { IsNextPair (at values.now) (length values.now) a from result }
{
    if let Some(b) = tight_from(values, a, from) {
        return Some((a, b));
    }
    for row in a + 1..values.len() {
        if let Some(b) = tight_from(values, row, row) {
            return Some((row, b));
        }
    }
    None
}

/// The first b from `from` on with (`a`, b) tight.
fn tight_from(values: &[i64], a: usize, from: usize) -> Option<usize>
    requires first { a ≤ from }
    requires second { from ≤ length values.now }
    requires few { length values.now ≤ greatest_order }
    ensures { MatchOption result (tight_in_row (at values.now) (length values.now) a from ≡ [])
        (λ b. (from ≤ b) × (b < length values.now) ×
        (tight_in_row (at values.now) (length values.now) a from
        ≡ b ∷ tight_in_row (at values.now) (length values.now) a (b + 1))) }
{
    for b in from..values.len() {
        if is_tight(values, a, b) {
            return Some(b);
        }
    }
    None
}

/// Whether the table is additive at the pair.
fn is_tight(values: &[i64], a: usize, b: usize) -> bool
    requires ordered { a ≤ b }
    requires below { b < length values.now }
    requires few { length values.now ≤ greatest_order }
    ensures { result ≡ is_tight_pair (at values.now) a b }
{
    let sum = i128::from(values[a]) + i128::from(values[b]);
    sum == i128::from(values[(a + b) % values.len()])
}
