//! Tables with few bends: the pairs of bends decide.
//!
//! A value bends where it does not lie on a line with its two neighbours. Between bends the slacks
//! of the pairs in a row lie on lines, so the least of them is at a bend. Many tables have few
//! bends, such as the values of a function at a grid that is finer than its own.
ghost use Rattle.std.specs.Prelude.{List, ℤ, ◌≡◌, ◌↔◌, ◌+◌, ◌-◌, ◌<◌, ◌≤◌, IsTrue, IfSome, length};
ghost use Rattle.gj_shape.specs.Limits.{greatest_halves_order};
ghost use Rattle.gj_check_minimal.specs.Tables.{HaveTwoPeriods, AreTwoPeriods, IsSubadditivePair};
ghost use Rattle.gj_check_minimal.specs.Bends.{AreIndices, AreBends, PassesAtBends, PassAtBends};

use crate::entries::Entry;

/// The most bends that are looked at.
const MOST_BENDS: usize = 64;

/// Of at least so many indices at most one bends.
const SPREAD: usize = 16;

/// The indices at which the values of a table bend, and 0.
#[derive(Drop)]
pub(crate) struct Bends {
    /// The indices, and then any numbers.
    pub(crate) indices: [usize; MOST_BENDS],
    /// How many indices there are.
    pub(crate) count: usize,
}

/// The bends of the table, by the entries of two periods of so many values; none if there are so
/// many that all pairs are tested faster.
pub(crate) fn few_bends<E: Entry>(entries: &[E], count: usize) -> Option<Bends>
    requires periods { HaveTwoPeriods E.number entries.now count }
    requires few { count ≤ greatest_halves_order }
    ensures indices { IfSome result (AreIndices count) }
    ensures bends { IfSome result (λ bends. (values : List ℤ) → length values ≡ count →
        AreTwoPeriods E.number entries.now values → AreBends values bends) }
{
    let most = MOST_BENDS.min(count / SPREAD);
    if most == 0 {
        return None;
    }
    let mut bends = Bends {
        indices: [0; MOST_BENDS],
        count: 1,
    };
    for i in 0..count - 1 {
        if entries[i + 1].is_middle_of(entries[i], entries[i + 2]) {
            continue;
        }
        if bends.count == most {
            return None;
        }
        bends.indices[bends.count] = i + 1;
        bends.count += 1;
    }
    Some(bends)
}

/// Whether all pairs pass of which both indices are bends, or one and the sum modulo the count.
pub(crate) fn pass_at_bends<E: Entry>(entries: &[E], count: usize, bends: &Bends) -> bool
    requires periods { HaveTwoPeriods E.number entries.now count }
    requires few { count ≤ greatest_halves_order }
    requires indices { AreIndices count bends.now }
    ensures { (values : List ℤ) → length values ≡ count → AreTwoPeriods E.number entries.now values
        → IsTrue result ↔ PassAtBends values bends.now }
{
    for p in 0..bends.count {
        if !passes_at_bends(entries, count, bends, bends.indices[p]) {
            return false;
        }
    }
    true
}

/// The same for one of the bends.
fn passes_at_bends<E: Entry>(entries: &[E], count: usize, bends: &Bends, i: usize) -> bool
    requires periods { HaveTwoPeriods E.number entries.now count }
    requires few { count ≤ greatest_halves_order }
    requires indices { AreIndices count bends.now }
    requires within { i < count }
    ensures { (values : List ℤ) → length values ≡ count → AreTwoPeriods E.number entries.now values
        → IsTrue result ↔ PassesAtBends values bends.now i }
{
    for p in 0..bends.count {
        if !passes_with(entries, count, i, bends.indices[p]) {
            return false;
        }
    }
    true
}

/// Whether the pair of i and j passes, and that of i and the index that makes j modulo the count.
fn passes_with<E: Entry>(entries: &[E], count: usize, i: usize, j: usize) -> bool
    requires periods { HaveTwoPeriods E.number entries.now count }
    requires few { count ≤ greatest_halves_order }
    requires first { i < count }
    requires second { j < count }
    ensures { (values : List ℤ) → length values ≡ count → AreTwoPeriods E.number entries.now values
        → IsTrue result ↔ (IsSubadditivePair values i j
        × IsSubadditivePair values i (length values + j - i)) }
{
    let first = entries[i];
    let second = entries[j];
    let sum = entries[i + j];
    if !first.max_rise(second, sum).is_at_most(first) {
        return false;
    }
    let rest = entries[count + j - i];
    first.max_rise(rest, second).is_at_most(first)
}
