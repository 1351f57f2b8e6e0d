//! Two sets made one.
use crate::index_set::IndexSet;
use std::simd::prelude::*;

impl IndexSet {
    ghost use Rattle.std.specs.Prelude.{ℕ, ◌≡◌, not, ◌&&◌, ◌||◌};
    ghost use Rattle.gj_loops.specs.IndexSets.{has};

    /// The indices that are in both sets.
    pub fn and(&self, other: &IndexSet) -> IndexSet
        ensures { (i : ℕ) → has result i ≡ (has self.now i && has other.now i) }
    {
        let words = u64x16::from_array(self.words) & u64x16::from_array(other.words);
        IndexSet {
            words: words.to_array(),
        }
    }

    /// The indices that are in one of the sets or in both.
    pub fn or(&self, other: &IndexSet) -> IndexSet
        ensures { (i : ℕ) → has result i ≡ (has self.now i || has other.now i) }
    {
        let words = u64x16::from_array(self.words) | u64x16::from_array(other.words);
        IndexSet {
            words: words.to_array(),
        }
    }

    /// The indices that are in this set and not in the other.
    pub fn and_not(&self, other: &IndexSet) -> IndexSet
        ensures { (i : ℕ) → has result i ≡ (has self.now i && not (has other.now i)) }
    {
        let words = u64x16::from_array(self.words);
        let kept = words & (u64x16::from_array(self.words) ^ u64x16::from_array(other.words));
        IndexSet {
            words: kept.to_array(),
        }
    }
}
