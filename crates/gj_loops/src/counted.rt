//! The least index of a set, and how many it has.
use crate::index_set::{IndexSet, LIMIT, WORDS};

impl IndexSet {
    ghost use Rattle.std.specs.Prelude.{ℕ, ◌≡◌, ◌≤◌, ◌↔◌, false, IsTrue, MatchOption};
    ghost use Rattle.gj_loops.specs.IndexSets.{has, IsFirst, count_below};

    /// The least index in the set.
    pub fn first(&self) -> Option<usize>
        ensures { MatchOption result ((k : ℕ) → has self.now k ≡ false) (IsFirst self.now 0) }
    {
        self.first_from(0)
    }

    /// The least index in the set that is not below `from`.
    pub fn first_from(&self, from: usize) -> Option<usize>
        ensures { MatchOption result ((k : ℕ) → from ≤ k → has self.now k ≡ false)
            (IsFirst self.now from) }
    {
        if from >= LIMIT {
            return None;
        }
        let mut place = from / 64;
        let mut word = self.words[place] >> (from % 64) << (from % 64);
        while word == 0 {
            place += 1;
            if place == WORDS {
                return None;
            }
            word = self.words[place];
        }
        Some(64 * place + word.trailing_zeros() as usize)
    }

    /// How many indices are in the set.
    pub fn count(&self) -> usize
        ensures { result ≡ count_below (has self.now) LIMIT }
    {
        let mut count = 0;
        for word in self.words {
            count += word.count_ones() as usize;
        }
        count
    }

    /// Whether no index is in the set.
    pub fn is_empty(&self) -> bool
        ensures { IsTrue result ↔ ((i : ℕ) → has self.now i ≡ false) }
    {
        self.first().is_none()
    }
}
