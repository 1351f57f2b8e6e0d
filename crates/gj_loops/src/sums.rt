//! The places at which values add up.
use crate::index_set::IndexSet;
use crate::signed::SignedLane;

impl IndexSet {
    ghost use Rattle.std.specs.Prelude.{ℕ, ◌≡◌, ◌↔◌, ◌+◌, ◌+ℤ◌, ◌<◌, ◌≤◌, length, IsTrue};
    ghost use Rattle.std.specs.Prelude.{slice_index_or};
    ghost use Rattle.gj_loops.specs.Lanes.{IsInRange, AreLanesInRange};
    ghost use Rattle.gj_loops.specs.IndexSets.{has};

    /// The places b below n at which the value at b and the first number add up to the sum at b.
    ///
    /// The slices go on for 64 lanes behind the last place, whatever these are.
    pub fn of_sums<L: SignedLane>(values: &[L], first: L, sums: &[L], n: usize) -> IndexSet
        requires places { n ≤ 1_024 }
        requires values { n + 64 ≤ length values.now }
        requires sums { n + 64 ≤ length sums.now }
        requires values_in_range { AreLanesInRange L.number L.least L.bound values.now n }
        requires first_in_range { IsInRange L.least L.bound (L.number first) }
        requires sums_in_range { AreLanesInRange L.number L.least L.bound sums.now n }
        ensures { (b : ℕ) (e : L) → IsTrue (has result b) ↔ (b < n)
            × (L.number (slice_index_or values.now b e) +ℤ L.number first ≡ L.number
            (slice_index_or sums.now b e)) }
    {
        let mut set = IndexSet::empty();
        for place in 0..n.div_ceil(64) {
            set.words[place] = L::sums_word(values, first, sums, place);
        }
        set.and(&IndexSet::below(n))
    }
}
