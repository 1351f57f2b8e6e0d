//! Sets of indices.
/// The indices of a set are below it.
pub const LIMIT: usize = 1_024;

/// How many words a set has.
pub(crate) const WORDS: usize = 16;

/// A set of indices below 1,024.
#[derive(Clone, Copy, Drop)]
pub struct IndexSet {
    /// Index i is bit i % 64 of word i / 64.
    pub(crate) words: [u64; WORDS],
}

impl IndexSet {
    ghost use Rattle.std.specs.Prelude.{ℕ, ◌≡◌, ◌<◌, ◌≤◌, false, not, ◌&&◌, ◌||◌, ◌==◌, nat_lt};
    ghost use Rattle.std.specs.Prelude.{nat_le, if◌then◌else◌};
    ghost use Rattle.gj_loops.specs.IndexSets.{has};

    /// The set without an index.
    pub fn empty() -> IndexSet
        ensures { (i : ℕ) → has result i ≡ false }
    {
        IndexSet { words: [0; WORDS] }
    }

    /// The indices below n.
    pub fn below(n: usize) -> IndexSet
        requires { n ≤ LIMIT }
        ensures { (i : ℕ) → has result i ≡ nat_lt i n }
    {
        let all = IndexSet {
            words: [u64::MAX; WORDS],
        };
        all.down(LIMIT - n)
    }

    /// The indices from `from` on that are below `end`.
    pub fn between(from: usize, end: usize) -> IndexSet
        requires start { from ≤ LIMIT }
        requires within { end ≤ LIMIT }
        ensures { (i : ℕ) → has result i ≡ (nat_le from i && nat_lt i end) }
    {
        IndexSet::below(end).and_not(&IndexSet::below(from))
    }

    /// Whether the index is in the set.
    pub fn contains(&self, i: usize) -> bool
        requires { i < LIMIT }
        ensures { result ≡ has self.now i }
    {
        (self.words[i / 64] >> (i % 64)) & 1 == 1
    }

    /// Puts the index into the set.
    pub fn insert(&mut self, i: usize)
        requires { i < LIMIT }
        ensures { (j : ℕ) → has self.new j ≡ (has self.old j || j == i) }
    {
        let place = i / 64;
        self.words[place] = self.words[place] | 1 << (i % 64);
    }

    /// Takes the index out of the set.
    pub fn remove(&mut self, i: usize)
        requires { i < LIMIT }
        ensures { (j : ℕ) → has self.new j ≡ (has self.old j && not (j == i)) }
    {
        let place = i / 64;
        self.words[place] = self.words[place] & !(1 << (i % 64));
    }

    /// Puts the index into the set or takes it out, as is wanted.
    pub fn put(&mut self, i: usize, wanted: bool)
        requires { i < LIMIT }
        ensures { (j : ℕ) → has self.new j ≡ (if j == i then wanted else has self.old j) }
    {
        if wanted {
            self.insert(i);
        } else {
            self.remove(i);
        }
    }
}
