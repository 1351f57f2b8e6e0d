//! Indices, each once.
ghost use Rattle.std.specs.Prelude.{◌≡◌, ◌++◌, ◌∷◌, [], false, true, Contains, IfOk};

use indexmap::IndexSet;
use std::alloc::{AllocError, Global};
use std::marker::Model;

/// The indices so far, each once. Contracts see them as their list.
#[derive(Drop)]
pub(crate) struct Indices {
    indices: IndexSet<usize>,
}

impl Model for Indices {
    ghost use Rattle.std.specs.Prelude.{List, ℕ};

    ghost Value = { List ℕ };

    ghost view = { λ i. i.indices.keys };
}

impl Indices {
    /// No index.
    pub(crate) fn none(alloc: Global) -> Indices
        ensures { result ≡ [] }
    {
        Indices {
            indices: IndexSet::new(alloc),
        }
    }

    /// Puts the index behind the others if it is new, and says whether it is.
    pub(crate) fn insert(&mut self, index: usize) -> Result<bool, AllocError>
        ensures new { IfOk result (λ is_new. is_new ≡ true →
            (Contains self.old index → ⊥) × (self.new ≡ self.old ++ index ∷ [])) }
        ensures known { IfOk result (λ is_new. is_new ≡ false → Contains self.old index) }
    {
        let is_new = self.indices.insert(index)?;
        Ok(is_new)
    }
}
