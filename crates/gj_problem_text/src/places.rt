//! The names of columns, and where they stand.
ghost use Rattle.std.specs.Prelude.{◌≡◌, ◌++◌, ◌∷◌, [], None, OnOk, nat_eq};
ghost use Rattle.std.specs.Cmp.Lexicographic.{pointwise};
ghost use Rattle.std.specs.List.{position};

use indexmap::IndexSet;
use std::alloc::{AllocError, Global};
use std::marker::Model;

/// The names of the columns so far, each once. Contracts see them as their list.
#[derive(Drop)]
pub struct Places<'a> {
    names: IndexSet<&'a [u8]>,
}

impl<'a> Model for Places<'a> {
    ghost use Rattle.std.specs.Prelude.{List, ℕ, map};

    ghost Value = { List (List ℕ) };

    ghost view = { λ places. map (λ name. name.now) places.names.keys };
}

impl<'a> Places<'a> {
    /// No name.
    pub fn none(alloc: Global) -> Places<'a>
        ensures { result ≡ [] }
    {
        Places {
            names: IndexSet::new(alloc),
        }
    }

    /// The index of the name, if it is one of them.
    pub fn place_of(&self, name: &[u8]) -> Option<usize>
        ensures { result ≡ position (pointwise nat_eq name.now) self.now }
    {
        self.names.get_index_of(name)
    }

    /// Puts a new name behind the others. Want of memory is the only error.
    pub fn push(&mut self, name: &'a [u8]) -> Result<(), AllocError>
        requires { position (pointwise nat_eq name.now) self.old ≡ None }
        ensures { OnOk result (self.new ≡ self.old ++ name.now ∷ []) }
    {
        self.names.insert(name)?;
        Ok(())
    }
}
