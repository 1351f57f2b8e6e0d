//! Where rows come from.
ghost use Rattle.std.specs.Prelude.{ℤ, ◌≡◌, List};
ghost use Rattle.gj_residue.specs.Source.{Gives};

use std::alloc::{AllocError, Global};

/// Rows that are given one after another, and can be given again.
pub trait RowSource {
    /// All rows. No call changes them.
    ghost all: { Self → List (List ℤ) };

    /// The rows still to come: those of all that are not given since they began again.
    ghost left: { Self → List (List ℤ) };

    /// The next row; None exactly if none is left. After an error the same rows are left.
    fn next(&mut self, alloc: Global) -> Result<Option<Vec<i128>>, AllocError>
        ensures told { Gives (left self.old) (left self.new) result }
        ensures same { all self.new ≡ all self.old };

    /// Begins again: all rows are to come.
    fn restart(&mut self)
        ensures left { left self.new ≡ all self.old }
        ensures same { all self.new ≡ all self.old };
}
