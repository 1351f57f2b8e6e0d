//! Lists of fractions of which most are 0.
ghost use Rattle.std.specs.Prelude.{◌≡◌, ◌↔◌, ◌++◌, ◌∷◌, [], IfOk, OnOk, IsTrue, length};
ghost use Rattle.gj_problem.specs.Sparse.{no_fraction, AreRunsOf};

use gj_frac::Frac;
use std::alloc::{AllocError, Global};
use std::marker::Model;

/// A fraction of a list that is not 0, and how many zeros stand right before it.
#[derive(Clone, Copy)]
pub struct Run {
    /// How many zeros stand before it, behind the last that is not 0.
    pub zeros: usize,
    /// The fraction.
    pub value: Frac,
}

/// A list of fractions. Only those that are not 0 are kept, each with the number of zeros before
/// it. Contracts see the whole list.
#[derive(Drop)]
pub struct Sparse {
    kept: Vec<Run>,
    behind: usize,
}

impl Model for Sparse {
    ghost use Rattle.std.specs.Prelude.{List};
    ghost use Rattle.gj_frac.specs.declared.Frac.{Frac};
    ghost use Rattle.gj_problem.specs.Sparse.{spread};

    ghost Value = { List Frac };

    ghost view = { λ s. spread s.kept.items s.behind };
}

impl Sparse {
    /// The list with no fraction. It takes no memory.
    pub fn new(alloc: Global) -> Sparse
        ensures { result ≡ [] }
    {
        Sparse {
            kept: Vec::new(alloc),
            behind: 0,
        }
    }

    /// The list of these fractions. The only error is want of memory.
    pub fn of(alloc: Global, items: &[Frac]) -> Result<Sparse, AllocError>
        ensures { IfOk result (λ made. made ≡ items.now) }
    {
        let mut made = Sparse::new(alloc);
        for item in items {
            made.push(*item)?;
        }
        Ok(made)
    }

    /// Appends a fraction. An error says that memory ran out.
    #[inline(always)]
    pub fn push(&mut self, x: Frac) -> Result<(), AllocError>
        ensures { OnOk result (self.new ≡ self.old ++ x ∷ []) }
    {
        if x.num() == 0 {
            return self.push_zero();
        }
        self.kept.push(Run {
            zeros: self.behind,
            value: x,
        })?;
        self.behind = 0;
        Ok(())
    }

    /// Appends 0. An error says that the zeros cannot be counted.
    #[inline(always)]
    pub fn push_zero(&mut self) -> Result<(), AllocError>
        ensures { OnOk result (self.new ≡ self.old ++ no_fraction ∷ []) }
    {
        let Some(behind) = self.behind.checked_add(1) else {
            return Err(AllocError);
        };
        self.behind = behind;
        Ok(())
    }

    /// The fractions that are not 0, in their order, each with the zeros before it.
    #[inline(always)]
    pub fn runs(&self) -> &[Run]
        ensures { AreRunsOf self.now result.now }
    {
        self.kept.as_slice()
    }

    /// Whether the list has so many fractions.
    pub fn has_length(&self, count: usize) -> bool
        ensures { IsTrue result ↔ (length self.now ≡ count) }
    {
        let mut left = count;
        for run in self.kept.as_slice() {
            if left <= run.zeros {
                return false;
            }
            left -= run.zeros;
            left -= 1;
        }
        left == self.behind
    }
}
