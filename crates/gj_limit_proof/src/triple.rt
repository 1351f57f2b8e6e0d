//! The numbers of a function at a point of its grid.
ghost use Rattle.std.specs.Prelude.{◌≡◌, ◌<◌, ◌++◌, ◌∷◌, [], List, OnOk};
ghost use Rattle.gj_limit_proof.specs.LimitGrammar.{AllFit, side_numbers_of};
ghost use Rattle.gj_limit_proof.specs.declared.triple.Triple.{Triple};
ghost use Rattle.gj_limit_proof.specs.LimitText.{AreSideNumbersWithin, triple_at, is_one};

use gj_shape::{List, SideNumbers};
use std::alloc::{AllocError, Global};

/// A limit from the left, a value and a limit from the right, each over some scale.
#[derive(Clone, Copy, Debug, PartialEq, Eq)]
pub struct Triple {
    /// The limit from the left.
    pub left: i128,
    /// The value.
    pub value: i128,
    /// The limit from the right.
    pub right: i128,
}

impl Triple {
    /// The number three times.
    pub fn thrice(number: i128) -> Triple
        ensures { result ≡ record { left = number; value = number; right = number } }
    {
        Triple {
            left: number,
            value: number,
            right: number,
        }
    }

    /// Whether the three are one number.
    pub fn is_one(self) -> bool
        ensures { result ≡ is_one self }
    {
        self.left == self.value && self.right == self.value
    }
}

/// The numbers at the point with this index, from 0 on, of so many points.
pub fn triple_at(count: u32, numbers: &SideNumbers, index: u32) -> Triple
    requires within { AreSideNumbersWithin count numbers.now }
    requires below { index < count }
    ensures { result ≡ triple_at numbers.now index }
{
    let index = index as usize;
    Triple {
        left: numbers.left.as_slice()[index],
        value: numbers.value.as_slice()[index],
        right: numbers.right.as_slice()[index],
    }
}

/// The numbers at no point. It takes no memory.
pub(crate) fn no_numbers(alloc: Global) -> SideNumbers
    ensures { result ≡ side_numbers_of [] }
{
    SideNumbers {
        left: List::of(Vec::new(alloc)),
        value: List::of(Vec::new(alloc)),
        right: List::of(Vec::new(alloc)),
    }
}

/// Appends the numbers at the next point. An error says that memory ran out.
pub(crate) fn push_triple(numbers: &mut SideNumbers, triple: Triple) -> Result<(), AllocError>
    requires { AllFit triple }
    ensures { OnOk result ((points : List Triple) → numbers.old ≡ side_numbers_of points →
        numbers.new ≡ side_numbers_of (points ++ triple ∷ [])) }
{
    numbers.left.push(triple.left)?;
    numbers.value.push(triple.value)?;
    numbers.right.push(triple.right)
}
