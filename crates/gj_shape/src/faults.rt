//! Why fractions give no function.
ghost use Rattle.std.specs.Prelude.{◌≡◌, alloc_error};
ghost use Rattle.gj_shape.specs.declared.faults.ShapeFault.TheVariants.{Memory};
ghost use Rattle.gj_shape.specs.Denominators.{fault_at};
ghost use Rattle.gj_shape.specs.Given.{IsMemory};

use std::alloc::{AllocError, AllocFailed};
use thiserror::Error;

/// Why `Shape::new` gives no function: the first test that fails, or want of memory.
#[derive(Clone, Copy, Debug, PartialEq, Eq, Error)]
pub enum ShapeFault {
    /// The order is not from 2 to 1,000.
    #[error("the order is not from 2 to 1000")]
    Order,
    /// The place is not from 1 to the order less 1.
    #[error("the place is not from 1 to the order less 1")]
    Place,
    /// A list has another length than the order.
    #[error("a list has another length than the order")]
    Count,
    /// A fraction at this index is greater than 2^20 in absolute value.
    #[error("a fraction at {0} is greater than 2^20 in absolute value")]
    TooLarge(u32),
    /// With a fraction at this index the fractions so far have no common denominator up to 2^31 -
    /// 1.
    #[error("with a fraction at {0} there is no common denominator up to 2^31 - 1")]
    TooFine(u32),
    /// There was no memory.
    #[error("out of memory")]
    Memory(AllocError),
}

impl ShapeFault {
    /// The want of memory that the fault is: for lists that pass all tests.
    pub fn want_of_memory(self) -> AllocError
        requires { IsMemory self }
        ensures { self ≡ Memory result }
    {
        match self {
            ShapeFault::Memory(error) => error,
            _ => unreachable!(),
        }
    }
}

impl From<AllocError> for ShapeFault {
    ghost from_gives = { λ e f. f ≡ Memory e };

    fn from(error: AllocError) -> ShapeFault {
        ShapeFault::Memory(error)
    }
}

impl<T: Drop> From<AllocFailed<T>> for ShapeFault {
    ghost from_gives = { λ _ f. f ≡ Memory alloc_error };

    fn from(_error: AllocFailed<T>) -> ShapeFault {
        ShapeFault::Memory(AllocError)
    }
}

/// Why a fraction cannot follow others.
#[derive(Clone, Copy)]
pub(crate) enum FractionFault {
    /// It is greater than 2^20 in absolute value.
    Large,
    /// With it the fractions so far have no common denominator up to 2^31 - 1.
    Fine,
}

impl FractionFault {
    /// The fault of lists with such a fraction at the index.
    pub(crate) fn at(self, index: u32) -> ShapeFault
        ensures { result ≡ fault_at self index }
    {
        match self {
            FractionFault::Large => ShapeFault::TooLarge(index),
            FractionFault::Fine => ShapeFault::TooFine(index),
        }
    }
}
