//! Why a family has no function.
ghost use Rattle.std.specs.Prelude.{◌≡◌, IfOk, IfErr, OnOk};
ghost use Rattle.gj_shape.specs.Given.{IsOrder, IsPlace};
ghost use Rattle.gj_family.specs.declared.faults.FamilyFault.TheVariants.{Memory};
ghost use Rattle.gj_family.specs.Faults.{order_of, place_of, HasFamilyFault, HasNoFamilyFault};

use gj_frac::Frac;
use gj_shape::GREATEST_ORDER;
use std::alloc::{AllocError, AllocFailed};
use thiserror::Error;

/// Why a family has no function: the first test that fails, or want of memory.
#[derive(Clone, Copy, Debug, PartialEq, Eq, Error)]
pub enum FamilyFault {
    /// The order is above 1,000.
    #[error("the order is above 1000")]
    TooManyPieces,
    /// There are fewer than two signs.
    #[error("there are fewer than two signs")]
    BadSigns,
    /// f is not between 0 and 1.
    #[error("f is not between 0 and 1")]
    BadF,
    /// There is no rise, there is no fall, or the steps up to f do not lead upwards.
    #[error("the signs have no two slopes")]
    NoSlopes,
    /// There was no memory.
    #[error("out of memory")]
    Memory(AllocError),
}

impl From<AllocError> for FamilyFault {
    ghost from_gives = { λ e f. f ≡ Memory e };

    fn from(error: AllocError) -> FamilyFault {
        FamilyFault::Memory(error)
    }
}

impl<T: Drop> From<AllocFailed<T>> for FamilyFault {
    ghost use Rattle.std.specs.Prelude.{alloc_error};

    ghost from_gives = { λ _ f. f ≡ Memory alloc_error };

    fn from(_error: AllocFailed<T>) -> FamilyFault {
        FamilyFault::Memory(AllocError)
    }
}

/// The order and the place of a function with this f: its denominator and its numerator.
pub(crate) fn order_and_place(f: Frac) -> Result<(u32, u32), FamilyFault>
    ensures order { IfOk result (λ p. p.0 ≡ order_of f) }
    ensures place { IfOk result (λ p. p.1 ≡ place_of f) }
    ensures order_fits { IfOk result (λ p. IsOrder p.0) }
    ensures place_fits { IfOk result (λ p. IsPlace p.0 p.1) }
    ensures ok { OnOk result (HasNoFamilyFault f) }
    ensures fault { IfErr result (HasFamilyFault f) }
{
    if f.num() <= 0 || f.num() >= f.den() {
        return Err(FamilyFault::BadF);
    }
    if f.den() > i128::from(GREATEST_ORDER) {
        return Err(FamilyFault::TooManyPieces);
    }
    Ok((f.den() as u32, f.num() as u32))
}
