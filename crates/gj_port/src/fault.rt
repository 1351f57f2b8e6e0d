//! Why a read or a write did not go through.
ghost use Rattle.std.specs.Prelude.{◌≡◌};
ghost use Rattle.gj_port.specs.declared.fault.ReadError.TheVariants.{ReadFault, Memory};

use std::alloc::AllocError;
use thiserror::Error;

/// A source did not give bytes, or a sink did not take any.
#[derive(Clone, Copy, Debug, PartialEq, Eq)]
pub struct Failed;

/// Why the bytes of a source were not all read.
#[derive(Clone, Copy, Debug, PartialEq, Eq, Error)]
pub enum ReadError {
    /// A read failed.
    #[error("the source failed")]
    ReadFault,
    /// The source gave more bytes than the limit.
    #[error("the source gave too many bytes")]
    TooLong,
    /// There was no memory for the bytes.
    #[error("no memory for the bytes")]
    Memory(AllocError),
}

impl From<Failed> for ReadError {
    ghost from_gives = { λ _ e. e ≡ ReadFault };

    fn from(_: Failed) -> Self {
        ReadError::ReadFault
    }
}

impl From<AllocError> for ReadError {
    ghost from_gives = { λ error e. e ≡ Memory error };

    fn from(error: AllocError) -> Self {
        ReadError::Memory(error)
    }
}
