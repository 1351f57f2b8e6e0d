//! Replies to what an input spells, before they are written.
ghost use Rattle.std.specs.Prelude.{◌≡◌};
ghost use Rattle.gj_top.specs.Reply.{status_of};

use crate::status::Status;
use std::alloc::AllocError;

/// How a reply ends the run, once it is written.
#[derive(Clone, Copy, Debug, PartialEq, Eq)]
pub enum End {
    /// The input was answered.
    Done,
    /// A rule of the checker failed, or a step of a derivation.
    Rejected,
    /// A number passed its bound.
    Wide,
    /// The function is not continuous.
    NotContinuous,
    /// The function is not minimal.
    NoFunction,
    /// The table of the function is not subadditive.
    NotSubadditive,
    /// The order would pass its bound.
    OrderLimit,
    /// The function has no restriction of that order.
    BadOrder,
}

impl End {
    /// The status of a run that ends so.
    pub(crate) fn status(self) -> Status
        ensures { result ≡ status_of self }
    {
        match self {
            End::Done => Status::Done,
            End::Rejected => Status::Rejected,
            End::Wide => Status::Wide,
            End::NotContinuous => Status::NotContinuous,
            End::NoFunction => Status::NoFunction,
            End::NotSubadditive => Status::NotSubadditive,
            End::OrderLimit => Status::OrderLimit,
            End::BadOrder => Status::BadOrder,
        }
    }
}

/// What a command replies to an input in its form: what is to be written, and how the run ends.
#[derive(Drop)]
pub struct Reply {
    /// How the run ends, once the text is written.
    pub end: End,
    /// What is to be written.
    pub text: Vec<u8>,
}

/// Why there is no reply.
#[derive(Drop)]
pub enum Unanswered {
    /// The input is outside its form, and this line says why.
    Refused(Vec<u8>),
    /// There was no memory.
    Memory(AllocError),
}

impl From<AllocError> for Unanswered {
    ghost use Rattle.gj_top.specs.declared.reply.Unanswered.TheVariants.{Memory};

    ghost from_gives = { λ error unanswered. unanswered ≡ Memory error };

    fn from(error: AllocError) -> Self {
        Unanswered::Memory(error)
    }
}
