//! Why a JSON text gives no function.

ghost use Rattle.std.specs.Prelude.{◌≡◌, alloc_error};
ghost use Rattle.gj_json.specs.declared.faults.JsonFault.TheVariants.{Memory};

use std::alloc::{AllocError, AllocFailed};
use thiserror::Error;

/// Why a JSON text gives no function: the first test that fails.
#[derive(Clone, Copy, Debug, PartialEq, Eq)]
pub enum JsonReason {
    /// The text is no JSON.
    Syntax,
    /// Its value is not of the form of a function.
    Form,
    /// A string is not a number in lenient form.
    Number,
    /// The order is not from 2 to 1,000.
    Order,
    /// f is not k/order for a k from 1 to the order less 1.
    Place,
    /// A value or limit is above 2^20 in absolute value.
    Large,
    /// The common denominator passes 2^31 - 1.
    Fine,
}

impl JsonReason {
    ghost use Rattle.std.specs.Prelude.{◌≡◌};
    ghost use Rattle.gj_json.specs.FirstReason.{reason_word};

    /// The word for the reason, as `syntax`.
    pub fn word(self) -> &'static str
        ensures { result.now ≡ reason_word self }
    {
        match self {
            JsonReason::Syntax => "syntax",
            JsonReason::Form => "form",
            JsonReason::Number => "number",
            JsonReason::Order => "order",
            JsonReason::Place => "place",
            JsonReason::Large => "large",
            JsonReason::Fine => "fine",
        }
    }
}

/// Why a JSON text gives no function, or that there was no memory.
#[derive(Debug, Drop, Error)]
pub enum JsonFault {
    /// It spells none, for this reason.
    #[error("refused")]
    Refused(JsonReason),
    /// There was no memory.
    #[error("out of memory")]
    Memory(AllocError),
}

impl<T: Drop> From<AllocFailed<T>> for JsonFault {
    ghost from_gives = { λ _ f. f ≡ Memory alloc_error };

    fn from(_error: AllocFailed<T>) -> JsonFault {
        JsonFault::Memory(AllocError)
    }
}
