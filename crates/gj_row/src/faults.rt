//! Why a text spells no tableau.
ghost use Rattle.std.specs.Prelude.{◌≡◌, alloc_error};
ghost use Rattle.gj_row.specs.declared.faults.RowFault.TheVariants.{Memory};
ghost use Rattle.gj_row.specs.declared.faults.RecordFault.TheVariants as record_fault;
ghost use Rattle.gj_row.specs.Reading.{fault_in_record};

use std::alloc::{AllocError, AllocFailed};
use thiserror::Error;

/// Why a record of a tableau is refused: the first test that fails.
#[derive(Clone, Copy, Debug, PartialEq, Eq)]
pub enum RowReason {
    /// There is no record, or record 1 does not begin with `basic` and `rhs`.
    Header,
    /// The record has another number of fields than record 1.
    Fields,
    /// There are more than 10,000 columns.
    Columns,
    /// There are more than 10,000 rows.
    Rows,
    /// A name is not 1 to 255 visible ASCII bytes other than `"`.
    Name,
    /// A name stands already, as that of a column or of a basic variable.
    Twice,
    /// A right side, or an entry that is not empty, is not in lenient form.
    Number,
    /// A right side or an entry is above 2^31 in absolute value.
    Large,
    /// With it the common denominator of the row so far passes 2^31 - 1.
    Fine,
    /// There are more than 100,000 entries that are not 0.
    Entries,
}

impl RowReason {
    ghost use Rattle.std.specs.Prelude.{◌≡◌};
    ghost use Rattle.gj_row.specs.FirstFault.{reason_word};

    /// The word for the reason, as `header`.
    pub fn word(self) -> &'static str
        ensures { result.now ≡ reason_word self }
    {
        match self {
            RowReason::Header => "header",
            RowReason::Fields => "fields",
            RowReason::Columns => "columns",
            RowReason::Rows => "rows",
            RowReason::Name => "name",
            RowReason::Twice => "twice",
            RowReason::Number => "number",
            RowReason::Large => "large",
            RowReason::Fine => "fine",
            RowReason::Entries => "entries",
        }
    }
}

/// Why a text spells no tableau, or that there was no memory.
#[derive(Debug, Drop, Error)]
pub enum RowFault {
    /// The record with this number, counted from 1, is refused for this reason.
    #[error("record {0} is refused")]
    Refused(u64, RowReason),
    /// There was no memory.
    #[error("out of memory")]
    Memory(AllocError),
}

impl From<AllocError> for RowFault {
    ghost from_gives = { λ e f. f ≡ Memory e };

    fn from(error: AllocError) -> RowFault {
        RowFault::Memory(error)
    }
}

impl<T: Drop> From<AllocFailed<T>> for RowFault {
    ghost from_gives = { λ _ f. f ≡ Memory alloc_error };

    fn from(_error: AllocFailed<T>) -> RowFault {
        RowFault::Memory(AllocError)
    }
}

/// Why a record cannot follow those before it, or that there was no memory.
#[derive(Clone, Copy)]
pub(crate) enum RecordFault {
    /// It is refused for this reason.
    Refused(RowReason),
    /// There was no memory.
    Memory(AllocError),
}

impl RecordFault {
    /// The fault of a text whose record with this number has it.
    pub(crate) fn in_record(self, number: u64) -> RowFault
        ensures { result ≡ fault_in_record self number }
    {
        match self {
            RecordFault::Refused(reason) => RowFault::Refused(number, reason),
            RecordFault::Memory(error) => RowFault::Memory(error),
        }
    }
}

impl From<RowReason> for RecordFault {
    ghost from_gives = { λ e f. f ≡ record_fault.Refused e };

    fn from(reason: RowReason) -> RecordFault {
        RecordFault::Refused(reason)
    }
}

impl From<AllocError> for RecordFault {
    ghost from_gives = { λ e f. f ≡ record_fault.Memory e };

    fn from(error: AllocError) -> RecordFault {
        RecordFault::Memory(error)
    }
}

impl<T: Drop> From<AllocFailed<T>> for RecordFault {
    ghost from_gives = { λ _ f. f ≡ record_fault.Memory alloc_error };

    fn from(_error: AllocFailed<T>) -> RecordFault {
        RecordFault::Memory(AllocError)
    }
}
