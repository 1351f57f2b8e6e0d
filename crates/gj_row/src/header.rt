//! Record 1 of a tableau, and its names.
ghost use Rattle.std.specs.Prelude.{◌≡◌, ◌<◌, ◌≤◌, ◌↔◌, ◌++◌, ◌∷◌, [], ℕ, List, Some, IfOk, IfErr};
ghost use Rattle.std.specs.Prelude.{OnOk, IsTrue, length, slice_get};
ghost use Rattle.csv.specs.Records.{fields_of};
ghost use Rattle.gj_row.specs.TableauLimits.{most_columns, AreNames};
ghost use Rattle.gj_row.specs.TableauText.{header_of};
ghost use Rattle.gj_row.specs.FirstFault.{BreaksName, IsNewName, HasHeaderFault};
ghost use Rattle.gj_row.specs.Reading.{NamesReason, bytes_of, words_in, words_of_fields};

use crate::faults::{RecordFault, RowReason};
use crate::fields::{Fields, record_of_line, word_at};
use csv::ByteRecord;
use gj_lex::{Name, NameFault};
use indexmap::IndexSet;
use smallvec::SmallVec;
use std::alloc::Global;

/// The greatest number of columns.
const MOST_COLUMNS: usize = 10_000;

/// A name of at most so many bytes stands in the set of names itself; a longer one takes memory.
const INLINE: usize = 16;

/// The bytes of a name, as a key of the set of names.
pub(crate) type NameBytes = SmallVec<u8, INLINE>;

/// The names of the columns, as a list and as those that stand already.
#[derive(Drop)]
pub(crate) struct Header {
    /// The names of the columns.
    pub(crate) columns: Vec<Name>,
    /// The bytes of all names so far, each once.
    pub(crate) names: IndexSet<NameBytes>,
}

/// The names of the columns in record 1.
pub(crate) fn header_of(alloc: Global, fields: &Fields<'_>) -> Result<Header, RecordFault>
    ensures begins { IfOk result (λ h. words_of_fields fields.now ≡ header_of h.columns.items) }
    ensures few { IfOk result (λ h. length h.columns.items ≤ most_columns) }
    ensures names { IfOk result (λ h. AreNames h.columns.items) }
    ensures kept { IfOk result (λ h. bytes_of h.names.keys ≡ h.columns.items) }
    ensures refused { IfErr result (NamesReason (λ e.
        (rows : List (List (List ℕ))) → HasHeaderFault (words_of_fields fields.now ∷ rows) e)) }
{
    match fields.line {
        Some(line) => {
            let record = record_of_line(alloc, line)?;
            header_in(alloc, &record)
        }
        None => header_in(alloc, &fields.read),
    }
}

/// The names of the columns in record 1, as a record of `csv`.
fn header_in(alloc: Global, fields: &ByteRecord) -> Result<Header, RecordFault>
    ensures begins { IfOk result (λ h. words_in fields.now ≡ header_of h.columns.items) }
    ensures few { IfOk result (λ h. length h.columns.items ≤ most_columns) }
    ensures names { IfOk result (λ h. AreNames h.columns.items) }
    ensures kept { IfOk result (λ h. bytes_of h.names.keys ≡ h.columns.items) }
    ensures refused { IfErr result (NamesReason (λ e.
        (rows : List (List (List ℕ))) → HasHeaderFault (words_in fields.now ∷ rows) e)) }
{
    if !begins_header(fields) {
        return Err(RecordFault::Refused(RowReason::Header));
    }
    if fields.len() > MOST_COLUMNS + 2 {
        return Err(RecordFault::Refused(RowReason::Columns));
    }
    let mut columns = Vec::new(alloc);
    let mut names = IndexSet::with_capacity(alloc, fields.len())?;
    for place in 2..fields.len() {
        let name = new_name(alloc, &mut names, word_at(fields, place))?;
        columns.push(name)?;
    }
    Ok(Header { columns, names })
}

/// Whether the record begins with `basic` and `rhs`.
fn begins_header(fields: &ByteRecord) -> bool
    ensures { IsTrue result ↔ ((columns : List (List ℕ)) ×
        (words_in fields.now ≡ header_of columns)) }
{
    has_word(fields, 0, b"basic") && has_word(fields, 1, b"rhs")
}

/// Whether this word is in the field at this place.
fn has_word(fields: &ByteRecord, place: usize, word: &[u8]) -> bool
    ensures { IsTrue result ↔ (slice_get (words_in fields.now) place ≡ Some word.now) }
{
    place < fields.len() && word_at(fields, place) == word
}

/// The name that the word is, if no name so far has its bytes; it is one of them from then on.
///
/// The reason is `Name` if the word is no name, and `Twice` if it stands already.
pub(crate) fn new_name(
    alloc: Global,
    names: &mut IndexSet<NameBytes>,
    word: &[u8],
) -> Result<Name, RecordFault>
    ensures name { IfOk result (λ name. name ≡ word.now) }
    ensures new { OnOk result (IsNewName (bytes_of names.old.keys) word.now) }
    ensures kept { OnOk result
        (bytes_of names.new.keys ≡ bytes_of names.old.keys ++ word.now ∷ []) }
    ensures refused { IfErr result (NamesReason (BreaksName (bytes_of names.old.keys) word.now)) }
{
    let name = match Name::new(alloc, word) {
        Ok(name) => name,
        Err(NameFault::Form) => return Err(RecordFault::Refused(RowReason::Name)),
        Err(NameFault::Memory(error)) => return Err(RecordFault::Memory(error)),
    };
    let bytes = SmallVec::from_slice(alloc, word)?;
    if !names.insert(bytes)? {
        return Err(RecordFault::Refused(RowReason::Twice));
    }
    Ok(name)
}
