//! Tableaux, read.
ghost use Rattle.std.specs.Prelude.{◌≡◌, ◌<◌, ◌≤◌, ◌++◌, ◌∷◌, [], IfOk, IfErr, OnOk, MatchResult};
ghost use Rattle.std.specs.Prelude.{length, true, false};
ghost use Rattle.gj_row.specs.TableauLimits.{most_columns, most_entries, most_rows, IsTableau};
ghost use Rattle.gj_row.specs.TableauLimits.{names_of, entry_count};
ghost use Rattle.gj_row.specs.TableauText.{IsTableauText};
ghost use Rattle.gj_row.specs.FirstFault.{HasRowFault, IsFirstFaultOfTableau, IsNewName};
ghost use Rattle.gj_row.specs.Reading.{IsMemoryFault, NamesRecord, NamesReason, ReadsRow};
ghost use Rattle.gj_row.specs.Reading.{HoldsBehindFirst, HoldsBehindHeader, HoldsOfText};
ghost use Rattle.gj_row.specs.Reading.{StandsBehind, bytes_of, fields_in, tableau_of};
ghost use Rattle.gj_row.specs.Reading.{words_of_fields};
ghost use Rattle.gj_row.specs.declared.tableau.Tableau.{Tableau};

use crate::faults::{RecordFault, RowFault, RowReason};
use crate::fields::{Fields, field_count, first_word, no_fields};
use crate::header::{Header, NameBytes, header_of, new_name};
use crate::numbers::numbers_of;
use crate::records::{Records, next_record, records_of};
use crate::tableau::{Row, Tableau};
use gj_lex::Name;
use gj_shape::List;
use indexmap::IndexSet;
use std::alloc::Global;

/// The greatest number of rows.
const MOST_ROWS: usize = 10_000;

/// Room is made for so many entries of the first row before it is read.
const FIRST_LIKELY: usize = 64;

impl Tableau {
    /// The tableau that the text spells: records of comma-separated values, of which the first is
    /// `basic`, `rhs` and the names of the columns, and each other one the name of a basic
    /// variable, its right side and an entry for each column.
    ///
    /// A field may stand in double quotes; spaces and tabs at both its ends are dropped. Numbers
    /// are in lenient form, as `8/5`, `-0.2` or `+3`; an empty entry is 0. Names are 1 to 255
    /// visible ASCII bytes other than `"`, and all differ. A byte order mark at the start is
    /// dropped, and blank lines are no records.
    ///
    /// A refusal names the first record at fault, counted from 1, and its first reason: `Header`,
    /// there is no record, or record 1 does not begin with `basic` and `rhs`; `Fields`, it has
    /// another number of fields than record 1; `Columns` or `Rows`, there are more than 10,000; and
    /// then for each field from left to right `Name` or `Twice`, it is no name or stands already,
    /// or `Number`, it is no number, `Large`, above 2^31 in absolute value, `Fine`, with it the
    /// common denominator of the row so far passes 2^31 - 1, or `Entries`, it is the entry 100,001
    /// that is not 0.
    ///
    /// `Memory` says that there was no memory. An error of the crate `csv` is answered so too: it
    /// can want nothing else here, though its contract leaves open that reading from a slice fails
    /// as reading from a file may.
    ///
    /// ```text
    /// let tableau = Tableau::read(alloc, b"basic,rhs,x1,x2\nx0,8/5,7/5,-1/5\n")?;
    /// // one row: x0 + 7/5 x1 - 1/5 x2 = 8/5
    /// let fault = Tableau::read(alloc, b"basic,rhs,x1\nx0,8/5,1e3\n");
    /// // fault is Err(RowFault::Refused(2, RowReason::Number))
    /// ```
    pub fn read(alloc: Global, bytes: &[u8]) -> Result<Tableau, RowFault>
        // What is read is spelled so, and is a tableau within the limits.
        ensures found { IfOk result (IsTableauText bytes.now) }
        ensures valid { IfOk result IsTableau }
        // What is spelled so is read, unless there is no memory.
        ensures only { (t : Tableau) → IsTableauText bytes.now t →
            MatchResult result (λ read. read ≡ t) IsMemoryFault }
        // A refusal names the first fault.
        ensures refused { IfErr result (NamesRecord (IsFirstFaultOfTableau bytes.now)) }
    {
        tableau_in(alloc, bytes)
    }
}

/// The tableau that the text spells, or its first fault.
fn tableau_in(alloc: Global, bytes: &[u8]) -> Result<Tableau, RowFault>
    ensures found { IfOk result (IsTableauText bytes.now) }
    ensures refused { IfErr result (NamesRecord (IsFirstFaultOfTableau bytes.now)) }
{
    let mut records = records_of(alloc, bytes)?;
    tableau_from(alloc, &mut records)
}

/// The tableau that all records spell, or the first fault among them.
fn tableau_from(alloc: Global, records: &mut Records<'_>) -> Result<Tableau, RowFault>
    ensures found { IfOk result (λ t. HoldsOfText records.old (λ text. IsTableauText text t)) }
    ensures refused { IfErr result (NamesRecord (λ n e. HoldsOfText records.old
        (λ text. IsFirstFaultOfTableau text n e))) }
{
    let mut fields = no_fields(alloc);
    if !next_record(records, &mut fields)? {
        return Err(RowFault::Refused(1, RowReason::Header));
    }
    tableau_behind(alloc, records, &mut fields)
}

/// The tableau that record 1, with these fields, and the records that are left spell, or the first
/// fault among them.
fn tableau_behind<'a>(
    alloc: Global,
    records: &mut Records<'a>,
    fields: &mut Fields<'a>,
) -> Result<Tableau, RowFault>
    ensures found { IfOk result (λ t. HoldsBehindFirst (fields_in fields.old) records.old
        (λ text. IsTableauText text t)) }
    ensures refused { IfErr result (NamesRecord (λ n e. HoldsBehindFirst (fields_in fields.old)
        records.old (λ text. IsFirstFaultOfTableau text n e))) }
{
    let header = match header_of(alloc, fields) {
        Ok(header) => header,
        Err(fault) => return Err(fault.in_record(1)),
    };
    let columns = header.columns;
    let mut names = header.names;
    let rows = rows_in(alloc, records, fields, &columns, &mut names)?;
    Ok(Tableau {
        columns: List::of(columns),
        rows: List::of(rows),
    })
}

/// The rows in the records that are left, behind a header with these columns, or the first fault
/// among them.
fn rows_in<'a>(
    alloc: Global,
    records: &mut Records<'a>,
    fields: &mut Fields<'a>,
    columns: &[Name],
    names: &mut IndexSet<NameBytes>,
) -> Result<Vec<Row>, RowFault>
    requires { length columns.now ≤ most_columns }
    ensures found { IfOk result (λ rows. HoldsBehindHeader columns.now
        (bytes_of names.old.keys) records.old
        (λ text. IsTableauText text (tableau_of columns.now rows.items))) }
    ensures refused { IfErr result (NamesRecord (λ n e. HoldsBehindHeader columns.now
        (bytes_of names.old.keys) records.old
        (λ text. IsFirstFaultOfTableau text n e))) }
{
    let mut rows = Vec::new(alloc);
    let mut used = 0;
    let mut likely = FIRST_LIKELY;
    while next_record(records, fields)? {
        match next_row(
            alloc,
            fields,
            names,
            columns.len(),
            rows.len(),
            used,
            likely,
        ) {
            Ok(row) => {
                let count = row.entries.as_slice().len();
                used += count;
                likely = likely_behind(count);
                rows.push(row)?;
            }
            Err(fault) => return Err(fault.in_record(rows.len() as u64 + 2)),
        }
    }
    Ok(rows)
}

/// How many entries to make room for behind a row with so many: a few more, since the rows of a
/// tableau are often alike.
fn likely_behind(count: usize) -> usize {
    count.saturating_add(count / 8).saturating_add(16)
}

/// The row in the record, behind so many rows, with `used` entries that are not 0, of a tableau
/// with so many columns and these names. Room is made for at most `likely` entries of a line before
/// they are read.
fn next_row(
    alloc: Global,
    fields: &Fields<'_>,
    names: &mut IndexSet<NameBytes>,
    columns: usize,
    rows: usize,
    used: usize,
    likely: usize,
) -> Result<Row, RecordFault>
    requires narrow { columns ≤ most_columns }
    requires few { used ≤ most_entries }
    ensures room { OnOk result (rows < most_rows) }
    ensures row { IfOk result (ReadsRow columns used (words_of_fields fields.now)) }
    ensures new { IfOk result (λ row. IsNewName (bytes_of names.old.keys) row.basic) }
    ensures kept { IfOk result
        (λ row. bytes_of names.new.keys ≡ bytes_of names.old.keys ++ row.basic ∷ []) }
    ensures refused { IfErr result (NamesReason (λ e. (t : Tableau) → length t.columns ≡ columns →
        length t.rows ≡ rows →
        names_of t ≡ bytes_of names.old.keys → entry_count t ≡ used →
        HasRowFault t (words_of_fields fields.now) e)) }
{
    if field_count(fields) != columns + 2 {
        return Err(RecordFault::Refused(RowReason::Fields));
    }
    if rows >= MOST_ROWS {
        return Err(RecordFault::Refused(RowReason::Rows));
    }
    let basic = new_name(alloc, names, first_word(fields))?;
    let numbers = numbers_of(alloc, fields, used, likely)?;
    Ok(Row {
        basic,
        rhs: numbers.rhs,
        entries: List::of(numbers.entries),
    })
}
