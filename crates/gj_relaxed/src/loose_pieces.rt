//! Rows with their whole pieces of small entries as continuous ones.
ghost use Rattle.std.specs.Prelude.{◌≡◌, ◌<◌, ◌++◌, ◌↔◌, true, IsTrue, IfOk, OnOk, Err};
ghost use Rattle.std.specs.List.{AllZip};
ghost use Rattle.gj_fields.specs.Rational.{rational};
ghost use Rattle.gj_problem.specs.Rows.{IsMultiple};
ghost use Rattle.gj_problem.specs.declared.pieces.Piece.{Piece};
ghost use Rattle.gj_problem.specs.declared.problem.Inequality.{Inequality};
ghost use Rattle.gj_relaxed.specs.LoosePieces.{IsSmall, IsLoose, IsLoosened};

use gj_frac::Frac;
use gj_problem::{Entry, Fault, Inequality, Piece, Row};
use gj_shape::List;
use std::alloc::{AllocError, Global};

/// The row with each whole piece whose entry is below 1/64 in absolute value taken as a continuous
/// one: grid times the entry, and its inequality divided by grid.
///
/// What the piece adds to the row is the same at each point. A piece stays as it is if a number of
/// this does not fit. The only error is want of memory.
pub(crate) fn loosened_row(alloc: Global, row: Row, grid: u32) -> Result<Row, AllocError>
    requires { 0 < grid }
    ensures pieces { IfOk result (λ made. AllZip (IsLoosened grid)
        (row.slacks.items ++ row.bounds.items) (made.slacks.items ++ made.bounds.items)) }
    ensures right { IfOk result (λ made. made.right ≡ row.right) }
{
    let Row {
        mut slacks,
        mut bounds,
        right,
    } = row;
    loosen_all(alloc, slacks.as_mut_slice(), grid)?;
    loosen_all(alloc, bounds.as_mut_slice(), grid)?;
    Ok(Row {
        slacks,
        bounds,
        right,
    })
}

/// Loosens each of the pieces.
fn loosen_all(alloc: Global, pieces: &mut [Piece], grid: u32) -> Result<(), AllocError>
    requires { 0 < grid }
    ensures { OnOk result (AllZip (IsLoosened grid) pieces.old pieces.new) }
{
    for piece in pieces.iter_mut() {
        loosen(alloc, piece, grid)?;
    }
    Ok(())
}

/// Takes the piece as a continuous one, if it is whole, its entry is small and all fits.
fn loosen(alloc: Global, piece: &mut Piece, grid: u32) -> Result<(), AllocError>
    requires { 0 < grid }
    ensures { OnOk result (IsLoosened grid piece.old piece.new) }
{
    if !piece.is_whole || !is_small(piece.entry) {
        return Ok(());
    }
    match loose_piece(alloc, piece, grid) {
        Ok(loose) => {
            *piece = loose;
            Ok(())
        }
        Err(Fault::Wide) => Ok(()),
        Err(Fault::Memory(error)) => Err(error),
    }
}

/// Whether x is below 1/64 in absolute value.
fn is_small(x: Frac) -> bool
    ensures { IsTrue result ↔ IsSmall x }
{
    x.num().unsigned_abs() <= (x.den().unsigned_abs() - 1) / 64
}

/// A whole piece with a small entry as a continuous one.
fn loose_piece(alloc: Global, piece: &Piece, grid: u32) -> Result<Piece, Fault>
    requires grid { 0 < grid }
    requires was_whole { piece.now.is_whole ≡ true }
    requires was_small { IsSmall piece.now.entry }
    ensures loose { IfOk result (IsLoose grid piece.now) }
    ensures wide { result ≡ Err Fault.Wide → (t : Piece) → ¬ IsLoose grid piece.now t }
{
    let entry = Frac::of_small(u64::from(grid), 1).checked_mul(piece.entry)?;
    let given = &piece.inequality;
    let part = Frac::ratio(1, grid);
    let inequality = times(alloc, part, given.entries.as_slice(), given.right)?;
    Ok(Piece {
        entry,
        inequality,
        is_whole: false,
    })
}

/// The inequality of the entries and the right side, each times the factor. `Wide` exactly if a
/// number of it does not fit.
fn times(alloc: Global, factor: Frac, entries: &[Entry], right: Frac) -> Result<Inequality, Fault>
    ensures is { IfOk result (IsMultiple (rational factor) entries.now right) }
    ensures wide { result ≡ Err Fault.Wide → (q : Inequality) →
        ¬ IsMultiple (rational factor) entries.now right q }
{
    let mut scaled = Vec::with_capacity(alloc, entries.len())?;
    for entry in entries {
        let value = factor.checked_mul(entry.value)?;
        scaled.push(Entry {
            column: entry.column,
            value,
        })?;
    }
    let right = factor.checked_mul(right)?;
    Ok(Inequality {
        entries: List::of(scaled),
        right,
    })
}
