//! Rows with their entries on a grid.
ghost use Rattle.std.specs.Prelude.{◌≡◌, ◌<◌, ◌++◌, IfOk, OnOk, OnErr, Err};
ghost use Rattle.std.specs.List.{AllZip};
ghost use Rattle.gj_relaxed.specs.RelaxedRows.{Moves, IsRaised, IsRelaxedRow, IsWideRight};
ghost use Rattle.gj_relaxed.specs.RelaxedRows.{IsWideRelaxedRow, IsWideRise};
ghost use Rattle.gj_relaxed.specs.RaisedPieces.{IsRise, AreRaised, IsWideRaising};
ghost use Rattle.gj_relaxed.specs.Gaps.{AddsRise, AddsRises, CanBeRaised, IsGapOfRow, IsRowWithGap};

use crate::columns::above_on_grid;
use gj_frac::{Frac, Wide};
use gj_problem::{Combination, Fault, Inequality, Piece, Row, Sum, below_on_grid};
use std::alloc::Global;

/// How the right side of a row goes.
#[derive(Clone, Copy)]
pub enum RightMove {
    /// Down to the grid.
    Down,
    /// Not at all.
    Kept,
}

/// The row in so many columns, with its entries raised to the grid of all k/grid and its right
/// side moved so.
///
/// What the row gains by that is the surplus of one more inequality, which stands last with the
/// entry -1. `Memory` is for want of memory, and `Wide` comes exactly where a number of this does
/// not fit, or there are more than 2^32 columns.
pub fn relaxed_row(
    alloc: Global,
    columns: usize,
    row: Row,
    grid: u32,
    to: RightMove,
) -> Result<Row, Fault>
    requires { 0 < grid }
    ensures relaxed { IfOk result (λ made.
        IsRelaxedRow to grid columns (row.slacks.items ++ row.bounds.items) row.right
        (made.slacks.items ++ made.bounds.items) made.right) }
    ensures wide { result ≡ Err Fault.Wide →
        IsWideRelaxedRow to grid columns (row.slacks.items ++ row.bounds.items) row.right }
    ensures narrow { OnOk result
        (¬ IsWideRelaxedRow to grid columns (row.slacks.items ++ row.bounds.items) row.right) }
{
    match gap_over_one(alloc, columns, &row, grid, to) {
        Ok(gap) => with_gap(row, gap, grid),
        Err(Fault::Wide) => relaxed_one_by_one(alloc, columns, row, grid, to),
        Err(Fault::Memory(error)) => Err(Fault::Memory(error)),
    }
}

/// What a row gains on the grid, as an inequality, and its right side there.
#[derive(Drop)]
struct Gap {
    inequality: Inequality,
    right: Frac,
}

/// What the row gains on the grid, added up over one denominator. Where it is `Wide`, it may still
/// fit in lowest terms.
fn gap_over_one(
    alloc: Global,
    columns: usize,
    row: &Row,
    grid: u32,
    to: RightMove,
) -> Result<Gap, Fault>
    requires { 0 < grid }
    ensures gap { IfOk result (IsGapOfRow to grid columns
        (row.now.slacks.items ++ row.now.bounds.items) row.now.right) }
    ensures narrow { OnOk result (¬ IsWideRelaxedRow to grid columns
        (row.now.slacks.items ++ row.now.bounds.items) row.now.right) }
{
    let grid = u64::from(grid);
    let right = moved_right(row.right, grid, to)?;
    let fall = right.checked_sub(row.right)?;
    let mut sum = Combination::of_none(alloc, columns, 0, &[fall])?;
    sum.add(fall, &[], Frac::ratio(1, 1))?;
    add_rises(&mut sum, row.slacks.as_slice(), grid)?;
    add_rises(&mut sum, row.bounds.as_slice(), grid)?;
    let inequality = sum.inequality(alloc)?;
    Ok(Gap { inequality, right })
}

/// Adds to the sum what the row gains when the entries of the pieces are raised to the grid.
fn add_rises(sum: &mut Combination, pieces: &[Piece], grid: u64) -> Result<(), Wide>
    requires { 0 < grid }
    ensures { IfOk result (λ _. AddsRises grid pieces.now sum.old sum.new) }
{
    for piece in pieces {
        let entry = above_on_grid(piece.entry, grid)?;
        add_rise_over_one(sum, piece, entry)?;
    }
    Ok(())
}

/// Adds to the sum what the row gains by this entry of the piece.
fn add_rise_over_one(sum: &mut Combination, piece: &Piece, entry: Frac) -> Result<(), Wide>
    ensures { IfOk result (λ _. AddsRise piece.now entry sum.old sum.new) }
{
    let rise = entry.checked_sub(piece.entry)?;
    if rise.num() != 0 {
        let inequality = &piece.inequality;
        sum.add(rise, inequality.entries.as_slice(), inequality.right)?;
    }
    Ok(())
}

/// The row on the grid with what it gains there.
fn with_gap(row: Row, gap: Gap, grid: u32) -> Result<Row, Fault>
    requires { 0 < grid }
    ensures made { IfOk result (IsRowWithGap grid row gap) }
    ensures wide { result ≡ Err Fault.Wide →
        ¬ CanBeRaised grid (row.slacks.items ++ row.bounds.items) }
{
    let Row {
        mut slacks,
        mut bounds,
        right: _,
    } = row;
    let grid = u64::from(grid);
    raise_entries(slacks.as_mut_slice(), grid)?;
    raise_entries(bounds.as_mut_slice(), grid)?;
    bounds.push(Piece {
        entry: Frac::ratio(-1, 1),
        inequality: gap.inequality,
        is_whole: false,
    })?;
    Ok(Row {
        slacks,
        bounds,
        right: gap.right,
    })
}

/// Raises the entries of the pieces to the grid.
fn raise_entries(pieces: &mut [Piece], grid: u64) -> Result<(), Wide>
    requires { 0 < grid }
    ensures raised { IfOk result (λ _. AllZip (IsRaised grid) pieces.old pieces.new) }
    ensures wide { OnErr result (¬ CanBeRaised grid pieces.old) }
{
    for piece in pieces.iter_mut() {
        piece.entry = above_on_grid(piece.entry, grid)?;
    }
    Ok(())
}

/// The row on the grid, with what it gains added up one by one, in lowest terms.
fn relaxed_one_by_one(
    alloc: Global,
    columns: usize,
    row: Row,
    grid: u32,
    to: RightMove,
) -> Result<Row, Fault>
    requires { 0 < grid }
    ensures relaxed { IfOk result (λ made.
        IsRelaxedRow to grid columns (row.slacks.items ++ row.bounds.items) row.right
        (made.slacks.items ++ made.bounds.items) made.right) }
    ensures wide { result ≡ Err Fault.Wide →
        IsWideRelaxedRow to grid columns (row.slacks.items ++ row.bounds.items) row.right }
    ensures narrow { OnOk result
        (¬ IsWideRelaxedRow to grid columns (row.slacks.items ++ row.bounds.items) row.right) }
{
    let Row {
        mut slacks,
        mut bounds,
        right: given,
    } = row;
    let grid = u64::from(grid);
    let right = moved_right(given, grid, to)?;
    let fall = right.checked_sub(given)?;
    let mut sum = Sum::of_none(alloc, columns, fall)?;
    raise(&mut sum, slacks.as_mut_slice(), grid)?;
    raise(&mut sum, bounds.as_mut_slice(), grid)?;
    match sum.inequality(alloc)? {
        Some(inequality) => {
            bounds.push(Piece {
                entry: Frac::ratio(-1, 1),
                inequality,
                is_whole: false,
            })?;
            Ok(Row {
                slacks,
                bounds,
                right,
            })
        }
        None => Err(Fault::Wide),
    }
}

/// The right side moved.
fn moved_right(right: Frac, grid: u64, to: RightMove) -> Result<Frac, Wide>
    requires { 0 < grid }
    ensures moved { IfOk result (Moves to grid right) }
    ensures wide { OnErr result (IsWideRight to grid right) }
    ensures narrow { OnOk result (¬ IsWideRight to grid right) }
{
    match to {
        RightMove::Down => below_on_grid(right, grid),
        RightMove::Kept => Ok(right),
    }
}

/// Raises the entries of the pieces to the grid, and adds to the sum what the row gains by that.
fn raise(sum: &mut Sum, pieces: &mut [Piece], grid: u64) -> Result<(), Wide>
    requires { 0 < grid }
    ensures raised { IfOk result (λ _. AreRaised grid pieces.old pieces.new sum.old sum.new) }
    ensures wide { OnErr result (IsWideRaising grid pieces.old sum.old) }
    ensures narrow { OnOk result (¬ IsWideRaising grid pieces.old sum.old) }
{
    for piece in pieces.iter_mut() {
        let entry = above_on_grid(piece.entry, grid)?;
        add_rise(sum, piece, entry)?;
        piece.entry = entry;
    }
    Ok(())
}

/// Adds to the sum what the row gains by this entry of the piece.
fn add_rise(sum: &mut Sum, piece: &Piece, entry: Frac) -> Result<(), Wide>
    ensures rise { IfOk result (λ _. IsRise piece.now entry sum.old sum.new) }
    ensures wide { OnErr result
        (IsWideRise sum.old.coefficients.items sum.old.right piece.now entry) }
    ensures narrow { OnOk result
        (¬ IsWideRise sum.old.coefficients.items sum.old.right piece.now entry) }
{
    let rise = entry.checked_sub(piece.entry)?;
    if rise.num() != 0 {
        let inequality = &piece.inequality;
        sum.add(rise, inequality.entries.as_slice(), inequality.right)?;
    }
    Ok(())
}
