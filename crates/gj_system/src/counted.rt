//! Rows that are made from counts of intervals, which are made once for all rows.
ghost use Rattle.std.specs.Prelude.{ℕ, ℤ, pos, ◌≡◌, ◌+◌, ◌%◌, ◌<◌, ◌≤◌, ◌^◌, ◌↔◌, ◌+ℤ◌, ◌-ℤ◌};
ghost use Rattle.std.specs.Prelude.{get_or, length, flat_map, All, IfOk, IsTrue, unsigned_abs};
ghost use Rattle.std.specs.List.{range_with_len};
ghost use Rattle.gj_shape.specs.SlopeRows.{row_of as row_entries, component_in};
ghost use Rattle.gj_shape.specs.declared.extremality.RowName.TheVariants.{Pair};
ghost use Rattle.gj_system.specs.Components.{rises_at, IsNameBelow};

use crate::codes::{codes_of, sum_of_codes};
use gj_shape::RowName;
use std::alloc::{AllocError, Global};
use std::marker::Model;

/// All rows of the system for a function of order q. Contracts see the component of each of the q
/// intervals, and how many components there are.
#[derive(Drop)]
pub struct SlopeRows {
    component: Vec<u32>,
    columns: u32,
    /// For each i up to q, how many of the intervals before i/q are in each component, all in one
    /// list.
    counts: Vec<u32>,
    /// The codes of those before 1, twice over, or none if they are not packed.
    codes: Vec<u64>,
}

impl Model for SlopeRows {
    ghost use Rattle.gj_system.specs.Components.{ComponentData};

    ghost Value = { ComponentData };

    ghost use Rattle.gj_system.specs.Counted.{data_of, IsCounted};

    ghost view = { data_of };

    ghost invariant = { IsCounted };
}

impl SlopeRows {
    /// The rows for intervals in these components, of which there are `columns`.
    pub fn new(alloc: Global, component: &[u32], columns: u32) -> Result<SlopeRows, AllocError>
        requires components { All (λ c. c < columns) component.now }
        requires count { length component.now < 2 ^ 31 }
        ensures component { IfOk result (λ s. s.component ≡ component.now) }
        ensures columns { IfOk result (λ s. s.columns ≡ columns) }
    {
        let counts = counts_of(alloc, component, columns)?;
        let codes = codes_of(alloc, component, columns)?;
        Ok(SlopeRows {
            component: Vec::from_slice(alloc, component)?,
            columns,
            counts,
            codes,
        })
    }

    /// The component of each interval.
    pub fn component(&self) -> &[u32]
        ensures { result.now ≡ self.now.component }
    {
        self.component.as_slice()
    }

    /// How many components there are.
    pub fn columns(&self) -> u32
        ensures { result ≡ self.now.columns }
    {
        self.columns
    }

    /// Writes the row with this name, for a function with f at the place: at each component the
    /// rise up to 1, up to f, or up to both points of the pair less that up to their sum. It takes
    /// no memory.
    pub fn write_row(&self, place: u32, name: RowName, row: &mut [i128])
        requires columns { length row.old ≡ self.now.columns }
        requires place_within { place < length self.now.component }
        requires name_within { IsNameBelow name (length self.now.component) }
        ensures row { row.new ≡
            row_entries (component_in self.now.component) self.now.columns
            (length self.now.component) place name }
        ensures small { All (λ x. unsigned_abs x < 2 ^ 127) row.new }
    {
        let order = self.component.len();
        match name {
            RowName::Period => write_counts(self.counts_before(order), row),
            RowName::F => write_counts(self.counts_before(place as usize), row),
            RowName::Pair(a, b) => {
                let sum = (u64::from(a) + u64::from(b)) % order as u64;
                write_slacks(
                    self.counts_before(a as usize),
                    self.counts_before(b as usize),
                    self.counts_before(sum as usize),
                    row,
                );
            }
        }
    }

    /// Whether the pairs (a, b) and (c, d) have the same row. It takes no memory.
    pub fn have_same_row(&self, a: u32, b: u32, c: u32, d: u32) -> bool
        requires first { (a < length self.now.component) × (b < length self.now.component) }
        requires second { (c < length self.now.component) × (d < length self.now.component) }
        ensures { (place : ℕ) → IsTrue result ↔ (
            row_entries (component_in self.now.component) self.now.columns
            (length self.now.component) place (Pair a b)
            ≡ row_entries (component_in self.now.component) self.now.columns
            (length self.now.component) place (Pair c d)) }
    {
        let codes = self.codes.as_slice();
        if codes.is_empty() {
            return self.have_same_counts(a, b, c, d);
        }
        let one = sum_of_codes(codes, a as usize, b as usize, c as usize + d as usize);
        let other = sum_of_codes(codes, c as usize, d as usize, a as usize + b as usize);
        one == other
    }

    /// Whether the pairs (a, b) and (c, d) have the same row, column by column.
    fn have_same_counts(&self, a: u32, b: u32, c: u32, d: u32) -> bool
        requires first { (a < length self.now.component) × (b < length self.now.component) }
        requires second { (c < length self.now.component) × (d < length self.now.component) }
        ensures { (place : ℕ) → IsTrue result ↔ (
            row_entries (component_in self.now.component) self.now.columns
            (length self.now.component) place (Pair a b)
            ≡ row_entries (component_in self.now.component) self.now.columns
            (length self.now.component) place (Pair c d)) }
    {
        let order = self.component.len();
        let first_sum = sum_below(a, b, order);
        let second_sum = sum_below(c, d, order);
        are_same_slacks(
            self.counts_before(a as usize),
            self.counts_before(b as usize),
            self.counts_before(first_sum),
            self.counts_before(c as usize),
            self.counts_before(d as usize),
            self.counts_before(second_sum),
        )
    }

    /// How many of the intervals before i/q are in each component.
    fn counts_before(&self, i: usize) -> &[u32]
        requires { i ≤ length self.now.component }
        ensures { result.now ≡ rises_at (component_in self.now.component) self.now.columns i }
    {
        let columns = self.columns as usize;
        let start = i * columns;
        &self.counts[start..start + columns]
    }
}

/// For each i up to the number of intervals, how many of those before i/q are in each component,
/// all in one list.
fn counts_of(alloc: Global, component: &[u32], columns: u32) -> Result<Vec<u32>, AllocError>
    requires components { All (λ c. c < columns) component.now }
    requires count { length component.now < 2 ^ 31 }
    ensures { IfOk result (λ counts. counts.items
        ≡ flat_map (rises_at (component_in component.now) columns)
        (range_with_len 0 (length component.now + 1))) }
{
    let mut count = vec![in alloc; 0; columns as usize]?;
    let mut counts = Vec::with_capacity(alloc, (component.len() + 1) * columns as usize)?;
    counts.extend_from_slice(count.as_slice())?;
    for c in component {
        count[*c as usize] += 1;
        counts.extend_from_slice(count.as_slice())?;
    }
    Ok(counts)
}

/// The sum of two numbers below the order, less the order if that is not below it.
fn sum_below(a: u32, b: u32, order: usize) -> usize
    requires first { a < order }
    requires second { b < order }
    ensures { result ≡ (a + b) % order }
{
    let sum = a as usize + b as usize;
    if sum < order { sum } else { sum - order }
}

/// Whether the sums of the counts of two, less those of a third, are those of three others.
fn are_same_slacks(
    first: &[u32],
    second: &[u32],
    third: &[u32],
    fourth: &[u32],
    fifth: &[u32],
    sixth: &[u32],
) -> bool
    requires second { length second.now ≡ length first.now }
    requires third { length third.now ≡ length first.now }
    requires fourth { length fourth.now ≡ length first.now }
    requires fifth { length fifth.now ≡ length first.now }
    requires sixth { length sixth.now ≡ length first.now }
    ensures { IsTrue result ↔ ((c : ℕ) → c < length first.now →
        pos (get_or first.now c 0) +ℤ pos (get_or second.now c 0) -ℤ pos (get_or third.now c 0)
        ≡ pos (get_or fourth.now c 0) +ℤ pos (get_or fifth.now c 0) -ℤ pos (get_or sixth.now c 0)) }
{
    for c in 0..first.len() {
        let one = u64::from(first[c]) + u64::from(second[c]) + u64::from(sixth[c]);
        let other = u64::from(fourth[c]) + u64::from(fifth[c]) + u64::from(third[c]);
        if one != other {
            return false;
        }
    }
    true
}

/// Writes the counts.
fn write_counts(counts: &[u32], row: &mut [i128])
    requires { length counts.now ≡ length row.old }
    ensures { (c : ℕ) → c < length row.old → get_or row.new c (pos 0) ≡ pos
        (get_or counts.now c 0) }
{
    for c in 0..row.len() {
        row[c] = i128::from(counts[c]);
    }
}

/// Writes the sums of the counts of two, less those of a third.
fn write_slacks(first: &[u32], second: &[u32], third: &[u32], row: &mut [i128])
    requires first { length first.now ≡ length row.old }
    requires second { length second.now ≡ length row.old }
    requires third { length third.now ≡ length row.old }
    ensures { (c : ℕ) → c < length row.old → get_or row.new c (pos 0)
        ≡ pos (get_or first.now c 0) +ℤ pos (get_or second.now c 0) -ℤ pos (get_or third.now c 0) }
{
    for c in 0..row.len() {
        row[c] = slack(first[c], second[c], third[c]);
    }
}

/// The sum of two counts, less a third.
fn slack(first: u32, second: u32, third: u32) -> i128
    ensures { result ≡ pos first +ℤ pos second -ℤ pos third }
{
    i128::from(first) + i128::from(second) - i128::from(third)
}
