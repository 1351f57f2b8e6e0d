//! Pairs whose rows were handed over, found again by codes that are made from the counts of rows.
ghost use Rattle.std.specs.Prelude.{◌≡◌, ◌+◌, ◌*◌, ◌<◌, ◌≤◌, ◌^◌, [], length, All, IfOk, OnOk};
ghost use Rattle.gj_extreme.specs.SeenPairs.{AreSeenBelow};

use std::alloc::{AllocError, Global};

/// How many pairs are remembered at most.
const MOST_PLACES: usize = 1_024;

/// How many places there are for each interval, as long as they are not more than that.
const PLACES_OF_INTERVAL: usize = 8;

/// An odd number by which codes are spread over the places: 2^64 divided by the golden ratio.
const SPREAD: u64 = 11_400_714_819_323_198_485;

/// A pair of grid points.
#[derive(Clone, Copy)]
pub(crate) struct SeenPair {
    pub(crate) a: u32,
    pub(crate) b: u32,
}

/// At each place the last pair whose code led there, at first (0, 0), whose row has only zeros.
///
/// Pairs with the same row have the same code. So a row is known again, unless another row with its
/// place came between.
#[derive(Drop)]
pub(crate) struct SeenPairs {
    pub(crate) pairs: Vec<SeenPair>,
    /// For each grid point, below the order twice, the code of the counts of the intervals before
    /// it.
    pub(crate) codes: Vec<u64>,
}

impl SeenPairs {
    /// No pairs, and no places for any.
    pub(crate) fn without_places(alloc: Global) -> SeenPairs
        ensures { result.pairs.items ≡ [] }
    {
        SeenPairs {
            pairs: Vec::new(alloc),
            codes: Vec::new(alloc),
        }
    }

    /// No pairs, for intervals in these components.
    pub(crate) fn new(alloc: Global, component: &[u32]) -> Result<SeenPairs, AllocError>
        requires some { 0 < length component.now }
        requires few { length component.now < 2 ^ 31 }
        ensures below { IfOk result (AreSeenBelow (length component.now)) }
        ensures zeros { IfOk result (λ seen. All
            (λ p. p ≡ record { a = 0; b = 0 }) seen.pairs.items) }
    {
        let places = (PLACES_OF_INTERVAL * component.len()).min(MOST_PLACES);
        Ok(SeenPairs {
            pairs: vec![in alloc; SeenPair { a: 0, b: 0 }; places]?,
            codes: codes_of(alloc, component)?,
        })
    }

    /// The place of the code of a pair of grid points below the order.
    pub(crate) fn place(&self, a: u32, b: u32) -> usize
        requires below { a + b < length self.now.codes.items }
        requires some { 0 < length self.now.pairs.items }
        requires few { length self.now.pairs.items ≤ 1024 }
        ensures { result < length self.now.pairs.items }
    {
        let (a, b) = (a as usize, b as usize);
        let code = self.codes[a]
            .wrapping_add(self.codes[b])
            .wrapping_sub(self.codes[a + b]);
        ((code.wrapping_mul(SPREAD) >> 32) * self.pairs.len() as u64 >> 32) as usize
    }
}

/// For each grid point, below the order twice, the code of the counts of the intervals before it:
/// the sum of the codes of their components.
fn codes_of(alloc: Global, component: &[u32]) -> Result<Vec<u64>, AllocError>
    requires { length component.now < 2 ^ 31 }
    ensures { IfOk result (λ v. length v.items ≡ 2 * length component.now) }
{
    let mut codes = Vec::with_capacity(alloc, 2 * component.len())?;
    push_codes(&mut codes, component)?;
    codes.extend_from_within(0..component.len())?;
    Ok(codes)
}

/// Appends the codes of the counts for the grid points below the order.
fn push_codes(codes: &mut Vec<u64>, component: &[u32]) -> Result<(), AllocError>
    ensures { OnOk result (length codes.new.items ≡ length codes.old.items + length component.now) }
{
    let mut code: u64 = 0;
    for number in component {
        codes.push(code)?;
        code = code.wrapping_add(code_of(*number));
    }
    Ok(())
}

/// The code of a component: its number, scattered.
fn code_of(number: u32) -> u64 {
    let spread = (u64::from(number) + 1).wrapping_mul(SPREAD);
    (spread ^ spread >> 29).wrapping_mul(SPREAD)
}
