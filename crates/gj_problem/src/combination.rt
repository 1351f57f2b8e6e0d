//! Sums over one denominator, to which multiples are added without a common divisor being sought.
ghost use Rattle.std.specs.Prelude.{◌≡◌, ℤ, ◌*ℤ◌, ◌<ℤ◌, pos, ◌≤◌, ◌^◌, unsigned_abs};
ghost use Rattle.std.specs.Prelude.{◌+ℤ◌, length, IfOk, IfSome, IsTrue};
ghost use Rattle.std.specs.List.{AllZip};
ghost use Rattle.gj_frac.specs.Fraction.{IsRatio};
ghost use Rattle.gj_problem.specs.OneDenominator.{IsOneDenominator, IsDenominator};
ghost use Rattle.gj_problem.specs.OneDenominator.{IsTimes, IsSumWith};
ghost use Rattle.gj_problem.specs.EntriesOver.{AreEntriesOver, IsNumeratorPushed};

use crate::faults::Fault;
use crate::problem::{Entry, Inequality};
use crate::sparse::Sparse;
use crate::sums::{Sum, push_some};
use gj_frac::{Frac, Wide, checked_product, checked_total, gcd};
use gj_shape::List;
use std::alloc::Global;

/// A coefficient for each column, and a right side, as numerators over one denominator: a common
/// denominator of the factors that were added, times one of the numbers that they multiply.
///
/// What is added to it is what is added to a [`Sum`]. This is much faster, and is done as long as
/// all numerators and the denominator are below 2^127 in absolute value.
#[derive(Drop)]
pub struct Combination {
    numerators: Vec<i128>,
    right: i128,
    factors: i128,
    numbers: i128,
    ghost denominator: { IsOneDenominator factors numbers },
}

impl Combination {
    ghost use Rattle.gj_problem.specs.Combinations.{KeepsParts, StartsAt, IsSumOf, IsInequalityOf};
    ghost use Rattle.gj_problem.specs.Combinations.{AddsEntry, AddsEntries, Adds};

    /// No coefficient, against this whole number. The denominator begins with that of the given
    /// factors, so that it need not grow when these are added.
    pub fn of_none(
        alloc: Global,
        columns: usize,
        right: u32,
        factors: &[Frac],
    ) -> Result<Combination, Fault>
        ensures { IfOk result (StartsAt columns right) }
    {
        let common = common_factor(factors)?;
        Combination::over(alloc, columns, right, common)
    }

    /// No coefficient, against 0, over a common denominator of the multipliers.
    pub(crate) fn for_multipliers(
        alloc: Global,
        columns: usize,
        multipliers: &Sparse,
    ) -> Result<Combination, Fault>
        ensures { IfOk result (StartsAt columns 0) }
    {
        let common = common_multiplier(multipliers)?;
        Combination::over(alloc, columns, 0, common)
    }

    /// No coefficient, against this whole number, over this denominator of factors.
    fn over(alloc: Global, columns: usize, right: u32, common: i128) -> Result<Combination, Fault>
        requires { IsDenominator common }
        ensures { IfOk result (StartsAt columns right) }
    {
        let right = checked_product(i128::from(right), common)?;
        let numerators = vec![in alloc; 0; columns]?;
        Ok(Combination {
            numerators,
            right,
            factors: common,
            numbers: 1,
        })
    }

    /// The sum with this multiple of an inequality added.
    ///
    /// Where it is `Wide`, a number over the one denominator does not fit, or an entry has no
    /// column. Then the sum is no more of use, and the same may still fit in lowest terms.
    pub fn add(&mut self, factor: Frac, entries: &[Entry], right: Frac) -> Result<(), Wide>
        ensures { IfOk result (λ _. Adds self.old factor entries.now right self.new) }
    {
        let factor = self.factor_over(factor)?;
        self.add_entries(factor, entries)?;
        let value = self.number_over(right)?;
        self.right = checked_total(self.right, product(factor, value)?)?;
        Ok(())
    }

    /// The sum with this multiple of each entry added.
    fn add_entries(&mut self, factor: i128, entries: &[Entry]) -> Result<(), Wide>
        ensures factors { IfOk result (λ _. self.new.factors ≡ self.old.factors) }
        ensures added { IfOk result (λ _. AddsEntries self.old factor entries.now self.new) }
    {
        for entry in entries {
            self.add_entry(factor, entry)?;
        }
        Ok(())
    }

    /// The sum with this multiple of an entry added.
    #[inline(always)]
    fn add_entry(&mut self, factor: i128, entry: &Entry) -> Result<(), Wide>
        ensures factors { IfOk result (λ _. self.new.factors ≡ self.old.factors) }
        ensures added { IfOk result (λ _. AddsEntry self.old factor entry.now self.new) }
    {
        let column = entry.column as usize;
        if column < self.numerators.len() {
            let old = self.numerators[column];
            if let Some(new) = with_small_multiple(old, factor, entry.value, self.numbers) {
                self.numerators[column] = new;
                return Ok(());
            }
        }
        self.add_any_entry(factor, *entry)
    }

    /// The same, whatever the size and the denominator.
    #[inline(never)]
    fn add_any_entry(&mut self, factor: i128, entry: Entry) -> Result<(), Wide>
        ensures factors { IfOk result (λ _. self.new.factors ≡ self.old.factors) }
        ensures added { IfOk result (λ _. AddsEntry self.old factor entry self.new) }
    {
        let value = self.number_over(entry.value)?;
        let column = entry.column as usize;
        if column >= self.numerators.len() {
            return Err(Wide);
        }
        let product = product(factor, value)?;
        self.numerators[column] = checked_total(self.numerators[column], product)?;
        Ok(())
    }

    /// The numerator of a factor over the denominator of factors, which grows where it has to.
    fn factor_over(&mut self, x: Frac) -> Result<i128, Wide>
        ensures numerator { IfOk result (λ n. IsRatio x n self.new.factors) }
        ensures same { IfOk result (λ _. KeepsParts self.old self.new) }
    {
        if let Some(numerator) = numerator_over(self.factors, x) {
            return Ok(numerator);
        }
        let scale = missing_factor(self.factors, x)?;
        self.grow_factors(scale)?;
        match numerator_over(self.factors, x) {
            Some(numerator) => Ok(numerator),
            None => Err(Wide),
        }
    }

    /// Multiplies the denominator of factors, and all numerators.
    fn grow_factors(&mut self, scale: i128) -> Result<(), Wide>
        requires { pos 0 <ℤ scale }
        ensures { IfOk result (λ _. KeepsParts self.old self.new) }
    {
        let factors = checked_product(self.factors, scale)?;
        checked_product(factors, self.numbers)?;
        multiply(&mut self.numerators, scale)?;
        self.right = checked_product(self.right, scale)?;
        self.factors = factors;
        Ok(())
    }

    /// The numerator of a number over the denominator of numbers, which grows where it has to.
    #[inline(always)]
    fn number_over(&mut self, x: Frac) -> Result<i128, Wide>
        ensures factors { IfOk result (λ _. self.new.factors ≡ self.old.factors) }
        ensures numerator { IfOk result (λ n. IsRatio x n self.new.numbers) }
        ensures same { IfOk result (λ _. KeepsParts self.old self.new) }
    {
        if let Some(numerator) = numerator_over(self.numbers, x) {
            return Ok(numerator);
        }
        self.number_over_more(x)
    }

    /// The same, with more in the denominator.
    #[inline(never)]
    fn number_over_more(&mut self, x: Frac) -> Result<i128, Wide>
        ensures factors { IfOk result (λ _. self.new.factors ≡ self.old.factors) }
        ensures numerator { IfOk result (λ n. IsRatio x n self.new.numbers) }
        ensures same { IfOk result (λ _. KeepsParts self.old self.new) }
    {
        let scale = missing_factor(self.numbers, x)?;
        self.grow_numbers(scale)?;
        match numerator_over(self.numbers, x) {
            Some(numerator) => Ok(numerator),
            None => Err(Wide),
        }
    }

    /// Multiplies the denominator of numbers, and all numerators.
    fn grow_numbers(&mut self, scale: i128) -> Result<(), Wide>
        requires { pos 0 <ℤ scale }
        ensures factors { IfOk result (λ _. self.new.factors ≡ self.old.factors) }
        ensures same { IfOk result (λ _. KeepsParts self.old self.new) }
    {
        let numbers = checked_product(self.numbers, scale)?;
        checked_product(self.factors, numbers)?;
        multiply(&mut self.numerators, scale)?;
        self.right = checked_product(self.right, scale)?;
        self.numbers = numbers;
        Ok(())
    }

    /// The sum in lowest terms. Where it is `Wide`, the denominator does not fit.
    pub fn sum(self, alloc: Global) -> Result<Sum, Fault>
        ensures { IfOk result (IsSumOf self) }
    {
        let denominator = checked_product(self.factors, self.numbers)?;
        let coefficients = fractions(alloc, self.numerators.as_slice(), denominator)?;
        let right = fraction(self.right, denominator)?;
        Ok(Sum {
            coefficients,
            right,
        })
    }

    /// The inequality of the coefficients that are not 0, in the order of the columns.
    ///
    /// Where it is `Wide`, there are more than 2^32 columns.
    pub fn inequality(self, alloc: Global) -> Result<Inequality, Fault>
        ensures { IfOk result (IsInequalityOf self) }
    {
        let denominator = checked_product(self.factors, self.numbers)?;
        let entries = entries_over(alloc, self.numerators.as_slice(), denominator)?;
        let right = fraction(self.right, denominator)?;
        Ok(Inequality {
            entries: List::of(entries),
            right,
        })
    }
}

/// The entries whose numerators over a denominator are not 0, in the order of the columns.
fn entries_over(alloc: Global, numerators: &[i128], denominator: i128) -> Result<Vec<Entry>, Fault>
    requires { pos 0 <ℤ denominator }
    ensures few { IfOk result (λ _. length numerators.now ≤ 2 ^ 32) }
    ensures entries { IfOk result (λ made.
        AreEntriesOver denominator numerators.now (length numerators.now) made.items) }
{
    if numerators.len() > 1 << 32 {
        return Err(Fault::Wide);
    }
    let mut entries = Vec::new(alloc);
    for (column, numerator) in numerators.iter().enumerate() {
        push_numerator(&mut entries, column, *numerator, denominator)?;
    }
    Ok(entries)
}

/// The entries with one more, unless it is 0.
#[inline(always)]
fn push_numerator(
    entries: &mut Vec<Entry>,
    column: usize,
    numerator: i128,
    denominator: i128,
) -> Result<(), Fault>
    requires { pos 0 <ℤ denominator }
    ensures { IfOk result (λ _. IsNumeratorPushed column numerator denominator
        entries.old.items entries.new.items) }
{
    if numerator == 0 {
        return Ok(());
    }
    let Ok(index) = u32::try_from(column) else {
        return Err(Fault::Wide);
    };
    let value = fraction(numerator, denominator)?;
    push_some(
        entries,
        Entry {
            column: index,
            value,
        },
    )?;
    Ok(())
}

/// The fractions with these numerators over a denominator.
fn fractions(alloc: Global, numerators: &[i128], denominator: i128) -> Result<Vec<Frac>, Fault>
    ensures { IfOk result (λ made. AllZip (λ n x. IsRatio x n denominator)
        numerators.now made.items) }
{
    let mut made = vec![in alloc; Frac::ratio(0, 1); numerators.len()]?;
    for (i, numerator) in numerators.iter().enumerate() {
        if *numerator != 0 {
            made[i] = fraction(*numerator, denominator)?;
        }
    }
    Ok(made)
}

/// The fraction with this numerator over a denominator.
#[inline(always)]
fn fraction(numerator: i128, denominator: i128) -> Result<Frac, Wide>
    ensures { IfOk result (λ x. IsRatio x numerator denominator) }
{
    if numerator == 0 {
        return Ok(Frac::ratio(0, 1));
    }
    Frac::new(numerator, denominator).ok_or(Wide)
}

/// Numbers up to this one in absolute value can be multiplied by any number of 32 bits.
const FREE: i128 = 1 << 94;

/// Such a product can be added to any number up to this one in absolute value.
const HALF: i128 = 1 << 125;

/// The product, if it fits.
#[inline(always)]
fn product(factor: i128, value: i128) -> Result<i128, Wide>
    ensures { IfOk result (IsTimes value factor) }
{
    if let Ok(small) = i32::try_from(value) {
        if -FREE < factor && factor < FREE {
            return Ok(factor * i128::from(small));
        }
    }
    checked_product(factor, value)
}

/// The sum of n and a multiple of x, as a numerator over a denominator, if all are small.
#[inline(always)]
fn with_small_multiple(n: i128, factor: i128, x: Frac, denominator: i128) -> Option<i128>
    ensures { IfSome result (λ t. (v : ℤ) × IsRatio x v denominator × IsSumWith n factor v t) }
{
    let value = small_numerator_over(denominator, x)?;
    let product = small_product(factor, value)?;
    if !is_small(n) {
        return None;
    }
    Some(small_total(n, product))
}

/// Whether the number can be added to any small product.
#[inline(always)]
fn is_small(n: i128) -> bool
    ensures { IsTrue result → unsigned_abs n ≤ 2 ^ 125 }
{
    -HALF <= n && n < HALF
}

/// The sum of two small numbers.
#[inline(always)]
fn small_total(n: i128, m: i128) -> i128
    requires first { unsigned_abs n ≤ 2 ^ 125 }
    requires second { unsigned_abs m ≤ 2 ^ 125 }
    ensures { result ≡ n +ℤ m }
{
    n + m
}

/// The product with a number of 32 bits, if it is small.
#[inline(always)]
fn small_product(factor: i128, value: i128) -> Option<i128>
    ensures is { IfSome result (λ p. p ≡ factor *ℤ value) }
    ensures small { IfSome result (λ p. unsigned_abs p ≤ 2 ^ 125) }
{
    let Ok(small) = i32::try_from(value) else {
        return None;
    };
    if factor < -FREE || factor >= FREE {
        return None;
    }
    Some(factor * i128::from(small))
}

/// The numerator of x over a denominator, if that of x divides it and all fit 32 bits, or if the
/// two denominators are equal.
#[inline(always)]
fn small_numerator_over(denominator: i128, x: Frac) -> Option<i128>
    ensures { IfSome result (λ n. IsRatio x n denominator) }
{
    if x.den() == denominator {
        return Some(x.num());
    }
    let Ok(common) = u32::try_from(denominator) else {
        return None;
    };
    let Ok(d) = u32::try_from(x.den()) else {
        return None;
    };
    let Ok(n) = i32::try_from(x.num()) else {
        return None;
    };
    if d == 0 || common % d != 0 {
        return None;
    }
    Some(short_product(n, common / d))
}

/// The product of two numbers of 32 bits.
#[inline(always)]
fn short_product(n: i32, m: u32) -> i128
    ensures { result ≡ n *ℤ pos m }
{
    i128::from(n) * i128::from(m)
}

/// Multiplies each number.
fn multiply(numbers: &mut Vec<i128>, factor: i128) -> Result<(), Wide>
    ensures { IfOk result (λ _. AllZip (IsTimes factor) numbers.old.items numbers.new.items) }
{
    for i in 0..numbers.len() {
        if numbers[i] != 0 {
            let product = checked_product(numbers[i], factor)?;
            numbers[i] = product;
        }
    }
    Ok(())
}

/// A common denominator of the factors.
fn common_factor(factors: &[Frac]) -> Result<i128, Wide>
    ensures { IfOk result IsDenominator }
{
    let mut common = 1;
    for factor in factors {
        common = common_with(common, *factor)?;
    }
    Ok(common)
}

/// A common denominator of the multipliers.
fn common_multiplier(multipliers: &Sparse) -> Result<i128, Wide>
    ensures { IfOk result IsDenominator }
{
    let mut common = 1;
    for run in multipliers.runs() {
        common = common_with(common, run.value)?;
    }
    Ok(common)
}

/// A common multiple of a denominator and that of x.
#[inline(always)]
fn common_with(common: i128, x: Frac) -> Result<i128, Wide>
    requires { IsDenominator common }
    ensures { IfOk result IsDenominator }
{
    let d = x.den();
    if d == 1 || d == common {
        return Ok(common);
    }
    grown(common, x)
}

/// The same, where they differ.
#[inline(never)]
fn grown(common: i128, x: Frac) -> Result<i128, Wide>
    requires { IsDenominator common }
    ensures { IfOk result IsDenominator }
{
    let scale = missing_factor(common, x)?;
    let grown = checked_product(common, scale)?;
    Ok(grown)
}

/// The least number by which a denominator is multiplied so that that of x divides it.
fn missing_factor(denominator: i128, x: Frac) -> Result<i128, Wide>
    ensures { IfOk result (λ scale. pos 0 <ℤ scale) }
{
    let d = x.den().unsigned_abs();
    let scale = d / gcd(denominator.unsigned_abs(), d);
    match i128::try_from(scale) {
        Ok(scale) if scale > 0 => Ok(scale),
        _ => Err(Wide),
    }
}

/// The numerator of x over a denominator, if that of x divides it and the numerator fits.
#[inline(always)]
fn numerator_over(denominator: i128, x: Frac) -> Option<i128>
    ensures { IfSome result (λ n. IsRatio x n denominator) }
{
    let d = x.den();
    if d == denominator {
        return Some(x.num());
    }
    let scale = exact_quotient(denominator, d)?;
    match checked_product(x.num(), scale) {
        Ok(numerator) => Some(numerator),
        Err(_) => None,
    }
}

/// The quotient, if it is a whole number.
#[inline(always)]
fn exact_quotient(n: i128, d: i128) -> Option<i128>
    requires { pos 0 <ℤ d }
    ensures { IfSome result (λ q. q *ℤ d ≡ n) }
{
    if let (Ok(n), Ok(d)) = (i64::try_from(n), i64::try_from(d)) {
        if n % d == 0 {
            return Some(i128::from(n / d));
        }
        return None;
    }
    if n % d == 0 {
        return Some(n / d);
    }
    None
}
