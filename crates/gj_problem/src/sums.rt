//! Sums over all columns, to which multiples of inequalities are added.
ghost use Rattle.std.specs.Prelude.{◌≡◌, ◌↔◌, ◌<◌, ◌^◌, ◌⊎◌, ℕ, pos, List, IfOk, IfSome};
ghost use Rattle.std.specs.Prelude.{IsNone, OnErr, OnOk, length};
ghost use Rattle.gj_fields.specs.Rational.{Rational, whole, rational, ◌+ℚ◌, ◌*ℚ◌, ◌-ℚ◌};
ghost use Rattle.gj_problem.specs.Problems.{value_at, sum_at, surplus_at, AreTermsWithin};
ghost use Rattle.gj_problem.specs.Rows.{dot};
ghost use Rattle.gj_problem.specs.Steps.{IsMadeNext, IsWideAt, IsWideEntry, IsWideWithin};
ghost use Rattle.gj_problem.specs.RoundedCuts.{IsZero};

use crate::problem::{Entry, Inequality};
use gj_frac::{Frac, Wide};
use std::alloc::{AllocError, Global};

/// A coefficient for each column, and a right side.
#[derive(Drop)]
pub struct Sum {
    /// The coefficients.
    pub coefficients: Vec<Frac>,
    /// The right side.
    pub right: Frac,
}

impl Sum {
    /// No coefficient, against this right side. The only error is want of memory.
    pub fn of_none(alloc: Global, columns: usize, right: Frac) -> Result<Sum, AllocError>
        ensures right { IfOk result (λ sum. sum.right ≡ right) }
        ensures count { IfOk result (λ sum. length sum.coefficients.items ≡ columns) }
        ensures none { IfOk result (λ sum. (point : List Rational) →
            dot sum.coefficients.items point ≡ whole (pos 0)) }
    {
        let coefficients = vec![in alloc; Frac::ratio(0, 1); columns]?;
        Ok(Sum {
            coefficients,
            right,
        })
    }

    /// The sum with this multiple of an entry added.
    fn add_entry(&mut self, factor: Frac, entry: Entry) -> Result<(), Wide>
        ensures right { self.new.right ≡ self.old.right }
        ensures count { length self.new.coefficients.items ≡ length self.old.coefficients.items }
        ensures added { IfOk result (λ _. (point : List Rational) →
            dot self.new.coefficients.items point
            ≡ dot self.old.coefficients.items point +ℚ rational factor *ℚ
            (rational entry.value *ℚ value_at point entry.column)) }
        ensures wide { OnErr result (IsWideEntry self.old.coefficients.items factor entry) }
        ensures narrow { OnOk result (¬ IsWideEntry self.old.coefficients.items factor entry) }
    {
        let column = entry.column as usize;
        if column >= self.coefficients.len() {
            return Err(Wide);
        }
        self.coefficients[column] = with_multiple(self.coefficients[column], factor, entry.value)?;
        Ok(())
    }

    /// The sum with this multiple of each entry added.
    fn add_entries(&mut self, factor: Frac, entries: &[Entry]) -> Result<(), Wide>
        ensures right { self.new.right ≡ self.old.right }
        ensures count { length self.new.coefficients.items ≡ length self.old.coefficients.items }
        ensures added { IfOk result (λ _. (point : List Rational) →
            dot self.new.coefficients.items point
            ≡ dot self.old.coefficients.items point +ℚ rational factor *ℚ sum_at
            point entries.now) }
        ensures wide { OnErr result (IsWideWithin self.old.coefficients.items factor entries.now) }
        ensures narrow { OnOk result
            (¬ IsWideWithin self.old.coefficients.items factor entries.now) }
    {
        for entry in entries {
            self.add_entry(factor, *entry)?;
        }
        Ok(())
    }

    /// The sum with this multiple of an inequality added.
    ///
    /// Wide exactly if at one of the entries, or at the right side, a product or a sum does not
    /// fit, or an entry has no column. Then a part of the entries has been added.
    pub fn add(&mut self, factor: Frac, entries: &[Entry], right: Frac) -> Result<(), Wide>
        ensures count { length self.new.coefficients.items ≡ length self.old.coefficients.items }
        ensures added { IfOk result (λ _. (point : List Rational) →
            dot self.new.coefficients.items point -ℚ rational self.new.right
            ≡ (dot self.old.coefficients.items point -ℚ rational self.old.right)
            +ℚ rational factor *ℚ (sum_at point entries.now -ℚ rational right)) }
        ensures wide { OnErr result (IsWideWithin self.old.coefficients.items factor entries.now
            ⊎ IsWideAt self.old.right factor right) }
        ensures narrow { OnOk result
            (¬ (IsWideWithin self.old.coefficients.items factor entries.now
            ⊎ IsWideAt self.old.right factor right)) }
    {
        self.add_entries(factor, entries)?;
        self.right = with_multiple(self.right, factor, right)?;
        Ok(())
    }

    /// The inequality of the coefficients that are not 0, in the order of the columns; none exactly
    /// if there are more than 2^32 columns. The only error is want of memory.
    pub fn inequality(self, alloc: Global) -> Result<Option<Inequality>, AllocError>
        ensures none { IfOk result (λ made. IsNone made ↔ (2 ^ 32 < length self.coefficients.items)) }
        ensures surplus { IfOk result (λ made. IfSome made (λ q. (point : List Rational) →
            surplus_at point q
            ≡ dot self.coefficients.items point -ℚ rational self.right)) }
        ensures terms { IfOk result (λ made. IfSome made (λ q.
            AreTermsWithin 0 (length self.coefficients.items) q.entries)) }
    {
        let mut entries = Vec::new(alloc);
        for (column, coefficient) in self.coefficients.iter().enumerate() {
            let Ok(index) = u32::try_from(column) else {
                return Ok(None);
            };
            push_some(
                &mut entries,
                Entry {
                    column: index,
                    value: *coefficient,
                },
            )?;
        }
        Ok(Some(Inequality {
            entries: gj_shape::List::of(entries),
            right: self.right,
        }))
    }
}

/// x with this multiple of a value added.
pub(crate) fn with_multiple(x: Frac, factor: Frac, value: Frac) -> Result<Frac, Wide>
    ensures value { IfOk result
        (λ z. rational z ≡ rational x +ℚ rational factor *ℚ rational value) }
    ensures wide { OnErr result (IsWideAt x factor value) }
    ensures narrow { OnOk result (¬ IsWideAt x factor value) }
{
    if value.num() == 0 {
        return Ok(x);
    }
    x.checked_add(factor.checked_mul(value)?)
}

/// The entries with one more, unless it is 0.
pub(crate) fn push_some(entries: &mut Vec<Entry>, entry: Entry) -> Result<(), AllocError>
    ensures next { IfOk result (λ _. IsMadeNext (IsZero entry) (λ e. e ≡ entry)
        entries.old.items entries.new.items) }
    ensures sum { IfOk result (λ _. (point : List Rational) → sum_at point entries.new.items
        ≡ sum_at point entries.old.items +ℚ rational entry.value *ℚ value_at point entry.column) }
{
    if entry.value.num() != 0 {
        entries.push(entry)?;
    }
    Ok(())
}
