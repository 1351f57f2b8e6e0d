//! Rows that are made entry by entry.
ghost use Rattle.std.specs.Prelude.{ℕ, ℤ, pos, ◌≡◌, ◌+◌, ◌<◌, ◌≤◌, ◌^◌, ◌+ℤ◌, ◌*ℤ◌, length, IfOk};
ghost use Rattle.std.specs.Prelude.{unsigned_abs, get_or};
ghost use Rattle.gj_sparse_elim.specs.Sparse.{AreSparse};
ghost use Rattle.gj_limit_system.specs.SparseSums.{sparse_dot, weight};
ghost use Rattle.gj_limit_system.specs.Places.{no_entry, IsPlaceOf};

use gj_sparse_elim::Entry;
use std::alloc::AllocError;

/// The index of the first entry whose column is not below this one.
fn place_of(entries: &[Entry], column: u32) -> usize
    requires { length entries.now < 2 ^ 32 }
    ensures { IsPlaceOf entries.now column result }
{
    let mut place = 0;
    while place < entries.len() && entries[place].column < column {
        place += 1;
    }
    place
}

/// The sum of a factor and a sign.
fn sum_of(factor: i128, sign: i128) -> i128
    requires factor { unsigned_abs factor < 2 ^ 31 }
    requires sign { unsigned_abs sign ≡ 1 }
    ensures { result ≡ factor +ℤ sign }
{
    factor + sign
}

/// The entry with this factor at the column.
fn entry_of(column: u32, factor: i128) -> Entry
    ensures { result ≡ record { column = column; factor = factor } }
{
    Entry { column, factor }
}

/// Adds 1 or -1 to the factor at this place. An entry with nothing left is taken out.
fn add_at(entries: &mut Vec<Entry>, place: usize, sign: i128)
    requires within { place < length entries.old.items }
    requires sign { unsigned_abs sign ≡ 1 }
    requires light { weight entries.old.items < 2 ^ 31 }
    ensures sparse { (n : ℕ) → AreSparse n entries.old.items → AreSparse n entries.new.items }
    ensures dot { (x : ℕ → ℤ) → sparse_dot entries.new.items x ≡
        sparse_dot entries.old.items x +ℤ sign *ℤ
        x (get_or entries.old.items place no_entry).column }
    ensures light { weight entries.new.items ≤ weight entries.old.items + 1 }
{
    let entry = entries[place];
    let factor = sum_of(entry.factor, sign);
    if factor == 0 {
        entries.remove(place);
        return;
    }
    entries[place] = entry_of(entry.column, factor);
}

/// Adds 1 or -1 at the column.
pub(crate) fn add_sign(
    entries: &mut Vec<Entry>,
    column: u32,
    sign: i128,
    columns: u32,
) -> Result<(), AllocError>
    requires sparse { AreSparse columns entries.old.items }
    requires below { column < columns }
    requires sign { unsigned_abs sign ≡ 1 }
    requires light { weight entries.old.items < 2 ^ 31 }
    ensures sparse { IfOk result (λ _. AreSparse columns entries.new.items) }
    ensures dot { IfOk result (λ _. (x : ℕ → ℤ) →
        sparse_dot entries.new.items x ≡ sparse_dot entries.old.items x +ℤ sign *ℤ x column) }
    ensures light { IfOk result (λ _. weight entries.new.items ≤ weight entries.old.items + 1) }
{
    let place = place_of(entries.as_slice(), column);
    if place < entries.len() && entries[place].column == column {
        add_at(entries, place, sign);
        return Ok(());
    }
    entries.insert(place, entry_of(column, sign))?;
    Ok(())
}
