//! The rows that are kept, as a proof has them.
ghost use Rattle.std.specs.Prelude.{ℕ, ◌≡◌, ◌<◌, Some, List, length, map, get_or, All, IfOk, IsSome};
ghost use Rattle.gj_shape.specs.Elimination.{KeptRow};
ghost use Rattle.gj_elim.specs.KeptRows.{log_row};
ghost use Rattle.gj_extreme.specs.RowsToCome.{AreLoggedRows};

use gj_elim::LogRow;
use gj_proof::PivotRow;
use gj_shape::{List, RowName};
use std::alloc::{AllocError, Global};

/// How the groups of a proof are made.
pub trait GroupMaker {
    /// The name of a row.
    type Name: Copy;

    /// The group of a row.
    type Group: Drop;

    /// The group with this name, these columns of steps and this column of a pivot.
    ghost made: { Self.Name → List ℕ → ℕ → Self.Group };

    /// The group of the row with this name, which these steps change.
    fn group(name: Self::Name, reduce: List<u32>, pivot: u32) -> Self::Group
        ensures { result ≡ made name reduce pivot };
}

/// Makes the groups of a function that is continuous.
pub(crate) struct PivotRows;

impl GroupMaker for PivotRows {
    type Name = RowName;

    type Group = PivotRow;

    ghost made = { λ n r p. record { name = n; reduce = r; pivot = p } };

    fn group(name: RowName, reduce: List<u32>, pivot: u32) -> PivotRow {
        PivotRow {
            name,
            reduce,
            pivot,
        }
    }
}

/// The group of each row that is kept: its name, the steps that change it, and its pivot.
pub fn groups_of<M: GroupMaker>(
    alloc: Global,
    names: &[M::Name],
    log: &[LogRow],
) -> Result<Vec<M::Group>, AllocError>
    requires { length names.now ≡ length log.now }
    ensures { IfOk result (λ v. (name_of : KeptRow → M.Name) (kept : List KeptRow) →
        names.now ≡ map name_of kept → AreLoggedRows kept log.now →
        v.items ≡ map (λ k. M.made (name_of k) k.reduce k.pivot) kept) }
{
    let mut groups = Vec::with_capacity(alloc, log.len())?;
    for (name, line) in names.iter().zip(log) {
        let reduce = Vec::from_slice(alloc, line.reduce.as_slice())?;
        groups.push(M::group(*name, List::of(reduce), line.pivot))?;
    }
    Ok(groups)
}

/// The groups of the kept rows, each with the name that has its number.
pub fn groups_by_number<M: GroupMaker>(
    alloc: Global,
    names: &[M::Name],
    log: &[LogRow],
) -> Result<Vec<M::Group>, AllocError>
    requires { All (λ line. line.number < length names.now) log.now }
    ensures { IfOk result (λ v. (none : M.Name) (kept : List KeptRow) →
        log.now ≡ map log_row kept →
        v.items ≡ map (λ k. M.made (get_or names.now k.number none) k.reduce k.pivot) kept) }
{
    let mut kept = Vec::with_capacity(alloc, log.len())?;
    for line in log {
        kept.push(names[line.number as usize])?;
    }
    groups_of::<M>(alloc, kept.as_slice(), log)
}

/// The numbers of the components, if each interval has one.
pub fn numbers_of(alloc: Global, component: &[Option<u32>]) -> Result<Vec<u32>, AllocError>
    requires { All IsSome component.now }
    ensures { IfOk result (λ v. map Some v.items ≡ component.now) }
{
    let mut numbers = Vec::with_capacity(alloc, component.len())?;
    for number in component {
        numbers.push(number.unwrap())?;
    }
    Ok(numbers)
}
