//! The decision on a function whose intervals are all covered, if a number of the plain elimination
//! passes.
ghost use Rattle.std.specs.Prelude.{◌≡◌, ◌<◌, ◌++◌, List, length, map, All, IfOk, OnOk};
ghost use Rattle.gj_faces.specs.TightPairs.{AreTightPairsOf};
ghost use Rattle.gj_shape.specs.Elimination.{Passes};
ghost use Rattle.gj_shape.specs.FunctionData.{FunctionData, IsContinuous, IsWithinBounds};
ghost use Rattle.gj_shape.specs.SlopeRows.{row_of, row_names, component_in};
ghost use Rattle.gj_shape.specs.Table.{IsMinimal};
ghost use Rattle.gj_shape.specs.declared.extremality.RowName.{RowName};
ghost use Rattle.gj_system.specs.Components.{IsNameBelow};
ghost use Rattle.gj_extreme.specs.Decision.{AreAllCovered, IsDecision, slope_elimination};
ghost use Rattle.gj_extreme.specs.RowsToCome.{pairs_from};

use crate::faults::DecideFault;
use crate::groups::{PivotRows, groups_by_number};
use gj_cover::Cover;
use gj_faces::TightPairs;
use gj_proof::Claim;
use gj_residue::{ListedRows, log_by_residues};
use gj_shape::{List, RowName, Shape};
use gj_system::SlopeRows;
use std::alloc::{AllocError, Global};

/// The claim that the function is extreme, if residues keep a row for each component. No function
/// is known that comes here.
pub(crate) fn extreme_by_residues(
    alloc: Global,
    shape: &Shape,
    pairs: &TightPairs,
    system: &SlopeRows,
    cover: Cover,
) -> Result<Claim, DecideFault>
    requires pairs { AreTightPairsOf shape.now pairs.now }
    requires minimal { IsMinimal shape.now }
    requires continuous { IsContinuous shape.now }
    requires components { length system.now.component ≡ shape.now.order }
    requires covered { AreAllCovered shape.now cover.lines
        (component_in system.now.component) system.now.columns }
    requires passes { Passes (slope_elimination shape.now
        (component_in system.now.component) system.now.columns).marked }
    ensures { IsDecision shape.now result }
{
    let names = names_of(alloc, shape, pairs)?;
    let mut rows = rows_of(alloc, shape.place(), system, names.as_slice())?;
    let log = log_by_residues(alloc, system.columns(), &mut rows)?;
    let groups = groups_by_number::<PivotRows>(alloc, names.as_slice(), log.as_slice())?;
    Ok(Claim::ExtremeByResidues(shape.copy(alloc)?, cover.lines, List::of(groups)))
}

/// The names of all rows of the system, in their order.
fn names_of(alloc: Global, shape: &Shape, pairs: &TightPairs) -> Result<Vec<RowName>, AllocError>
    requires { AreTightPairsOf shape.now pairs.now }
    ensures limits { IsWithinBounds shape.now }
    ensures names { IfOk result (λ v. v.items ≡ row_names shape.now) }
{
    let order = shape.order();
    let mut names = Vec::new(alloc);
    names.push(RowName::Period)?;
    names.push(RowName::F)?;
    for a in 1..order {
        push_names(pairs, a, &mut names)?;
    }
    Ok(names)
}

/// Appends the names of the rows of the tight pairs (a, b) with b from a on.
fn push_names(pairs: &TightPairs, a: u32, names: &mut Vec<RowName>) -> Result<(), AllocError>
    requires { a < pairs.now.order }
    ensures { OnOk result ((f : FunctionData) (behind : List RowName) →
        AreTightPairsOf f pairs.now →
        names.new.items ++ behind ≡ names.old.items ++ (pairs_from f a a ++ behind)) }
{
    let row = pairs.row(a);
    let mut from = a as usize;
    'pairs: while let Some(b) = row.first_from(from) {
        names.push(RowName::Pair(a, b as u32))?;
        from = b + 1;
    }
    Ok(())
}

/// The rows of the system with these names.
fn rows_of(
    alloc: Global,
    place: u32,
    system: &SlopeRows,
    names: &[RowName],
) -> Result<ListedRows, AllocError>
    requires place { place < length system.now.component }
    requires names { All (λ name. IsNameBelow name (length system.now.component)) names.now }
    ensures { IfOk result (λ rows. rows.left ≡ map
        (row_of (component_in system.now.component) system.now.columns
        (length system.now.component) place) names.now) }
{
    let mut rows = Vec::with_capacity(alloc, names.len())?;
    for name in names {
        let mut row = vec![in alloc; 0; system.columns() as usize]?;
        system.write_row(place, *name, row.as_mut_slice());
        rows.push(List::of(row))?;
    }
    Ok(ListedRows::new(rows))
}
