//! The decision on a function whose intervals are all covered, if a number of the plain elimination
//! passes.
ghost use Rattle.std.specs.Prelude.{◌≡◌, IfOk};
ghost use Rattle.gj_limit_faces.specs.TightLimits.{AreTightLimitsOf};
ghost use Rattle.gj_limit_system.specs.LimitRows.{limit_rows};
ghost use Rattle.gj_shape.specs.Elimination.{Passes};
ghost use Rattle.gj_shape.specs.FunctionData.{FunctionData, IsWithinBounds};
ghost use Rattle.gj_shape.specs.Table.{IsMinimal};
ghost use Rattle.gj_limit_extreme.specs.Decision.{AreAllCovered, IsDecision};
ghost use Rattle.gj_limit_extreme.specs.Decision.{limit_elimination};
ghost use Rattle.gj_limit_extreme.specs.SystemRows.{columns_in, IsSystemOf};

use crate::faults::LimitDecideFault;
use crate::groups::LimitPivotRows;
use crate::named_rows::NamedRows;
use gj_cover::Cover;
use gj_extreme::groups_by_number;
use gj_limit_faces::TightLimits;
use gj_limit_proof::LimitClaim;
use gj_limit_system::{LimitRow, LimitRows, push_tight_rows};
use gj_proof::Numbers;
use gj_residue::log_by_residues;
use gj_shape::{List, Shape};
use std::alloc::{AllocError, Global};

/// The claim that the function is extreme, if residues keep a row for each column. No function is
/// known that comes here.
pub(crate) fn extreme_by_residues(
    alloc: Global,
    shape: &Shape,
    limits: &TightLimits,
    system: LimitRows,
    cover: Cover,
) -> Result<LimitClaim, LimitDecideFault>
    requires limits { AreTightLimitsOf shape.now limits.now }
    requires minimal { IsMinimal shape.now }
    requires system { IsSystemOf shape.now system }
    requires count { system.count ≡ cover.count }
    requires covered { AreAllCovered shape.now cover system.component }
    requires passes { Passes (limit_elimination shape.now system.component
        (columns_in system)).marked }
    ensures { IsDecision shape.now result }
{
    let names = names_of(alloc, shape, limits)?;
    let columns = system.columns();
    let listed = Vec::from_slice(alloc, names.as_slice())?;
    let mut rows = NamedRows::new(system, listed);
    let log = log_by_residues(alloc, columns, &mut rows)?;
    let groups = groups_by_number::<LimitPivotRows>(alloc, names.as_slice(), log.as_slice())?;
    Ok(LimitClaim::Extreme(
        Numbers::Residues,
        shape.copy(alloc)?,
        cover.lines,
        List::of(groups),
    ))
}

/// The names of all rows of the system, in their order.
fn names_of(alloc: Global, shape: &Shape, limits: &TightLimits) -> Result<Vec<LimitRow>, AllocError>
    requires { AreTightLimitsOf shape.now limits.now }
    ensures limits { IsWithinBounds shape.now }
    ensures names { IfOk result (λ v. v.items ≡ limit_rows shape.now) }
{
    let order = shape.order();
    let mut names = Vec::new(alloc);
    names.push(LimitRow::F)?;
    for a in 0..order {
        push_tight_rows(alloc, shape, limits, a, &mut names)?;
    }
    Ok(names)
}
