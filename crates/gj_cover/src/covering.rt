//! The cover of a function by its tight pairs.
ghost use Rattle.std.specs.Prelude.{IfOk};
ghost use Rattle.gj_shape.specs.Additive.{IsTight};
ghost use Rattle.gj_shape.specs.FunctionData.{IsContinuous};
ghost use Rattle.gj_shape.specs.Given.{IsOrder};
ghost use Rattle.gj_faces.specs.Runs.{InRuns, AreInOrder};
ghost use Rattle.gj_faces.specs.TightPairs.{AreTightPairsOf};
ghost use Rattle.gj_cover.specs.CoverOf.{IsCoverOf};
ghost use Rattle.gj_cover.specs.Table.{IsTightInTable};

use crate::class::least_class;
use crate::covered::Cover;
use crate::fill::table_of_runs;
use crate::pairs::table_of_pairs;
use crate::progress::Progress;
use crate::table::Table;
use gj_faces::{Run, TightPairs};
use gj_shape::Shape;
use std::alloc::{AllocError, Global};

/// The covered intervals of a continuous function, their components, the lines that show why they
/// are covered, and the class of the least uncovered interval.
///
/// An interval is directly covered if an additive triangle projects on it, and two are joined if an
/// additive edge links them or an additive triangle projects on both. Covered is what is directly
/// covered or joined to a covered interval. The lines come in this order: if an interval without a
/// line is joined to one with a line, the next line is for the least such, with the least interval
/// to which it is joined and the first face in walk order that joins the two; otherwise it is for
/// the least interval without a line that is directly covered, with the first triangle in walk
/// order, and opens the next component.
///
/// ```text
/// let found = cover(alloc, &shape)?; // of the mixed-integer cut for f = 3/5, of order 5
/// // found.count is 2, the intervals on which it rises and those on which it falls
/// // found.class is empty
/// ```
pub fn cover(alloc: Global, shape: &Shape) -> Result<Cover, AllocError>
    requires { IsContinuous shape.now }
    ensures { IfOk result (IsCoverOf shape.now.order (IsTight shape.now)) }
{
    let pairs = TightPairs::new(alloc, shape)?;
    let found = cover_of_pairs(alloc, shape, &pairs)?;
    Ok(found)
}

/// The same from the tight pairs of the function.
pub fn cover_of_pairs(alloc: Global, shape: &Shape, pairs: &TightPairs) -> Result<Cover, AllocError>
    requires { AreTightPairsOf shape.now pairs.now }
    ensures { IfOk result (IsCoverOf shape.now.order (IsTight shape.now)) }
{
    let table = table_of_pairs(alloc, shape, pairs)?;
    let found = cover_of_table(alloc, &table)?;
    Ok(found)
}

/// The same for the complex of order q, from 2 to 1,000, in which the tight pairs are those in the
/// runs.
///
/// The runs are in order: each is of indices below q, and they ascend by a and then by b, with no b
/// in two runs of one a.
pub fn cover_of_runs(alloc: Global, runs: &[Run], q: u32) -> Result<Cover, AllocError>
    requires order { IsOrder q }
    requires in_order { AreInOrder q runs.now }
    ensures { IfOk result (IsCoverOf q (InRuns q runs.now)) }
{
    let table = table_of_runs(alloc, runs, q)?;
    let found = cover_of_table(alloc, &table)?;
    Ok(found)
}

/// The same if the tight pairs are those of the table.
fn cover_of_table(alloc: Global, table: &Table) -> Result<Cover, AllocError>
    ensures { IfOk result (IsCoverOf table.now.order (IsTightInTable table.now)) }
{
    let found = Progress::of(alloc, table)?;
    let class = least_class(alloc, table, &found.free)?;
    Ok(found.with_class(class))
}
