//! The tight pairs of a continuous function as runs.
ghost use Rattle.std.specs.Prelude.{ℕ, ◌↔◌, ◌+◌, ◌<◌, IsTrue, OnOk, IfOk};
ghost use Rattle.gj_loops.specs.IndexSets.{has};
ghost use Rattle.gj_shape.specs.Additive.{IsTight};
ghost use Rattle.gj_shape.specs.FunctionData.{IsContinuous};
ghost use Rattle.gj_shape.specs.Given.{IsOrder};
ghost use Rattle.gj_faces.specs.Runs.{AreRunsOf};
ghost use Rattle.gj_faces.specs.RunsBefore.{AreRunsBefore};

use crate::run::Run;
use crate::tight_pairs::TightPairs;
use gj_loops::IndexSet;
use gj_shape::Shape;
use std::alloc::{AllocError, Global};

/// The tight pairs of the continuous function as the longest runs: for a from 0, and then for b
/// from 0.
///
/// The pair (a, b) with a and b below the order q is tight exactly if one run of a holds b. No run
/// goes on from q - 1 to 0.
pub fn runs(alloc: Global, shape: &Shape) -> Result<Vec<Run>, AllocError>
    requires { IsContinuous shape.now }
    ensures { IfOk result (λ runs. AreRunsOf shape.now.order (IsTight shape.now) runs.items) }
{
    let pairs = TightPairs::new(alloc, shape)?;
    let mut runs = Vec::new(alloc);
    for a in 0..shape.order() {
        push_row(&mut runs, shape, a, pairs.row(a))?;
    }
    Ok(runs)
}

/// Adds the runs of row a to those of the rows before it.
fn push_row(runs: &mut Vec<Run>, shape: &Shape, a: u32, row: &IndexSet) -> Result<(), AllocError>
    requires order { IsOrder shape.now.order }
    requires within { a < shape.now.order }
    requires row { (b : ℕ) → IsTrue (has row.now b) ↔ (b < shape.now.order) ×
        IsTight shape.now a b }
    requires before { AreRunsBefore shape.now.order (IsTight shape.now) a 0 runs.old.items }
    ensures { OnOk result (AreRunsBefore shape.now.order (IsTight shape.now)
        (a + 1) 0 runs.new.items) }
{
    let starts = row.and_not(&row.up(1));
    let ends = row.and_not(&row.down(1));
    let mut place = 0;
    while let Some(from) = starts.first_from(place) {
        let Some(to) = ends.first_from(from) else {
            unreachable!()
        };
        runs.push(Run {
            a,
            from: from as u32,
            to: to as u32,
        })?;
        place = to + 1;
    }
    Ok(())
}
