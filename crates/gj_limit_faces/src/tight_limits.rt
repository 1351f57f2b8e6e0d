//! The limits of the slack that are 0, row by row.
ghost use Rattle.gj_limit_faces.specs.Lanes.{AreLanesOf};

use crate::jumps::few_jumps;
use crate::lanes::SideLanes;
use crate::terms::terms_of;
use gj_loops::IndexSet;
use gj_shape::{FaceKind, Shape};
use std::alloc::{AllocError, Global};

/// Where the limits of the slack of a function are 0.
#[derive(Drop)]
pub struct TightLimits {
    pub(crate) lanes: SideLanes,
    /// The indices at which the function jumps, if they are few.
    pub(crate) jumps: Option<Vec<u32>>,
}

impl TightLimits {
    ghost use Rattle.std.specs.Prelude.{ℕ, ◌↔◌, ◌<◌, length, IfOk, IsTrue};
    ghost use Rattle.gj_shape.specs.Faces.{corners_of};
    ghost use Rattle.gj_jumps.specs.LimitCover.{IsTightAt};
    ghost use Rattle.gj_loops.specs.IndexSets.{has};
    ghost use Rattle.gj_limit_faces.specs.TightLimits.{AreTightLimitsOf};

    /// Those of the function.
    pub fn new(alloc: Global, shape: &Shape) -> Result<TightLimits, AllocError>
        ensures { IfOk result (AreTightLimitsOf shape.now) }
    {
        let lanes = SideLanes::of(alloc, shape)?;
        let jumps = few_jumps(alloc, shape)?;
        Ok(TightLimits { lanes, jumps })
    }

    /// The indices b below the order for which the limit of the slack from inside the face of this
    /// kind of the square (a, b) is 0 at this corner of it, and no others. The corners of a face
    /// are counted from 0.
    pub fn row(&self, shape: &Shape, kind: FaceKind, corner: u32, a: u32) -> IndexSet
        requires limits { AreTightLimitsOf shape.now self.now }
        requires corner { corner < length (corners_of kind 0 0) }
        requires within { a < shape.now.order }
        ensures { (b : ℕ) → IsTrue (has result b) ↔
            ((b < shape.now.order) × IsTightAt shape.now kind a b corner) }
    {
        self.lanes.row(shape, terms_of(kind, corner), a)
    }
}
