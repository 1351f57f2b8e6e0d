//! The edges that link two intervals, and the triangles on which the slack is 0, row by row.
ghost use Rattle.std.specs.Prelude.{◌≡◌, vec_len};
ghost use Rattle.gj_shape.specs.Given.{IsOrder};

use crate::row_joins::RowJoins;
use crate::square_row::{SquareRow, value_row};
use crate::tight_limits::TightLimits;
use gj_shape::Shape;
use std::alloc::{AllocError, Global};

/// The joins of all rows.
#[derive(Drop)]
pub struct Joins {
    order: u32,
    rows: Vec<RowJoins>,
    ghost few: { IsOrder order },
    ghost whole: { vec_len rows ≡ order },
}

impl Joins {
    ghost use Rattle.std.specs.Prelude.{◌<◌, IfOk};
    ghost use Rattle.gj_shape.specs.FunctionData.{FunctionData};
    ghost use Rattle.gj_limit_faces.specs.Joins.{AreJoinsOf};
    ghost use Rattle.gj_limit_faces.specs.RowJoins.{AreRowJoins};
    ghost use Rattle.gj_limit_faces.specs.TightLimits.{AreTightLimitsOf};

    /// The joins of the function with these tight limits.
    pub fn new(alloc: Global, shape: &Shape, limits: &TightLimits) -> Result<Joins, AllocError>
        requires { AreTightLimitsOf shape.now limits.now }
        ensures { IfOk result (AreJoinsOf shape.now) }
    {
        let order = shape.order();
        let mut rows = Vec::with_capacity(alloc, order as usize)?;
        let mut start = value_row(shape, limits, 0, 0);
        for a in 0..order {
            let end = value_row(shape, limits, a, 1);
            let values = SquareRow { start, end };
            rows.push_reserved(RowJoins::of(shape, limits, &values, a));
            start = end;
        }
        Ok(Joins { order, rows })
    }

    /// The order, from 2 to 1,000.
    pub fn order(&self) -> u32
        ensures value { result ≡ self.now.order }
        ensures few { IsOrder result }
    {
        self.order
    }

    /// Those of row a.
    pub fn row(&self, a: u32) -> &RowJoins
        requires { a < self.now.order }
        ensures { (f : FunctionData) → AreJoinsOf f self.now → AreRowJoins f a result.now }
    {
        &self.rows[a as usize]
    }
}
