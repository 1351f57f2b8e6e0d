//! The points of a function, tested one after another.
ghost use Rattle.std.specs.Prelude.{◌≡◌, ◌<◌, ◌+◌, [], ◌∷◌, ◌++◌, All, length, List, IfOk, IfErr};
ghost use Rattle.std.specs.Prelude.{OnOk, OnErr, alloc_error};
ghost use Rattle.std.specs.Vec.{vec_len, vec_capacity};
ghost use Rattle.gj_frac.specs.declared.Frac.{Frac};
ghost use Rattle.gj_shape.specs.declared.faults.FractionFault.{FractionFault};
ghost use Rattle.gj_shape.specs.declared.faults.FractionFault.TheVariants as refusal;
ghost use Rattle.gj_shape.specs.declared.points.PointFault.TheVariants.{Large, Fine, Memory};
ghost use Rattle.gj_shape.specs.Given.{IsOrder, IsPlace, IsSmall, HasCommonDenominator, IsGivenBy};
ghost use Rattle.gj_shape.specs.Points.{lefts, values, rights, all_fractions, IsPointFault};
ghost use Rattle.gj_shape.specs.Points.{even_point, point_fault};

use crate::denominators::{goes_with, with_point};
use crate::faults::FractionFault;
use crate::shape::Shape;
use gj_frac::Frac;
use std::alloc::{AllocError, Global};
use std::marker::Model;
use thiserror::Error;

/// The limits and the value of a function at a multiple of 1/q.
#[derive(Clone, Copy, Debug, PartialEq, Eq)]
pub struct Point {
    /// The limit from the left.
    pub left: Frac,
    /// The value.
    pub value: Frac,
    /// The limit from the right.
    pub right: Frac,
}

/// Why a point cannot follow others.
#[derive(Debug, Drop, Error)]
pub enum PointFault {
    /// A fraction of it is above 2^20 in absolute value.
    #[error("a value is above 2^20 in absolute value")]
    Large,
    /// The common denominator of the fractions so far passes 2^31 - 1.
    #[error("the common denominator passes 2^31 - 1")]
    Fine,
    /// There was no memory.
    #[error("out of memory")]
    Memory(AllocError),
}

impl From<FractionFault> for PointFault {
    ghost from_gives = { λ e f. f ≡ point_fault e };

    fn from(fault: FractionFault) -> PointFault {
        match fault {
            FractionFault::Large => PointFault::Large,
            FractionFault::Fine => PointFault::Fine,
        }
    }
}

impl From<AllocError> for PointFault {
    ghost from_gives = { λ e f. f ≡ Memory e };

    fn from(error: AllocError) -> PointFault {
        PointFault::Memory(error)
    }
}

/// Points that pass all tests. Contracts see them as their list.
#[derive(Drop)]
pub struct Points {
    left: Vec<Frac>,
    value: Vec<Frac>,
    right: Vec<Frac>,
    /// The least common denominator of all fractions.
    scale: u32,
}

impl Model for Points {
    ghost use Rattle.std.specs.Prelude.{List};
    ghost use Rattle.gj_shape.specs.declared.points.Point.{Point};

    ghost Value = { List Point };

    ghost use Rattle.gj_shape.specs.KeptPoints.{points_of, AreKept};

    ghost view = { λ p. points_of p.left.items p.value.items p.right.items };

    ghost invariant = { λ p. AreKept p.left.items p.value.items p.right.items p.scale };
}

impl Points {
    /// No points, with room for `count` of them. An error says that memory ran out.
    pub fn with_room(alloc: Global, count: usize) -> Result<Points, AllocError>
        ensures { IfOk result (λ points. points ≡ []) }
    {
        Ok(Points {
            left: Vec::with_capacity(alloc, count)?,
            value: Vec::with_capacity(alloc, count)?,
            right: Vec::with_capacity(alloc, count)?,
            scale: 1,
        })
    }

    /// Adds a point behind the others. Its limit from the left, its value and its limit from the
    /// right are tested in this order, each for `Large` and then for `Fine`. With it all fractions
    /// are at most 2^20 in absolute value, and have a common denominator of at most 2^31 - 1. After
    /// an error the points are as they were.
    pub fn push(&mut self, point: Point) -> Result<(), PointFault>
        ensures ok { OnOk result (self.new ≡ self.old ++ point ∷ []) }
        ensures small { OnOk result (All IsSmall (all_fractions self.new)) }
        ensures common { OnOk result (HasCommonDenominator (all_fractions self.new)) }
        ensures err { OnErr result (self.new ≡ self.old) }
        ensures fault { IfErr result (IsPointFault self.old point) }
    {
        let scale = with_point(self.scale, point)?;
        self.left.reserve(1)?;
        self.value.reserve(1)?;
        self.right.reserve(1)?;
        self.left.push_reserved(point.left);
        self.value.push_reserved(point.value);
        self.right.push_reserved(point.right);
        self.scale = scale;
        Ok(())
    }

    /// Adds a point without a jump, as `push` does: both limits are the value.
    ///
    /// Most points of a function are such, with a denominator that divides those before. Then one
    /// test does for the three.
    pub fn push_value(&mut self, value: Frac) -> Result<(), PointFault>
        ensures ok { OnOk result (self.new ≡ self.old ++ even_point value ∷ []) }
        ensures small { OnOk result (All IsSmall (all_fractions self.new)) }
        ensures common { OnOk result (HasCommonDenominator (all_fractions self.new)) }
        ensures err { OnErr result (self.new ≡ self.old) }
        ensures fault { IfErr result (IsPointFault self.old (even_point value)) }
    {
        if !goes_with(self.scale, value) {
            return self.push(Point {
                left: value,
                value,
                right: value,
            });
        }
        self.left.reserve(1)?;
        self.value.reserve(1)?;
        self.right.reserve(1)?;
        self.left.push_reserved(value);
        self.value.push_reserved(value);
        self.right.push_reserved(value);
        Ok(())
    }

    /// The function of this order and place with these points, which are tested already.
    pub fn shape(&self, alloc: Global, order: u32, place: u32) -> Result<Shape, AllocError>
        requires order_fits { IsOrder order }
        requires place_fits { IsPlace order place }
        requires count { length self.now ≡ order }
        ensures { IfOk result (IsGivenBy order place (lefts self.now) (values self.now)
            (rights self.now)) }
    {
        Shape::over(
            alloc,
            order,
            place,
            self.scale,
            self.left.as_slice(),
            self.value.as_slice(),
            self.right.as_slice(),
        )
    }
}
