//! Piecewise linear functions of period 1 as data with exact values.
//!
//! A [`Shape`] is such a function: affine between neighbouring multiples of 1/q, with a value and
//! two limits at each of them. `Shape::new` makes one of three lists of fractions, and [`Points`]
//! of points that come one after another; both test the bounds on the fractions in one way, and
//! keep whole numbers over the least common denominator. [`Breaks`] are breakpoints at any
//! fractions, of which `Shape::from_breaks` makes the function on the grid that holds them all.
//!
//! The definitions of the subject stand in `specs/`: tables on grids and minimal functions
//! (`Table`), faces and the limits of the slack on them (`Faces`), violations (`Violation`) and the
//! order in which minimality is tested (`FirstViolation`).
#![tactic(auto)]

mod average;
mod breaks;
mod denominators;
mod extremality;
mod faces;
mod faults;
mod index;
mod laws;
mod limits;
mod list;
mod numerators;
mod pieces;
mod points;
mod refinement;
mod shape;
mod values;
mod violations;

pub use breaks::{Break, BreakFault, Breaks};
pub use denominators::small_denominator;
pub use extremality::{CoverLine, Halves, LimitHalves, RowName, SideNumbers};
pub use faces::{Face, FaceKind};
pub use faults::ShapeFault;
pub use index::wrapped;
pub use laws::{one_function_has_breaks, one_function_is_given};
pub use limits::{
    GREATEST_DENOMINATOR, GREATEST_HALVES_ORDER, GREATEST_HALVES_SCALE, GREATEST_NUMBER,
    GREATEST_ORDER,
};
pub use list::List;
pub use points::{Point, PointFault, Points};
pub use shape::Shape;
pub use violations::Violation;
