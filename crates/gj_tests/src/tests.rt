//! Values by hand. A function beside a test answers whether its values are as they must be, and
//! none if a call gives none.
mod callers;
mod cuts;
mod derivations;
mod faces;
mod fractions;
mod numbers;
mod problems;
mod rows;
mod shapes;
mod slopes;
mod streams;
mod texts;

use gj_frac::Frac;
use gj_shape::Shape;
use std::alloc::Global;

/// The function with f = 1/2 that is 0 at 0 and has this value at 1/2, and is affine between.
fn of_order_2(alloc: Global, peak: Frac) -> Option<Shape> {
    let values = [Frac::ratio(0, 1), peak];
    Shape::new(alloc, 2, 1, &values, &values, &values).ok()
}
